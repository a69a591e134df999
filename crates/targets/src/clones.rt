//! Which instances can be cloned, and sprites by name.

ghost use Rattle.std.specs.Prelude.{◌≡◌, ◌<◌, ◌+◌, ◌||◌, ◌&&◌, bytes_eq, position, nat_lt, not, length, slice_index_or};
ghost use Rattle.machine_spec.specs.Stopping.{most_clones};
ghost use Rattle.machine_spec.specs.Program.{record_at};
ghost use Rattle.target_records.specs.Records.{records_in};
ghost use Rattle.targets.specs.Clones.{clones_in, is_of_first};
ghost use Rattle.machine_spec.specs.declared.instance.Instance.{Instance};

use machine_spec::{Instance, MOST_CLONES, TargetId, TargetRecord};
use target_records::Records;

// How many clones there are: an original has the place of its target as its number.
fn count(instances: &[Instance]) -> usize
    ensures { result ≡ clones_in instances.now }
{
    instances
        .iter()
        .filter(|instance| instance.number.0 != u64::from(instance.of.0))
        .count()
}

// Whether an instance is one of the target of the first.
fn is_of_first(instance: &Instance, instances: &[Instance]) -> bool
    ensures { result ≡ is_of_first instance.now instances.now }
{
    match instances {
        [] => false,
        [first, ..] => first.of == instance.of,
    }
}

// Whether there are the most clones, or the instance at a place is on the stage.
pub(crate) fn is_full(instances: &[Instance], place: usize) -> bool
    requires { place < length instances.now }
    ensures { (d : Instance) → result ≡ (not (nat_lt (clones_in instances.now) most_clones) || is_of_first (slice_index_or instances.now place d) instances.now) }
{
    if count(instances) >= MOST_CLONES {
        return true;
    }
    is_of_first(&instances[place], instances)
}

// Whether a target is the stage.
pub(crate) fn is_stage(target: TargetId, records: &Records) -> bool
    ensures { result ≡ (record_at target (records_in records.now)).is_stage }
{
    if target.0 >= records.targets() {
        return false;
    }
    records.target(target).is_stage
}

// Whether a clone of an instance of a target can be made, where there are so many instances.
pub(crate) fn has_room(instances: usize, target: TargetId, records: &Records) -> bool
    ensures { result ≡ not (not (nat_lt instances (length (records_in records.now).targets + most_clones)) || (record_at target (records_in records.now)).is_stage) }
{
    if instances >= records.targets() as usize + MOST_CLONES {
        return false;
    }
    !is_stage(target, records)
}

// The place of the first sprite of a name.
pub(crate) fn sprite(targets: &[TargetRecord], name: &str) -> Option<usize>
    ensures { result ≡ position (λ t. not t.is_stage && bytes_eq t.name name.now) targets.now }
{
    targets
        .iter()
        .position(|target| !target.is_stage && target.name.as_str() == name)
}
