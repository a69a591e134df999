//! The costumes of an instance.

ghost use Rattle.std.specs.Prelude.{◌≡◌, ◌<◌, ◌+◌, ◌%◌, option_map, IfErr, IfOk};
ghost use Rattle.machine_spec.specs.Costume.{costume_index};
ghost use Rattle.machine_spec.specs.Looks.{next_costume, switched_to, with_costume};
ghost use Rattle.machine_spec.specs.Outcome.{Goes, StopIs};
ghost use Rattle.machine_spec.specs.Program.{record_at};
ghost use Rattle.machine_spec.specs.Sensing as machine;
ghost use Rattle.machine_spec.specs.Stores.{instance_at};
ghost use Rattle.machine_spec.specs.Words.{seen_words};
ghost use Rattle.target_records.specs.Records.{records_in};
ghost use Rattle.looks_blocks.specs.Choices.{place_in};
ghost use Rattle.looks_blocks.specs.Costumes.{HasCostumes};
ghost use Rattle.target_records.specs.Costumes.{IsDressed};
ghost use Rattle.looks_blocks.specs.Stops.{IsOfCountersOrMemory};

use crate::choices::choice_of;
use crate::costume_choice::{Pick, index_behind, pick_for};
use machine_spec::{InstanceId, TargetId};
use scratch_values::{BoundText, Value};
use script_words::{Counted, Rng, Stop};
use target_records::Records;
use targets::{Targets, costume_of};

// The names of the costumes of a target.
fn costumes(records: &Records, target: TargetId) -> &[BoundText]
    requires { IsDressed (record_at target (records_in records.now)) }
    ensures { result.now ≡ (record_at target (records_in records.now)).costumes }
{
    if target.0 >= records.targets() {
        unreachable!()
    }
    records.target(target).costumes.as_slice()
}

// The present costume of an instance, from 0.
fn costume(of: InstanceId, targets: &Targets) -> u32
    ensures { result ≡ (instance_at of targets.now).costume }
{
    costume_of(targets.get(of))
}

// The name of the present costume of an instance.
pub(crate) fn present_name<'r>(of: InstanceId, records: &'r Records, targets: &Targets) -> &'r str
    ensures { result.now ≡ machine.costume_name (records_in records.now) (instance_at of targets.now) }
{
    records.costume_name(targets.target(of), costume(of, targets))
}

// The costume that a value picks for an instance, by the rule of costumes or that of backdrops.
pub(crate) fn asked_for<R: Rng + Drop>(
    is_backdrop: bool,
    value: &Value,
    of: InstanceId,
    records: &Records,
    targets: &Targets,
    words: &mut Counted<R>,
) -> Result<Option<Pick>, Stop>
    requires { HasCostumes (records_in records.now) (instance_at of targets.now) }
    ensures ok { IfOk result (λ pick. switched_to is_backdrop value.now (records_in records.now) (instance_at of targets.now) (seen_words R.stream words.old) ≡ Goes (record { value = option_map place_in pick; words = seen_words R.stream words.new })) }
    ensures stop { StopIs result (switched_to is_backdrop value.now (records_in records.now) (instance_at of targets.now) (seen_words R.stream words.old)) }
    ensures kind { IfErr result IsOfCountersOrMemory }
{
    let names = costumes(records, targets.target(of));
    let now = costume(of, targets);
    let choice = choice_of(is_backdrop, names, now, value);
    pick_for(choice, names.len() as u32, now, words)
}

// The next of so many costumes.
fn behind(costume: u32, costumes: u32) -> Pick
    requires { 0 < costumes }
    ensures { place_in result ≡ (costume + 1) % costumes }
{
    Pick {
        index: index_behind(costume),
        costumes,
    }
}

// The next costume of an instance.
pub(crate) fn next(of: InstanceId, records: &Records, targets: &Targets) -> Pick
    requires { HasCostumes (records_in records.now) (instance_at of targets.now) }
    ensures { with_costume (place_in result) (instance_at of targets.now) ≡ next_costume (records_in records.now) (instance_at of targets.now) }
{
    let names = costumes(records, targets.target(of));
    behind(costume(of, targets), names.len() as u32)
}
