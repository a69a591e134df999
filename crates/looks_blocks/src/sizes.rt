//! The size of a sprite, and whether it is shown. On the stage these blocks do nothing. Each tells whether a redraw is
//! requested.

ghost use Rattle.std.specs.Prelude.{◌≡◌, codes};
ghost use Rattle.scratch_number.specs.Arithmetic.{add as sum};
ghost use Rattle.machine_spec.specs.Looks.{goes_on, looks, on_sprite, redrawn, with_size};
ghost use Rattle.machine_spec.specs.Stores.{Devices, instance_at, on_instance};
ghost use Rattle.machine_spec.specs.View.{number_at};
ghost use Rattle.machine_spec.specs.Words.{Words};
ghost use Rattle.target_records.specs.Records.{records_in};
ghost use Rattle.targets.specs.Live.{IsSameCast};
ghost use Rattle.looks_blocks.specs.Blocks.{parts};

use crate::instance::size;
use block_arguments::number;
use machine_spec::InstanceId;
use scratch_number::{Num, add};
use scratch_values::Args;
use target_records::Records;
use targets::Targets;

// Adds to the size.
#[tactic(auto, using(crate::proofs::Instances::on_instance_same))]
fn grow(change: Num, here: InstanceId, targets: &mut Targets) -> bool
    ensures redraw { result ≡ (instance_at here targets.old).visible }
    ensures new { targets.new ≡ on_instance here (λ i. with_size (sum i.size change) i) targets.old }
    ensures cast { IsSameCast targets.old targets.new }
{
    let changed = add(size(here, targets), change);
    targets.set_size(here, changed)
}

// `change size by CHANGE`.
pub(crate) fn change_size(
    args: &Args<'_>,
    here: InstanceId,
    records: &Records,
    targets: &mut Targets,
) -> bool
    ensures row { (d : Devices) (w : Words) → on_sprite (records_in records.now) here (parts targets.old d w) (looks (λ i. with_size (sum i.size (number_at (codes "CHANGE") args.entry.now)) i) here (parts targets.old d w)) ≡ goes_on result (parts targets.new d w) }
    ensures cast { IsSameCast targets.old targets.new }
{
    if targets.is_on_stage(records, here) {
        return false;
    }
    grow(number(args, "CHANGE"), here, targets)
}

// `set size to SIZE`.
pub(crate) fn set_size(
    args: &Args<'_>,
    here: InstanceId,
    records: &Records,
    targets: &mut Targets,
) -> bool
    ensures row { (d : Devices) (w : Words) → on_sprite (records_in records.now) here (parts targets.old d w) (looks (with_size (number_at (codes "SIZE") args.entry.now)) here (parts targets.old d w)) ≡ goes_on result (parts targets.new d w) }
    ensures cast { IsSameCast targets.old targets.new }
{
    if targets.is_on_stage(records, here) {
        return false;
    }
    targets.set_size(here, number(args, "SIZE"))
}

// `show` and `hide`.
pub(crate) fn set_visible(
    visible: bool,
    here: InstanceId,
    records: &Records,
    targets: &mut Targets,
) -> bool
    ensures row { (d : Devices) (w : Words) → on_sprite (records_in records.now) here (parts targets.old d w) (redrawn (λ i. record i { visible = visible }) here (parts targets.old d w)) ≡ goes_on result (parts targets.new d w) }
    ensures cast { IsSameCast targets.old targets.new }
{
    if targets.is_on_stage(records, here) {
        return false;
    }
    targets.set_visible(here, visible)
}
