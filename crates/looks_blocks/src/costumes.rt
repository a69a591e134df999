//! Costumes of the own instance. Each tells whether a redraw is requested.

ghost use Rattle.std.specs.Prelude.{◌≡◌, codes, option_map, IfErr, IfOk};
ghost use Rattle.machine_spec.specs.Looks.{costume_switched, goes_on, looks_by, next_costume, with_costume};
ghost use Rattle.machine_spec.specs.Outcome.{Goes, StopIs};
ghost use Rattle.machine_spec.specs.Stores.{Devices, instance_at, on_instance};
ghost use Rattle.machine_spec.specs.View.{value_at};
ghost use Rattle.machine_spec.specs.Words.{Words, seen_words};
ghost use Rattle.target_records.specs.Records.{records_in};
ghost use Rattle.targets.specs.Live.{IsSameCast};
ghost use Rattle.looks_blocks.specs.Blocks.{parts};
ghost use Rattle.looks_blocks.specs.Choices.{place_in};
ghost use Rattle.looks_blocks.specs.Costumes.{HasCostumes};
ghost use Rattle.looks_blocks.specs.Stops.{IsOfCountersOrMemory};

use crate::costume_choice::Pick;
use crate::dress::{asked_for, next};
use block_arguments::given;
use machine_spec::InstanceId;
use scratch_number::of_whole;
use scratch_values::{Args, Value};
use script_words::{Counted, Rng, Stop};
use target_records::Records;
use targets::Targets;

// Puts the costume on that is picked, if one is.
fn wear(pick: Option<Pick>, here: InstanceId, targets: &mut Targets) -> bool
    ensures row { (d : Devices) (w : Words) → looks_by (option_map with_costume (option_map place_in pick)) here (parts targets.old d w) ≡ goes_on result (parts targets.new d w) }
    ensures cast { IsSameCast targets.old targets.new }
{
    match pick {
        Some(pick) => targets.set_costume(here, pick.index, pick.costumes),
        None => false,
    }
}

// `switch costume to COSTUME`.
pub(crate) fn switch_costume<R: Rng + Drop>(
    args: &Args<'_>,
    here: InstanceId,
    records: &Records,
    targets: &mut Targets,
    words: &mut Counted<R>,
) -> Result<bool, Stop>
    requires { HasCostumes (records_in records.now) (instance_at here targets.old) }
    ensures ok { IfOk result (λ redraw. (d : Devices) → costume_switched (value_at (codes "COSTUME") args.entry.now) (records_in records.now) here (parts targets.old d (seen_words R.stream words.old)) ≡ Goes (goes_on redraw (parts targets.new d (seen_words R.stream words.new)))) }
    ensures stop { (d : Devices) → StopIs result (costume_switched (value_at (codes "COSTUME") args.entry.now) (records_in records.now) here (parts targets.old d (seen_words R.stream words.old))) }
    ensures kind { IfErr result IsOfCountersOrMemory }
    ensures cast { IsSameCast targets.old targets.new }
{
    let zero = Value::Number(of_whole(0));
    let value = given(args, "COSTUME", &zero);
    match asked_for(false, value, here, records, targets, words) {
        Ok(pick) => Ok(wear(pick, here, targets)),
        Err(stop) => Err(stop),
    }
}

// `next costume`.
#[tactic(auto, using(crate::proofs::Instances::on_instance_same))]
pub(crate) fn next_costume(here: InstanceId, records: &Records, targets: &mut Targets) -> bool
    requires { HasCostumes (records_in records.now) (instance_at here targets.old) }
    ensures redraw { result ≡ (instance_at here targets.old).visible }
    ensures new { targets.new ≡ on_instance here (next_costume (records_in records.now)) targets.old }
    ensures cast { IsSameCast targets.old targets.new }
{
    let pick = next(here, records, targets);
    targets.set_costume(here, pick.index, pick.costumes)
}
