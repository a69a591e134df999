//! Going to a place that a menu names.

ghost use Rattle.std.specs.Prelude.{◌≡◌, option_map, IfOk, IfErr};
ghost use Rattle.opcode_table.specs.declared.opcode.Opcode.TheVariants as opcode;
ghost use Rattle.machine_spec.specs.Motion.{at_point, moved_by, sprite_row};
ghost use Rattle.machine_spec.specs.Outcome.{Goes, StopIs};
ghost use Rattle.machine_spec.specs.Words.{Words, seen_words};
ghost use Rattle.machine_spec.specs.declared.threads.Context.TheVariants.{Fresh};
ghost use Rattle.target_records.specs.Records.{records_in};
ghost use Rattle.targets.specs.Live.{IsSameCast};
ghost use Rattle.motion_blocks.specs.Blocks.{goes_on, parts_of};
ghost use Rattle.motion_blocks.specs.Points.{point};
ghost use Rattle.block_arguments.specs.Stops.{IsOfWordsOrMemory};

use crate::instance::Point;
use crate::places::point_named;
use block_arguments::given;
use devices::Devices;
use machine_spec::InstanceId;
use operators::Written;
use scratch_number::of_whole;
use scratch_values::{Args, Value};
use script_words::{Counted, Rng, Stop};
use target_records::Records;
use targets::Targets;

// Moves an instance to a place, if there is one, and tells whether a redraw is requested.
fn put(end: Option<Point>, here: InstanceId, targets: &mut Targets) -> bool
    ensures row { (w : Words) → moved_by (option_map at_point (option_map point end)) here (record { targets = targets.old; words = w }) ≡ goes_on targets.new w result }
    ensures cast { IsSameCast targets.old targets.new }
{
    match end {
        Some(end) => targets.set_xy(here, end.x, end.y),
        None => false,
    }
}

// `go to TO`: tells whether a redraw is requested.
pub(crate) fn go_to<R: Rng + Drop>(
    args: &Args<'_>,
    here: InstanceId,
    records: &Records,
    targets: &mut Targets,
    devices: &Devices,
    words: &mut Counted<R>,
) -> Result<bool, Stop>
    ensures ok { IfOk result (λ redraw. sprite_row (records_in records.now) devices.now opcode.MotionGoTo args.entry.now here Fresh (parts_of R.stream targets.old words.old) ≡ Goes (goes_on targets.new (seen_words R.stream words.new) redraw)) }
    ensures stop { StopIs result (sprite_row (records_in records.now) devices.now opcode.MotionGoTo args.entry.now here Fresh (parts_of R.stream targets.old words.old)) }
    ensures kind { IfErr result IsOfWordsOrMemory }
    ensures cast { IsSameCast targets.old targets.new }
{
    let zero = Value::Number(of_whole(0));
    let name = Written::of(given(args, "TO", &zero));
    match point_named(name.as_str(), records, targets, devices, words) {
        Ok(end) => Ok(put(end, here, targets)),
        Err(stop) => Err(stop),
    }
}
