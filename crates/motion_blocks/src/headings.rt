//! Pointing towards what a menu names.

ghost use Rattle.std.specs.Prelude.{◌≡◌, option_map, IfOk, IfErr};
ghost use Rattle.scratch_number.specs.Arithmetic.{sub as difference};
ghost use Rattle.opcode_table.specs.declared.opcode.Opcode.TheVariants as opcode;
ghost use Rattle.machine_spec.specs.Motion as machine;
ghost use Rattle.machine_spec.specs.Motion.{facing, moved, moved_by, sprite_row};
ghost use Rattle.machine_spec.specs.Outcome.{Goes, StopIs, then_do};
ghost use Rattle.machine_spec.specs.Random.{scattered as spread};
ghost use Rattle.machine_spec.specs.Stores.{instance_at};
ghost use Rattle.machine_spec.specs.Words.{Words, draw, seen_words};
ghost use Rattle.machine_spec.specs.declared.threads.Context.TheVariants.{Fresh};
ghost use Rattle.machine_spec.specs.declared.threads.Control.TheVariants.{Next};
ghost use Rattle.target_records.specs.Records.{records_in};
ghost use Rattle.targets.specs.Live.{IsSameCast};
ghost use Rattle.motion_blocks.specs.Blocks.{goes_on, parts_of};
ghost use Rattle.motion_blocks.specs.Points.{point};
ghost use Rattle.block_arguments.specs.Stops.{IsOfWordsOrMemory};

use crate::instance::{Point, stance_of};
use crate::places::{point_named, scattered};
use block_arguments::given;
use devices::Devices;
use machine_spec::InstanceId;
use operators::{Written, next_word};
use scratch_number::{Num, atan2, of_whole, sub};
use scratch_values::{Args, Value};
use script_words::{Counted, Rng, Stop};
use target_records::Records;
use targets::Targets;

// The direction of a difference of places, where both parts are finite.
fn direction_of(dx: Num, dy: Num) -> Option<Num>
    ensures { result ≡ machine.direction_of dx dy }
{
    match dx {
        Num::Fixed(_) => match dy {
            Num::Fixed(_) => Some(sub(of_whole(90), atan2(dy, dx))),
            Num::Inf => None,
            Num::NegInf => None,
            Num::Nan => None,
        },
        Num::Inf => None,
        Num::NegInf => None,
        Num::Nan => None,
    }
}

// The direction from an instance to a place.
fn direction_to(end: Point, here: InstanceId, targets: &Targets) -> Option<Num>
    ensures { result ≡ machine.direction_of (difference end.x (instance_at here targets.now).x) (difference end.y (instance_at here targets.now).y) }
{
    let own = stance_of(targets, here);
    direction_of(sub(end.x, own.x), sub(end.y, own.y))
}

// Turns an instance to a place, if there is one, and tells whether a redraw is requested.
fn turn_to(end: Option<Point>, here: InstanceId, targets: &mut Targets) -> bool
    ensures row { (w : Words) → moved_by (option_map facing (machine.direction_towards (instance_at here targets.old) (option_map point end))) here (record { targets = targets.old; words = w }) ≡ goes_on targets.new w result }
    ensures cast { IsSameCast targets.old targets.new }
{
    match end {
        Some(end) => match direction_to(end, here, targets) {
            Some(direction) => targets.set_direction(here, direction),
            None => false,
        },
        None => false,
    }
}

// Turns an instance to a random direction, and tells whether a redraw is requested.
#[tactic(auto, using(crate::proofs::Stopping::draw_stops))]
fn turn_at_random<R: Rng + Drop>(
    here: InstanceId,
    targets: &mut Targets,
    words: &mut Counted<R>,
) -> Result<bool, Stop>
    ensures ok { IfOk result (λ redraw. then_do (draw (seen_words R.stream words.old)) (λ w. Goes (moved Next Fresh (facing (spread 360 w.value)) here (record { targets = targets.old; words = w.words }))) ≡ Goes (goes_on targets.new (seen_words R.stream words.new) redraw)) }
    ensures stop { StopIs result (draw (seen_words R.stream words.old)) }
    ensures kind { IfErr result IsOfWordsOrMemory }
    ensures cast { IsSameCast targets.old targets.new }
{
    match next_word(words) {
        Ok(word) => Ok(targets.set_direction(here, scattered(360, word))),
        Err(stop) => Err(stop),
    }
}

// Turns an instance towards a name that is not that of a random direction, and tells whether a redraw is requested.
fn turn_to_named<R: Rng + Drop>(
    name: &str,
    here: InstanceId,
    records: &Records,
    targets: &mut Targets,
    devices: &Devices,
    words: &mut Counted<R>,
) -> Result<bool, Stop>
    ensures ok { IfOk result (λ redraw. then_do (machine.point_named name.now (records_in records.now) devices.now (parts_of R.stream targets.old words.old)) (λ q. Goes (moved_by (option_map facing (machine.direction_towards (instance_at here targets.old) q.value)) here (record { targets = targets.old; words = q.words }))) ≡ Goes (goes_on targets.new (seen_words R.stream words.new) redraw)) }
    ensures stop { StopIs result (machine.point_named name.now (records_in records.now) devices.now (parts_of R.stream targets.old words.old)) }
    ensures kind { IfErr result IsOfWordsOrMemory }
    ensures cast { IsSameCast targets.old targets.new }
{
    match point_named(name, records, targets, devices, words) {
        Ok(end) => Ok(turn_to(end, here, targets)),
        Err(stop) => Err(stop),
    }
}

// Turns an instance towards a name, and tells whether a redraw is requested.
fn turn_towards<R: Rng + Drop>(
    name: &str,
    here: InstanceId,
    records: &Records,
    targets: &mut Targets,
    devices: &Devices,
    words: &mut Counted<R>,
) -> Result<bool, Stop>
    ensures ok { IfOk result (λ redraw. machine.pointed name.now (records_in records.now) devices.now here (parts_of R.stream targets.old words.old) ≡ Goes (goes_on targets.new (seen_words R.stream words.new) redraw)) }
    ensures stop { StopIs result (machine.pointed name.now (records_in records.now) devices.now here (parts_of R.stream targets.old words.old)) }
    ensures kind { IfErr result IsOfWordsOrMemory }
    ensures cast { IsSameCast targets.old targets.new }
{
    match name {
        "_random_" => turn_at_random(here, targets, words),
        _ => turn_to_named(name, here, records, targets, devices, words),
    }
}

// `point towards TOWARDS`: tells whether a redraw is requested.
pub(crate) fn point_towards<R: Rng + Drop>(
    args: &Args<'_>,
    here: InstanceId,
    records: &Records,
    targets: &mut Targets,
    devices: &Devices,
    words: &mut Counted<R>,
) -> Result<bool, Stop>
    ensures ok { IfOk result (λ redraw. sprite_row (records_in records.now) devices.now opcode.MotionPointTowards args.entry.now here Fresh (parts_of R.stream targets.old words.old) ≡ Goes (goes_on targets.new (seen_words R.stream words.new) redraw)) }
    ensures stop { StopIs result (sprite_row (records_in records.now) devices.now opcode.MotionPointTowards args.entry.now here Fresh (parts_of R.stream targets.old words.old)) }
    ensures kind { IfErr result IsOfWordsOrMemory }
    ensures cast { IsSameCast targets.old targets.new }
{
    let zero = Value::Number(of_whole(0));
    let name = Written::of(given(args, "TOWARDS", &zero));
    turn_towards(name.as_str(), here, records, targets, devices, words)
}
