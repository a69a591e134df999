//! What each reporter gives.

ghost use Rattle.std.specs.Prelude.{◌≡◌, codes, IfOk};
ghost use Rattle.scratch_values.specs.declared.value.Value.TheVariants as values;
ghost use Rattle.machine_spec.specs.Outcome.{Goes, StopIs, then_do};
ghost use Rattle.machine_spec.specs.Random.{pick_random};
ghost use Rattle.machine_spec.specs.Reporters as machine;
ghost use Rattle.machine_spec.specs.Words.{made_of, seen_words};
ghost use Rattle.machine_spec.specs.View.{value_at};
ghost use Rattle.reporters.specs.Sight.{seen};

use crate::instances::{direction, own, size, x, y};
use crate::rows;
use crate::sight::Sight;
use block_arguments::{number, truth};
use opcode_table::Opcode;
use scratch_number::{add, div, modulo, mul, of_whole, round, sub};
use scratch_values::{Args, Value};
use script_words::{Counted, Rng, Stop};
use std::alloc::{AllocError, Global};

// What a reporter gives that draws no word and makes no text that may be too long. The only error is want of memory.
fn plain(alloc: Global, op: Opcode, args: &Args<'_>, sight: &Sight<'_>) -> Result<Value, AllocError>
    ensures { IfOk result (λ v. v ≡ machine.plain op args.now (seen sight.now)) }
{
    let (a, b) = ("NUM1", "NUM2");
    match op {
        Opcode::OperatorAdd => Ok(Value::Number(add(number(args, a), number(args, b)))),
        Opcode::OperatorSubtract => Ok(Value::Number(sub(number(args, a), number(args, b)))),
        Opcode::OperatorMultiply => Ok(Value::Number(mul(number(args, a), number(args, b)))),
        Opcode::OperatorDivide => Ok(Value::Number(div(number(args, a), number(args, b)))),
        Opcode::OperatorMod => Ok(Value::Number(modulo(number(args, a), number(args, b)))),
        Opcode::OperatorGt => Ok(Value::Truth(rows::is_greater(alloc, args)?)),
        Opcode::OperatorLt => Ok(Value::Truth(rows::is_less(alloc, args)?)),
        Opcode::OperatorEquals => Ok(Value::Truth(rows::are_equal(args))),
        Opcode::OperatorAnd => Ok(Value::Truth(rows::and(args))),
        Opcode::OperatorOr => Ok(Value::Truth(rows::or(args))),
        Opcode::OperatorNot => Ok(Value::Truth(!truth(args, "OPERAND"))),
        Opcode::OperatorLetterOf => rows::letter_of(alloc, args),
        Opcode::OperatorLength => Ok(Value::Number(rows::length_of(args))),
        Opcode::OperatorContains => Ok(Value::Truth(rows::contains(alloc, args)?)),
        Opcode::OperatorRound => Ok(Value::Number(round(number(args, "NUM")))),
        Opcode::OperatorMathOp => Ok(Value::Number(rows::mathop(alloc, args)?)),
        Opcode::DataVariable => rows::variable_value(args, sight),
        Opcode::DataItemNumOfList => Ok(Value::Number(rows::place_of_item(args, sight))),
        Opcode::DataLengthOfList => Ok(Value::Number(rows::length_of_list(args, sight))),
        Opcode::DataListContainsItem => Ok(Value::Truth(rows::contains_item(args, sight))),
        Opcode::ArgumentReporterStringNumber => rows::parameter(args, sight),
        Opcode::ArgumentReporterBoolean => rows::parameter(args, sight),
        Opcode::MotionXPosition => Ok(Value::Number(x(own(sight)))),
        Opcode::MotionYPosition => Ok(Value::Number(y(own(sight)))),
        Opcode::MotionDirection => Ok(Value::Number(direction(own(sight)))),
        Opcode::LooksCostumeNumberName => rows::costume(alloc, args, sight),
        Opcode::LooksBackdropNumberName => rows::backdrop(alloc, args, sight),
        Opcode::LooksSize => Ok(Value::Number(round(size(own(sight))))),
        Opcode::SoundVolume => Ok(Value::Number(rows::own_volume(sight))),
        Opcode::SensingTimer => Ok(Value::Number(sight.devices.timer())),
        Opcode::SensingMouseX => Ok(Value::Number(of_whole(i64::from(sight.devices.mouse_x())))),
        Opcode::SensingMouseY => Ok(Value::Number(of_whole(i64::from(sight.devices.mouse_y())))),
        Opcode::SensingMouseDown => Ok(Value::Truth(sight.devices.button())),
        Opcode::SensingAnswer => rows::answer(sight),
        Opcode::SensingKeyPressed => Ok(Value::Truth(rows::key_pressed(args, sight))),
        Opcode::SensingDistanceTo => Ok(Value::Number(rows::distance(args, sight))),
        Opcode::SensingOf => rows::property(alloc, args, sight),
        _ => Ok(Value::Number(of_whole(0))),
    }
}

/// What a reporter gives of its evaluated arguments (scratch-vm, blocks/scratch3_operators.js and the files beside it).
/// Every other opcode gives 0. `Text` exactly where a join or the contents of a list are too long for a value, `Counter`
/// exactly where a random word is needed and none is left; the only other error is want of memory.
pub fn reported<R: Rng + Drop>(
    alloc: Global,
    op: Opcode,
    args: &Args<'_>,
    sight: &Sight<'_>,
    words: &mut Counted<R>,
) -> Result<Value, Stop>
    ensures ok { IfOk result (λ v. machine.reported op args.entry.now (seen sight.entry.now) (seen_words R.stream words.old) ≡ Goes (record { value = v; words = seen_words R.stream words.new })) }
    ensures stop { StopIs result (machine.reported op args.entry.now (seen sight.entry.now) (seen_words R.stream words.old)) }
{
    match op {
        Opcode::OperatorRandom => random(args, words),
        Opcode::OperatorJoin => rows::join(alloc, args),
        Opcode::DataListContents => rows::list_contents(alloc, args, sight),
        Opcode::DataItemOfList => rows::item(alloc, args, sight, words),
        _ => match plain(alloc, op, args, sight) {
            Ok(value) => Ok(value),
            Err(_) => Err(Stop::NoMemory),
        },
    }
}

// A random number, as a value. `Counter` exactly where a word is needed and none is left.
fn random<R: Rng + Drop>(args: &Args<'_>, words: &mut Counted<R>) -> Result<Value, Stop>
    ensures ok { IfOk result (λ v. then_do (pick_random (value_at (codes "FROM") args.entry.now) (value_at (codes "TO") args.entry.now) (seen_words R.stream words.old)) (made_of (λ n. values.Number n)) ≡ Goes (record { value = v; words = seen_words R.stream words.new })) }
    ensures stop { StopIs result (then_do (pick_random (value_at (codes "FROM") args.entry.now) (value_at (codes "TO") args.entry.now) (seen_words R.stream words.old)) (made_of (λ n. values.Number n))) }
{
    match rows::random(args, words) {
        Ok(number) => Ok(Value::Number(number)),
        Err(stop) => Err(stop),
    }
}
