//! Evaluates inputs and what is plugged into them.

ghost use Rattle.std.specs.Prelude.{◌≡◌, ◌<◌, length, IfOk, IfErr, Some};
ghost use Rattle.cached_blocks.specs.Told.{IsReporter};
ghost use Rattle.project_check.specs.Loaded.{tables_of, blocks_at};
ghost use Rattle.project_spec.specs.Trees.{script};
ghost use Rattle.scratch_values.specs.Held.{held};
ghost use Rattle.machine_spec.specs.Evaluate.{evaluated};
ghost use Rattle.machine_spec.specs.Outcome.{Goes, StopIs};
ghost use Rattle.machine_spec.specs.Script.{Statement, Script, Then};
ghost use Rattle.machine_spec.specs.Words.{seen_words};
ghost use Rattle.evaluate.specs.Plugged.{IsPluggedIn};
ghost use Rattle.evaluate.specs.Seen.{seen, sheet_of, operand_value, reporter_value, arguments_at};
ghost use Rattle.evaluate.specs.Short as short;
ghost use Rattle.evaluate.specs.Short.{both_texts, counts, holds, negated, rounded};
ghost use Rattle.evaluate.specs.Stops.{IsOfValuesOrMemory};

use crate::block_links::{linked, way_at};
use crate::operations::{counted, held_compared, held_joined, number_in, truth_in};
use crate::view::{View, sight, stores};
use crate::ways::{Arithmetic, Comparison, Connective, Way, calculated, connected};
use cached_blocks::{a_script_is_told, an_expression_is_told};
use machine_spec::BlockId;
use project_json::Text;
use project_spec::Operand;
use reporters::{contents, reported, variable};
use scratch_number::{Num, round};
use scratch_values::{Arg, Args, Held, Value, to_number, to_truth};
use script_words::{Counted, Rng, Stop};
use std::alloc::Global;

// The value of what an input of block k holds. Literals are lent by the project.
#[inline(always)]
#[cycle(evaluate)]
fn operand<'p, R: Rng + Drop>(
    alloc: Global,
    view: &View<'p, '_>,
    k: BlockId,
    operand: &'p Operand,
    words: &mut Counted<R>,
) -> Result<Held<'p>, Stop>
    requires held { view.now.target < length (tables_of view.now.project.now) }
    requires plugged { IsPluggedIn view.now k operand.now }
    ensures ok { IfOk result (λ h. operand_value view.now operand.entry.now (seen_words R.stream words.old) ≡ Goes (record { value = held h; words = seen_words R.stream words.new })) }
    ensures stop { StopIs result (operand_value view.now operand.entry.now (seen_words R.stream words.old)) }
{
    match operand {
        Operand::Literal(literal) => Ok(Held::Lent(literal)),
        Operand::Variable(named) => match variable(&stores(view), *named).clone() {
            Ok(value) => Ok(Held::Own(value)),
            Err(_) => Err(Stop::NoMemory),
        },
        Operand::List(list) => match contents(alloc, &stores(view), *list) {
            Ok(value) => Ok(Held::Own(value)),
            Err(stop) => Err(stop),
        },
        Operand::Block(id) => match reporter(alloc, view, *id, words) {
            Ok(value) => Ok(Held::Own(value)),
            Err(stop) => Err(stop),
        },
    }
}

// The value of what an input of block k holds, lent by the project or by the variables where it stands there.
#[inline(always)]
#[cycle(evaluate)]
fn lent<'v, R: Rng + Drop>(
    alloc: Global,
    view: &'v View<'_, '_>,
    k: BlockId,
    operand: &'v Operand,
    words: &mut Counted<R>,
) -> Result<Held<'v>, Stop>
    requires held { view.now.target < length (tables_of view.now.project.now) }
    requires plugged { IsPluggedIn view.now k operand.now }
    ensures ok { IfOk result (λ h. operand_value view.now operand.entry.now (seen_words R.stream words.old) ≡ Goes (record { value = held h; words = seen_words R.stream words.new })) }
    ensures stop { StopIs result (operand_value view.now operand.entry.now (seen_words R.stream words.old)) }
{
    match operand {
        Operand::Literal(literal) => Ok(Held::Lent(literal)),
        Operand::Variable(named) => Ok(Held::Lent(variable(&stores(view), *named))),
        Operand::List(list) => match contents(alloc, &stores(view), *list) {
            Ok(value) => Ok(Held::Own(value)),
            Err(stop) => Err(stop),
        },
        Operand::Block(id) => match reporter(alloc, view, *id, words) {
            Ok(value) => Ok(Held::Own(value)),
            Err(stop) => Err(stop),
        },
    }
}

// The number of what an input of block k holds.
#[inline(always)]
#[cycle(evaluate)]
fn number<R: Rng + Drop>(
    alloc: Global,
    view: &View<'_, '_>,
    k: BlockId,
    operand: &Operand,
    words: &mut Counted<R>,
) -> Result<Num, Stop>
    requires held { view.now.target < length (tables_of view.now.project.now) }
    requires plugged { IsPluggedIn view.now k operand.now }
    ensures ok { IfOk result (λ n. counts (operand_value view.now operand.entry.now (seen_words R.stream words.old)) ≡ Goes (record { value = n; words = seen_words R.stream words.new })) }
    ensures stop { StopIs result (counts (operand_value view.now operand.entry.now (seen_words R.stream words.old))) }
{
    match operand {
        Operand::Literal(literal) => Ok(to_number(literal)),
        Operand::Variable(named) => Ok(to_number(variable(&stores(view), *named))),
        Operand::List(list) => match contents(alloc, &stores(view), *list) {
            Ok(value) => Ok(number_in(value)),
            Err(stop) => Err(stop),
        },
        Operand::Block(id) => match reporter_number(alloc, view, *id, words) {
            Ok(number) => Ok(number),
            Err(stop) => Err(stop),
        },
    }
}

// Whether what an input of block k holds is true.
#[inline(always)]
#[cycle(evaluate)]
fn truth<R: Rng + Drop>(
    alloc: Global,
    view: &View<'_, '_>,
    k: BlockId,
    operand: &Operand,
    words: &mut Counted<R>,
) -> Result<bool, Stop>
    requires held { view.now.target < length (tables_of view.now.project.now) }
    requires plugged { IsPluggedIn view.now k operand.now }
    ensures ok { IfOk result (λ b. holds (operand_value view.now operand.entry.now (seen_words R.stream words.old)) ≡ Goes (record { value = b; words = seen_words R.stream words.new })) }
    ensures stop { StopIs result (holds (operand_value view.now operand.entry.now (seen_words R.stream words.old))) }
{
    match operand {
        Operand::Literal(literal) => Ok(to_truth(literal)),
        Operand::Variable(named) => Ok(to_truth(variable(&stores(view), *named))),
        Operand::List(list) => match contents(alloc, &stores(view), *list) {
            Ok(value) => Ok(truth_in(value)),
            Err(stop) => Err(stop),
        },
        Operand::Block(id) => match reporter_truth(alloc, view, *id, words) {
            Ok(truth) => Ok(truth),
            Err(stop) => Err(stop),
        },
    }
}

// The number of an operator of reporter id over two numbers.
#[inline(always)]
#[cycle(evaluate)]
fn calculation<R: Rng + Drop>(
    alloc: Global,
    view: &View<'_, '_>,
    id: BlockId,
    operator: Arithmetic,
    x: &Operand,
    y: &Operand,
    words: &mut Counted<R>,
) -> Result<Num, Stop>
    requires held { view.now.target < length (tables_of view.now.project.now) }
    requires first { IsPluggedIn view.now id x.now }
    requires second { IsPluggedIn view.now id y.now }
    ensures ok { IfOk result (λ n. short.calculation view.now operator x.entry.now y.entry.now (seen_words R.stream words.old) ≡ Goes (record { value = n; words = seen_words R.stream words.new })) }
    ensures stop { StopIs result (short.calculation view.now operator x.entry.now y.entry.now (seen_words R.stream words.old)) }
{
    let a = match number(alloc, view, id, x, words) {
        Ok(a) => a,
        Err(stop) => return Err(stop),
    };
    let b = match number(alloc, view, id, y, words) {
        Ok(b) => b,
        Err(stop) => return Err(stop),
    };
    Ok(calculated(operator, a, b))
}

// Whether a comparison of reporter id holds.
#[inline(always)]
#[cycle(evaluate)]
fn comparison_holds<R: Rng + Drop>(
    alloc: Global,
    view: &View<'_, '_>,
    id: BlockId,
    comparison: Comparison,
    x: &Operand,
    y: &Operand,
    words: &mut Counted<R>,
) -> Result<bool, Stop>
    requires held { view.now.target < length (tables_of view.now.project.now) }
    requires first { IsPluggedIn view.now id x.now }
    requires second { IsPluggedIn view.now id y.now }
    ensures ok { IfOk result (λ b. short.comparison view.now comparison x.entry.now y.entry.now (seen_words R.stream words.old) ≡ Goes (record { value = b; words = seen_words R.stream words.new })) }
    ensures stop { StopIs result (short.comparison view.now comparison x.entry.now y.entry.now (seen_words R.stream words.old)) }
{
    let a = match lent(alloc, &*view, id, &*x, words) {
        Ok(a) => a,
        Err(stop) => return Err(stop),
    };
    let b = match lent(alloc, &*view, id, &*y, words) {
        Ok(b) => b,
        Err(stop) => return Err(stop),
    };
    match held_compared(alloc, comparison, a, b) {
        Ok(holds) => Ok(holds),
        Err(_) => Err(Stop::NoMemory),
    }
}

// Whether an operator of reporter id over two truths holds. Each side is evaluated.
#[inline(always)]
#[cycle(evaluate)]
fn connective_holds<R: Rng + Drop>(
    alloc: Global,
    view: &View<'_, '_>,
    id: BlockId,
    connective: Connective,
    x: &Operand,
    y: &Operand,
    words: &mut Counted<R>,
) -> Result<bool, Stop>
    requires held { view.now.target < length (tables_of view.now.project.now) }
    requires first { IsPluggedIn view.now id x.now }
    requires second { IsPluggedIn view.now id y.now }
    ensures ok { IfOk result (λ b. short.connective view.now connective x.entry.now y.entry.now (seen_words R.stream words.old) ≡ Goes (record { value = b; words = seen_words R.stream words.new })) }
    ensures stop { StopIs result (short.connective view.now connective x.entry.now y.entry.now (seen_words R.stream words.old)) }
{
    let a = match truth(alloc, view, id, x, words) {
        Ok(a) => a,
        Err(stop) => return Err(stop),
    };
    let b = match truth(alloc, view, id, y, words) {
        Ok(b) => b,
        Err(stop) => return Err(stop),
    };
    Ok(connected(connective, a, b))
}

// The texts of the inputs of reporter id joined.
#[inline(always)]
#[cycle(evaluate)]
fn both_texts<R: Rng + Drop>(
    alloc: Global,
    view: &View<'_, '_>,
    id: BlockId,
    x: &Operand,
    y: &Operand,
    words: &mut Counted<R>,
) -> Result<Value, Stop>
    requires held { view.now.target < length (tables_of view.now.project.now) }
    requires first { IsPluggedIn view.now id x.now }
    requires second { IsPluggedIn view.now id y.now }
    ensures ok { IfOk result (λ v. both_texts view.now x.entry.now y.entry.now (seen_words R.stream words.old) ≡ Goes (record { value = v; words = seen_words R.stream words.new })) }
    ensures stop { StopIs result (both_texts view.now x.entry.now y.entry.now (seen_words R.stream words.old)) }
{
    let a = match lent(alloc, &*view, id, &*x, words) {
        Ok(a) => a,
        Err(stop) => return Err(stop),
    };
    let b = match lent(alloc, &*view, id, &*y, words) {
        Ok(b) => b,
        Err(stop) => return Err(stop),
    };
    match held_joined(alloc, a, b) {
        Ok(value) => Ok(value),
        Err(stop) => Err(stop),
    }
}

// The number of an input of reporter id, rounded.
#[inline(always)]
#[cycle(evaluate)]
fn rounded<R: Rng + Drop>(
    alloc: Global,
    view: &View<'_, '_>,
    id: BlockId,
    x: &Operand,
    words: &mut Counted<R>,
) -> Result<Num, Stop>
    requires held { view.now.target < length (tables_of view.now.project.now) }
    requires plugged { IsPluggedIn view.now id x.now }
    ensures ok { IfOk result (λ n. rounded view.now x.entry.now (seen_words R.stream words.old) ≡ Goes (record { value = n; words = seen_words R.stream words.new })) }
    ensures stop { StopIs result (rounded view.now x.entry.now (seen_words R.stream words.old)) }
{
    match number(alloc, view, id, x, words) {
        Ok(a) => Ok(round(a)),
        Err(stop) => Err(stop),
    }
}

// Whether an input of reporter id does not hold.
#[inline(always)]
#[cycle(evaluate)]
fn negated<R: Rng + Drop>(
    alloc: Global,
    view: &View<'_, '_>,
    id: BlockId,
    x: &Operand,
    words: &mut Counted<R>,
) -> Result<bool, Stop>
    requires held { view.now.target < length (tables_of view.now.project.now) }
    requires plugged { IsPluggedIn view.now id x.now }
    ensures ok { IfOk result (λ b. negated view.now x.entry.now (seen_words R.stream words.old) ≡ Goes (record { value = b; words = seen_words R.stream words.new })) }
    ensures stop { StopIs result (negated view.now x.entry.now (seen_words R.stream words.old)) }
{
    match truth(alloc, view, id, x, words) {
        Ok(a) => Ok(!a),
        Err(stop) => Err(stop),
    }
}

// The value of a reporter, by all of its arguments.
#[inline(never)]
#[cycle(evaluate)]
fn by_arguments<R: Rng + Drop>(
    alloc: Global,
    view: &View<'_, '_>,
    id: BlockId,
    words: &mut Counted<R>,
) -> Result<Value, Stop>
    requires held { view.now.target < length (tables_of view.now.project.now) }
    requires member { id < length (blocks_at view.now.target view.now.project.now) }
    requires is { IsReporter (blocks_at view.now.target view.now.project.now) id }
    ensures ok { IfOk result (λ v. reporter_value view.now id (seen_words R.stream words.old) ≡ Goes (record { value = v; words = seen_words R.stream words.new })) }
    ensures stop { StopIs result (reporter_value view.now id (seen_words R.stream words.old)) }
{
    let block = linked(view, id);
    let _ranks = view.project.rank(view.target, id);
    an_expression_is_told();
    let outcome = arguments(alloc, view, id, words);
    match &outcome {
        Ok(args) => match reported(alloc, block.op, args, &sight(view), words) {
            Ok(value) => Ok(value),
            Err(stop) => Err(stop),
        },
        Err(stop) => Err(*stop),
    }
}

// The value of a reporter.
#[inline(never)]
#[cycle(evaluate)]
fn reporter<R: Rng + Drop>(
    alloc: Global,
    view: &View<'_, '_>,
    id: BlockId,
    words: &mut Counted<R>,
) -> Result<Value, Stop>
    requires held { view.now.target < length (tables_of view.now.project.now) }
    requires member { id < length (blocks_at view.now.target view.now.project.now) }
    requires is { IsReporter (blocks_at view.now.target view.now.project.now) id }
    ensures ok { IfOk result (λ v. reporter_value view.now id (seen_words R.stream words.old) ≡ Goes (record { value = v; words = seen_words R.stream words.new })) }
    ensures stop { StopIs result (reporter_value view.now id (seen_words R.stream words.old)) }
{
    match way_at(view, id) {
        Way::Numbers(operator, x, y) => match calculation(alloc, view, id, operator, x, y, words) {
            Ok(number) => Ok(Value::Number(number)),
            Err(stop) => Err(stop),
        },
        Way::Rounded(x) => match rounded(alloc, view, id, x, words) {
            Ok(number) => Ok(Value::Number(number)),
            Err(stop) => Err(stop),
        },
        Way::Values(comparing, x, y) => match comparison_holds(
            alloc, view, id, comparing, x, y, words,
        ) {
            Ok(truth) => Ok(Value::Truth(truth)),
            Err(stop) => Err(stop),
        },
        Way::Truths(connective, x, y) => match connective_holds(
            alloc, view, id, connective, x, y, words,
        ) {
            Ok(truth) => Ok(Value::Truth(truth)),
            Err(stop) => Err(stop),
        },
        Way::Negated(x) => match negated(alloc, view, id, x, words) {
            Ok(truth) => Ok(Value::Truth(truth)),
            Err(stop) => Err(stop),
        },
        Way::Joined(x, y) => match both_texts(alloc, view, id, x, y, words) {
            Ok(value) => Ok(value),
            Err(stop) => Err(stop),
        },
        Way::Arguments => match by_arguments(alloc, view, id, words) {
            Ok(value) => Ok(value),
            Err(stop) => Err(stop),
        },
    }
}

// The number of a reporter.
#[inline(never)]
#[cycle(evaluate)]
fn reporter_number<R: Rng + Drop>(
    alloc: Global,
    view: &View<'_, '_>,
    id: BlockId,
    words: &mut Counted<R>,
) -> Result<Num, Stop>
    requires held { view.now.target < length (tables_of view.now.project.now) }
    requires member { id < length (blocks_at view.now.target view.now.project.now) }
    requires is { IsReporter (blocks_at view.now.target view.now.project.now) id }
    ensures ok { IfOk result (λ n. counts (reporter_value view.now id (seen_words R.stream words.old)) ≡ Goes (record { value = n; words = seen_words R.stream words.new })) }
    ensures stop { StopIs result (counts (reporter_value view.now id (seen_words R.stream words.old))) }
{
    match way_at(view, id) {
        Way::Numbers(operator, x, y) => match calculation(alloc, view, id, operator, x, y, words) {
            Ok(number) => Ok(counted(number)),
            Err(stop) => Err(stop),
        },
        Way::Rounded(x) => match rounded(alloc, view, id, x, words) {
            Ok(number) => Ok(counted(number)),
            Err(stop) => Err(stop),
        },
        _ => match reporter(alloc, view, id, words) {
            Ok(value) => Ok(number_in(value)),
            Err(stop) => Err(stop),
        },
    }
}

// Whether a reporter holds.
#[inline(never)]
#[cycle(evaluate)]
fn reporter_truth<R: Rng + Drop>(
    alloc: Global,
    view: &View<'_, '_>,
    id: BlockId,
    words: &mut Counted<R>,
) -> Result<bool, Stop>
    requires held { view.now.target < length (tables_of view.now.project.now) }
    requires member { id < length (blocks_at view.now.target view.now.project.now) }
    requires is { IsReporter (blocks_at view.now.target view.now.project.now) id }
    ensures ok { IfOk result (λ b. holds (reporter_value view.now id (seen_words R.stream words.old)) ≡ Goes (record { value = b; words = seen_words R.stream words.new })) }
    ensures stop { StopIs result (holds (reporter_value view.now id (seen_words R.stream words.old))) }
{
    match way_at(view, id) {
        Way::Values(comparing, x, y) => match comparison_holds(
            alloc, view, id, comparing, x, y, words,
        ) {
            Ok(truth) => Ok(truth),
            Err(stop) => Err(stop),
        },
        Way::Truths(connective, x, y) => match connective_holds(
            alloc, view, id, connective, x, y, words,
        ) {
            Ok(truth) => Ok(truth),
            Err(stop) => Err(stop),
        },
        Way::Negated(x) => match negated(alloc, view, id, x, words) {
            Ok(truth) => Ok(truth),
            Err(stop) => Err(stop),
        },
        _ => match reporter(alloc, view, id, words) {
            Ok(value) => Ok(truth_in(value)),
            Err(stop) => Err(stop),
        },
    }
}

// An input of block k with its value.
#[inline(always)]
#[cycle(evaluate)]
pub(crate) fn argument<'p, R: Rng + Drop>(
    alloc: Global,
    view: &View<'p, '_>,
    k: BlockId,
    input: &'p (Text, Operand),
    words: &mut Counted<R>,
) -> Result<Arg<'p>, Stop>
    requires held { view.now.target < length (tables_of view.now.project.now) }
    requires plugged { IsPluggedIn view.now k input.now.1 }
    ensures ok { IfOk result (λ a. operand_value view.now input.entry.now.1 (seen_words R.stream words.old) ≡ Goes (record { value = held a.value; words = seen_words R.stream words.new })) }
    ensures name { IfOk result (λ a. a.name.now ≡ input.entry.now.0) }
    ensures stop { StopIs result (operand_value view.now input.entry.now.1 (seen_words R.stream words.old)) }
{
    match operand(alloc, view, k, &input.1, words) {
        Ok(value) => Ok(Arg {
            name: &input.0,
            value,
        }),
        Err(stop) => Err(stop),
    }
}

// The arguments of a block of the target that has many inputs.
#[inline(never)]
#[cycle(evaluate)]
fn many<'p, R: Rng + Drop>(
    alloc: Global,
    view: &View<'p, '_>,
    k: BlockId,
    words: &mut Counted<R>,
) -> Result<Args<'p>, Stop>
    requires held { view.now.target < length (tables_of view.now.project.now) }
    requires member { k < length (blocks_at view.now.target view.now.project.now) }
    ensures ok { IfOk result (λ a. arguments_at view.now k (seen_words R.stream words.old) ≡ Goes (record { value = a; words = seen_words R.stream words.new })) }
    ensures stop { StopIs result (arguments_at view.now k (seen_words R.stream words.old)) }
{
    let block = linked(view, k);
    let mut args = Vec::new(alloc);
    for input in block.inputs.as_slice() {
        match argument(alloc, view, k, input, words) {
            Ok(arg) => match args.push(arg) {
                Ok(()) => {}
                Err(_) => return Err(Stop::NoMemory),
            },
            Err(stop) => return Err(stop),
        }
    }
    Ok(Args::many(block.fields.as_slice(), args))
}

// The arguments of a block of the target. Up to three inputs take no memory.
#[inline(always)]
#[cycle(evaluate)]
fn arguments<'p, R: Rng + Drop>(
    alloc: Global,
    view: &View<'p, '_>,
    k: BlockId,
    words: &mut Counted<R>,
) -> Result<Args<'p>, Stop>
    requires held { view.now.target < length (tables_of view.now.project.now) }
    requires member { k < length (blocks_at view.now.target view.now.project.now) }
    ensures ok { IfOk result (λ a. arguments_at view.now k (seen_words R.stream words.old) ≡ Goes (record { value = a; words = seen_words R.stream words.new })) }
    ensures stop { StopIs result (arguments_at view.now k (seen_words R.stream words.old)) }
{
    let block = linked(view, k);
    let fields = block.fields.as_slice();
    match block.inputs.as_slice() {
        [] => Ok(Args::none(fields)),
        [x] => {
            let a = match argument(alloc, view, k, x, words) {
                Ok(a) => a,
                Err(stop) => return Err(stop),
            };
            Ok(Args::one(fields, a))
        }
        [x, y] => {
            let a = match argument(alloc, view, k, x, words) {
                Ok(a) => a,
                Err(stop) => return Err(stop),
            };
            let b = match argument(alloc, view, k, y, words) {
                Ok(b) => b,
                Err(stop) => return Err(stop),
            };
            Ok(Args::two(fields, a, b))
        }
        [x, y, z] => {
            let a = match argument(alloc, view, k, x, words) {
                Ok(a) => a,
                Err(stop) => return Err(stop),
            };
            let b = match argument(alloc, view, k, y, words) {
                Ok(b) => b,
                Err(stop) => return Err(stop),
            };
            let c = match argument(alloc, view, k, z, words) {
                Ok(c) => c,
                Err(stop) => return Err(stop),
            };
            Ok(Args::three(fields, a, b, c))
        }
        [_, _, _, _, ..] => match many(alloc, view, k, words) {
            Ok(args) => Ok(args),
            Err(stop) => Err(stop),
        },
    }
}

/// The arguments of a block: the values of its inputs, in document order and depth first, and its fields. Branches and the
/// custom block are not evaluated; an input that is absent has no value. `Text` exactly where a join or the contents of a
/// list are too long for a value, `Counter` exactly where a random word is needed and none is left, each where it is met
/// first; the only other error is want of memory.
#[inline(always)]
pub fn inputs<'p, R: Rng + Drop>(
    alloc: Global,
    view: &View<'p, '_>,
    block: BlockId,
    words: &mut Counted<R>,
) -> Result<Args<'p>, Stop>
    requires held { view.now.target < length (tables_of view.now.project.now) }
    requires member { block < length (blocks_at view.now.target view.now.project.now) }
    ensures ok { IfOk result (λ a. (s : Statement) → (rest : Script) → script (sheet_of view.now) (Some block) ≡ Then s rest → evaluated (seen view.now) s (seen_words R.stream words.old) ≡ Goes (record { value = a; words = seen_words R.stream words.new })) }
    ensures stop { (s : Statement) → (rest : Script) → script (sheet_of view.now) (Some block) ≡ Then s rest → StopIs result (evaluated (seen view.now) s (seen_words R.stream words.old)) }
    ensures kind { IfErr result IsOfValuesOrMemory }
{
    let _cached = linked(view, block);
    a_script_is_told();
    arguments(alloc, view, block, words)
}
