//! Short ways to the values of reporters, with no arguments in between.

ghost use Rattle.std.specs.Prelude.{◌≡◌, IfOk};
ghost use Rattle.evaluate.specs.Ways.{HasOrder, IsWay, IsWayOfOne, IsWayOfTwo, calculated, compared, connected};

use cached_blocks::CachedBlock;
use opcode_table::Opcode;
use operators::is_equal;
use project_spec::Operand;
use scratch_number::{Num, add, div, modulo, mul, sub};
use scratch_values::{Value, compare};
use std::alloc::{AllocError, Global};
use std::cmp::Ordering;

/// An operator over two numbers.
#[derive(Clone, Copy)]
pub(crate) enum Arithmetic {
    Add,
    Subtract,
    Multiply,
    Divide,
    Mod,
}

/// A comparison of two values.
#[derive(Clone, Copy)]
pub(crate) enum Comparison {
    Greater,
    Less,
    Equal,
}

/// An operator over two truths.
#[derive(Clone, Copy)]
pub(crate) enum Connective {
    And,
    Or,
}

/// How the value of a reporter is found: by an operator over what its inputs hold, in document order, or by all of its
/// arguments.
#[derive(Clone, Copy)]
pub(crate) enum Way<'p> {
    Numbers(Arithmetic, &'p Operand, &'p Operand),
    Rounded(&'p Operand),
    Values(Comparison, &'p Operand, &'p Operand),
    Truths(Connective, &'p Operand, &'p Operand),
    Negated(&'p Operand),
    Joined(&'p Operand, &'p Operand),
    Arguments,
}

// The way of a reporter with one input.
#[inline(always)]
fn way_of_one(op: Opcode, x: &Operand) -> Way<'_>
    ensures { IsWayOfOne op x.now result }
{
    match op {
        Opcode::OperatorNot => Way::Negated(x),
        Opcode::OperatorRound => Way::Rounded(x),
        _ => Way::Arguments,
    }
}

// The way of a reporter with two inputs.
#[inline(always)]
fn way_of_two<'p>(op: Opcode, x: &'p Operand, y: &'p Operand) -> Way<'p>
    ensures { IsWayOfTwo op x.now y.now result }
{
    match op {
        Opcode::OperatorAdd => Way::Numbers(Arithmetic::Add, x, y),
        Opcode::OperatorSubtract => Way::Numbers(Arithmetic::Subtract, x, y),
        Opcode::OperatorMultiply => Way::Numbers(Arithmetic::Multiply, x, y),
        Opcode::OperatorDivide => Way::Numbers(Arithmetic::Divide, x, y),
        Opcode::OperatorMod => Way::Numbers(Arithmetic::Mod, x, y),
        Opcode::OperatorGt => Way::Values(Comparison::Greater, x, y),
        Opcode::OperatorLt => Way::Values(Comparison::Less, x, y),
        Opcode::OperatorEquals => Way::Values(Comparison::Equal, x, y),
        Opcode::OperatorAnd => Way::Truths(Connective::And, x, y),
        Opcode::OperatorOr => Way::Truths(Connective::Or, x, y),
        Opcode::OperatorJoin => Way::Joined(x, y),
        _ => Way::Arguments,
    }
}

/// The way of a reporter. It is a short one only where the inputs are just those of the opcode, in the table's order.
#[inline(always)]
pub(crate) fn way_of(block: &CachedBlock) -> Way<'_>
    requires { HasOrder block.now }
    ensures { IsWay block.now result }
{
    if !block.in_order {
        return Way::Arguments;
    }
    match block.inputs.as_slice() {
        [x, y] => way_of_two(block.op, &x.1, &y.1),
        [x] => way_of_one(block.op, &x.1),
        [] => Way::Arguments,
        [_, _, _, ..] => Way::Arguments,
    }
}

/// The number of an operator over two numbers.
#[inline(always)]
pub(crate) fn calculated(operator: Arithmetic, a: Num, b: Num) -> Num
    ensures { result ≡ calculated operator a b }
{
    match operator {
        Arithmetic::Add => add(a, b),
        Arithmetic::Subtract => sub(a, b),
        Arithmetic::Multiply => mul(a, b),
        Arithmetic::Divide => div(a, b),
        Arithmetic::Mod => modulo(a, b),
    }
}

/// Whether a comparison holds. The only error is want of memory.
#[inline(always)]
pub(crate) fn compared(
    alloc: Global,
    comparison: Comparison,
    a: &Value,
    b: &Value,
) -> Result<bool, AllocError>
    ensures { IfOk result (λ holds. holds ≡ compared comparison a.now b.now) }
{
    match comparison {
        Comparison::Greater => {
            let order = compare(alloc, a, b)?;
            Ok(matches!(order, Ordering::Greater))
        }
        Comparison::Less => {
            let order = compare(alloc, a, b)?;
            Ok(matches!(order, Ordering::Less))
        }
        Comparison::Equal => Ok(is_equal(a, b)),
    }
}

/// Whether an operator over two truths holds.
#[inline(always)]
pub(crate) fn connected(connective: Connective, a: bool, b: bool) -> bool
    ensures { result ≡ connected connective a b }
{
    match connective {
        Connective::And => a && b,
        Connective::Or => a || b,
    }
}
