//! Loops and choices. They change nothing but what is kept, and take no memory.

ghost use Rattle.std.specs.Prelude.{◌≡◌, codes, false, not, true, if◌then◌else◌};
ghost use Rattle.opcode_table.specs.declared.kinds.Kind.TheVariants.{Choice, Counted, Endless};
ghost use Rattle.scratch_number.specs.Arithmetic.{round as rounded};
ghost use Rattle.machine_spec.specs.ControlRows.{branch_if, count_of, repeat_row, turns_left};
ghost use Rattle.machine_spec.specs.declared.threads.Control.TheVariants.{Branch};
ghost use Rattle.machine_spec.specs.declared.threads.Context.TheVariants.{Fresh};
ghost use Rattle.machine_spec.specs.View.{number_at, truth_at};
ghost use Rattle.control_blocks.specs.Same.{IsOnly, KeepsWell};

use block_arguments::{number, truth};
use machine_spec::{Context, Control, Count};
use scratch_number::{Num, round};
use scratch_values::Args;

// The turns of a repeat with this number: the whole number at or below it; below 0 where it is.
fn count_of(n: Num) -> Count
    ensures { result ≡ count_of n }
{
    match n {
        Num::Fixed(raw) => Count::Whole(raw.get().div_euclid(1_000_000)),
        Num::Inf => Count::Infinite,
        Num::NegInf => Count::Whole(-1),
        Num::Nan => Count::Whole(0),
    }
}

// The turns that are left: those that are kept, or else the rounded number of the input.
fn turns_left(args: &Args<'_>, context: &Context) -> Count
    ensures { result ≡ turns_left context.now (number_at (codes "TIMES") args.entry.now) }
{
    match context {
        Context::Repeat(left) => *left,
        _ => count_of(round(number(args, "TIMES"))),
    }
}

// `repeat TIMES`: one turn fewer is left, and the branch is entered where that is not below 0.
pub(crate) fn repeat(args: &Args<'_>, context: &mut Context) -> Control
    ensures row { IsOnly (repeat_row (turns_left context.old (number_at (codes "TIMES") args.entry.now))) context.new result }
    ensures keeps { KeepsWell Counted context.new result }
{
    match turns_left(args, context) {
        Count::Infinite => {
            *context = Context::Repeat(Count::Infinite);
            entered(true, true)
        }
        Count::Whole(left) => {
            if left <= 0 {
                *context = Context::Fresh;
                return Control::Next;
            }
            *context = Context::Repeat(Count::Whole(left - 1));
            entered(true, true)
        }
    }
}

// The first branch is entered, or not.
#[inline]
fn entered(again: bool, is_loop: bool) -> Control
    ensures { result ≡ branch_if again is_loop }
{
    if again {
        Control::Branch { number: 1, is_loop }
    } else {
        Control::Next
    }
}

// `forever`: its branch is entered.
#[inline]
pub(crate) fn forever(context: &mut Context) -> Control
    ensures control { result ≡ Branch 1 true }
    ensures context { context.new ≡ Fresh }
{
    *context = Context::Fresh;
    entered(true, true)
}

// `repeat until CONDITION`: its branch is entered where the condition does not hold.
#[inline]
pub(crate) fn repeat_until(args: &Args<'_>, context: &mut Context) -> Control
    ensures control { result ≡ branch_if (not (truth_at (codes "CONDITION") args.entry.now)) true }
    ensures context { context.new ≡ Fresh }
    ensures keeps { KeepsWell Endless context.new result }
{
    *context = Context::Fresh;
    entered(!truth(args, "CONDITION"), true)
}

// `if CONDITION`: its branch is entered where the condition holds.
#[inline]
pub(crate) fn choose(args: &Args<'_>, context: &mut Context) -> Control
    ensures control { result ≡ branch_if (truth_at (codes "CONDITION") args.entry.now) false }
    ensures context { context.new ≡ Fresh }
    ensures keeps { KeepsWell Choice context.new result }
{
    *context = Context::Fresh;
    entered(truth(args, "CONDITION"), false)
}

// `if CONDITION else`: the first branch is entered where the condition holds, else the second.
#[inline]
pub(crate) fn choose_either(args: &Args<'_>, context: &mut Context) -> Control
    ensures control { result ≡ Branch (if truth_at (codes "CONDITION") args.entry.now then 1 else 2) false }
    ensures context { context.new ≡ Fresh }
{
    *context = Context::Fresh;
    let number = if truth(args, "CONDITION") { 1 } else { 2 };
    Control::Branch {
        number,
        is_loop: false,
    }
}
