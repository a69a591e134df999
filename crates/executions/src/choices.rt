//! Blocks that only choose where their thread goes.

ghost use Rattle.std.specs.Prelude.{◌≡◌, List, [], ◌∷◌, codes};
ghost use Rattle.std.specs.Option.{option_map};
ghost use Rattle.scratch_values.specs.Args.{arguments};
ghost use Rattle.scratch_values.specs.Held.{pair_of};
ghost use Rattle.scratch_values.specs.declared.names.ResolvedField.{ResolvedField as Resolved};
ghost use Rattle.machine_spec.specs.ControlRows.{branch_if};
ghost use Rattle.machine_spec.specs.View.{truth_at};
ghost use Rattle.executions.specs.Choices.{chosen, control_of};

use block_arguments::truth;
use opcode_table::Opcode;
use scratch_values::{Arg, Args, to_truth};

// Where a choice leads: into a branch, or past the block.
#[derive(Clone, Copy, Debug)]
pub(crate) enum Choice {
    Enter { number: u8, is_loop: bool },
    Pass,
}

// The first branch where a condition holds, else past the block.
#[inline]
fn entered_if(holds: bool, is_loop: bool) -> Choice
    ensures { control_of result ≡ branch_if holds is_loop }
{
    if holds {
        Choice::Enter { number: 1, is_loop }
    } else {
        Choice::Pass
    }
}

// The condition of a block.
#[inline]
fn condition(args: &Args<'_>) -> bool
    ensures { result ≡ truth_at (codes "CONDITION") args.entry.now }
{
    truth(args, "CONDITION")
}

// Where a block leads that keeps nothing and changes nothing; None of any other block.
#[inline(always)]
pub(crate) fn way_chosen(op: Opcode, args: &Args<'_>) -> Option<Choice>
    ensures { option_map control_of result ≡ chosen op args.entry.now }
{
    match op {
        Opcode::ControlForever => Some(Choice::Enter {
            number: 1,
            is_loop: true,
        }),
        Opcode::ControlRepeatUntil => Some(entered_if(!condition(args), true)),
        Opcode::ControlIf => Some(entered_if(condition(args), false)),
        Opcode::ControlIfElse => Some(Choice::Enter {
            number: if condition(args) { 1 } else { 2 },
            is_loop: false,
        }),
        _ => None,
    }
}

// The condition of a block that has one input.
#[inline]
fn only_condition(first: &Arg<'_>) -> bool
    ensures { result ≡ truth_at (codes "CONDITION") (arguments (pair_of first.now ∷ []) []) }
{
    first.name.as_str() == "CONDITION" && to_truth(first.value.get())
}

// Where a block with one input leads that keeps nothing and changes nothing; None of any other block.
#[inline(always)]
pub(crate) fn way_chosen_by(op: Opcode, first: &Arg<'_>) -> Option<Choice>
    ensures { (fields : List Resolved) → option_map control_of result ≡ chosen op (arguments (pair_of first.now ∷ []) fields) }
{
    match op {
        Opcode::ControlForever => Some(Choice::Enter {
            number: 1,
            is_loop: true,
        }),
        Opcode::ControlRepeatUntil => Some(entered_if(!only_condition(first), true)),
        Opcode::ControlIf => Some(entered_if(only_condition(first), false)),
        Opcode::ControlIfElse => Some(Choice::Enter {
            number: if only_condition(first) { 1 } else { 2 },
            is_loop: false,
        }),
        _ => None,
    }
}
