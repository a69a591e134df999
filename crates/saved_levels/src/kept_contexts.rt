//! What blocks can keep.

ghost use Rattle.std.specs.Prelude.{◌≡◌, ℕ};
ghost use Rattle.project_check.specs.Loaded.{program_of};
ghost use Rattle.machine_spec.specs.declared.threads.Context.TheVariants.{Fresh, Repeat, Wait, Glide, Started, Asked, Spoken};
ghost use Rattle.machine_spec.specs.Keeping.{is_left};
ghost use Rattle.saved_parts.specs.Telling.{kept_of};
ghost use Rattle.saved_spec.specs.ThreadRules.{is_above_zero, is_choice, is_from_zero, is_some_thread, loops_with, may_keep};
ghost use Rattle.thread_frames.specs.Fit.{kind_of};
ghost use Rattle.saved_levels.specs.Making.{called_at, keeps_first, keeps_under};

use crate::calls::kind_of;
use crate::parameter_names::have_names;
use machine_spec::{Count, GlideState, TargetId, WaitState};
use opcode_table::Kind;
use project_check::Project;
use project_spec::Block;
use saved_parts::ToldKept;
use scratch_number::Num;

fn is_from_zero(number: Num) -> bool
    ensures { result ≡ is_from_zero number }
{
    match number {
        Num::Fixed(millionths) => millionths.get() >= 0,
        Num::Inf => true,
        Num::NegInf => false,
        Num::Nan => false,
    }
}

fn is_above_zero(number: Num) -> bool
    ensures { result ≡ is_above_zero number }
{
    match number {
        Num::Fixed(millionths) => millionths.get() > 0,
        Num::Inf => true,
        Num::NegInf => false,
        Num::Nan => false,
    }
}

fn is_left(turns: Count) -> bool
    ensures { result ≡ is_left turns }
{
    match turns {
        Count::Whole(turns) => turns >= 0,
        Count::Infinite => true,
    }
}

// Whether a block of the kind is a choice.
fn chooses(kind: Kind) -> bool
    ensures { result ≡ is_choice kind }
{
    matches!(kind, Kind::Choice)
}

// Whether a block of the kind loops with nothing kept.
fn loops(kind: Kind) -> bool
    ensures under { result ≡ loops_with kind Fresh }
    ensures first { (clock : ℕ) → result ≡ may_keep clock kind Fresh }
{
    matches!(kind, Kind::Endless)
}

// Whether a block of the kind loops with these turns left.
fn repeats(kind: Kind, turns: Count) -> bool
    ensures under { result ≡ loops_with kind (Repeat turns) }
    ensures first { (clock : ℕ) → result ≡ may_keep clock kind (Repeat turns) }
{
    match kind {
        Kind::Counted => is_left(turns),
        _ => false,
    }
}

fn waits(clock: u64, kind: Kind, state: &WaitState) -> bool
    ensures { result ≡ may_keep clock kind (Wait state.now) }
{
    match kind {
        Kind::Waits => state.start <= clock && is_from_zero(state.duration),
        _ => false,
    }
}

fn glides(clock: u64, kind: Kind, state: &GlideState) -> bool
    ensures { result ≡ may_keep clock kind (Glide state.now) }
{
    match kind {
        Kind::Glides => state.start <= clock && is_above_zero(state.duration),
        _ => false,
    }
}

fn starts(kind: Kind, serials: &[u64]) -> bool
    ensures { (clock : ℕ) → result ≡ may_keep clock kind (Started serials.now) }
{
    match kind {
        Kind::Starts => !serials.is_empty(),
        _ => false,
    }
}

fn asks(kind: Kind) -> bool
    ensures { (clock : ℕ) → result ≡ may_keep clock kind Asked }
{
    matches!(kind, Kind::Asks)
}

fn speaks(kind: Kind) -> bool
    ensures { (clock : ℕ) → result ≡ may_keep clock kind Spoken }
{
    matches!(kind, Kind::Speaks)
}

// Whether a block of a target can keep this under another level.
pub(crate) fn keeps_under(
    project: &Project,
    target: TargetId,
    block: &Block,
    kept: &ToldKept,
) -> bool
    ensures { result ≡ keeps_under (kind_of block.now) (called_at (program_of project.now) target block.now) (kept_of kept.now) }
{
    let kind = kind_of(block);
    match kept {
        ToldKept::Nothing => chooses(kind),
        ToldKept::Loop => loops(kind),
        ToldKept::Repeat(turns) => repeats(kind, *turns),
        ToldKept::Call(params) => have_names(project, target, block, params.as_slice()),
        ToldKept::Wait(_) => false,
        ToldKept::Glide(_) => false,
        ToldKept::Started(_) => false,
        ToldKept::Asked => false,
        ToldKept::Spoken => false,
    }
}

// Whether a block of a target can keep this at the top.
pub(crate) fn keeps_first(
    project: &Project,
    target: TargetId,
    clock: u64,
    block: &Block,
    kept: &ToldKept,
) -> bool
    ensures { result ≡ keeps_first clock (kind_of block.now) (called_at (program_of project.now) target block.now) (kept_of kept.now) }
{
    let kind = kind_of(block);
    match kept {
        ToldKept::Nothing => true,
        ToldKept::Loop => loops(kind),
        ToldKept::Repeat(turns) => repeats(kind, *turns),
        ToldKept::Wait(state) => waits(clock, kind, state),
        ToldKept::Glide(state) => glides(clock, kind, state),
        ToldKept::Started(serials) => starts(kind, serials.as_slice()),
        ToldKept::Asked => asks(kind),
        ToldKept::Spoken => speaks(kind),
        ToldKept::Call(params) => have_names(project, target, block, params.as_slice()),
    }
}
