//! The levels of a thread.

ghost use Rattle.std.specs.Prelude.{◌≡◌, ◌<◌, ◌+◌, ◌^◌, ◌&&◌, [], ◌∷◌, Some, None, true, false, if◌then◌else◌, is_some, length, map, reverse, slice_get, IfOk};
ghost use Rattle.std.specs.List.{list_all};
ghost use Rattle.std.specs.Option.{option_copied, option_map};
ghost use Rattle.project_check.specs.Loaded.{blocks_at, sheet_at, tables_of, basis_of};
ghost use Rattle.project_spec.specs.Trees.{script, target_of_link};
ghost use Rattle.thread_frames.specs.Levels.{new_level};
ghost use Rattle.saved_parts.specs.Telling.{kept_of, level_of, thread_of};
ghost use Rattle.project_spec.specs.Basis.{script_under};
ghost use Rattle.saved_spec.specs.Rules.{is_short, target_of, values_kept};
ghost use Rattle.saved_spec.specs.RunShapes.{Told};
ghost use Rattle.saved_levels.specs.Making.{is_short_level, keeps_nothing};
ghost use Rattle.saved_levels.specs.Read.{IsRead, top_first};
ghost use Rattle.saved_levels.specs.Standing.{Places, Wholes, whole_of};
ghost use Rattle.saved_levels.specs.Waits.{TellsOf};

use crate::floors::{Site, floor_on};
use crate::level_parts::level;
use crate::stacks::{all_stacked, topped};
use crate::waiting_threads::Waiting;
use block_table::is_hat;
use cached_blocks::linked;
use machine_spec::{Status, TargetId};
use project_check::Project;
use project_spec::Block;
use saved_parts::{ToldKept, ToldLevel, ToldThread};
use std::alloc::{AllocError, Global};
use thread_frames::Level;

// The block of a number in a target.
fn block(project: &Project, target: TargetId, number: u64) -> Option<&Block>
    requires { target < length (tables_of project.now) }
    ensures block { option_copied result ≡ slice_get (blocks_at target project.now) number }
    ensures small { is_some result ≡ true → number < 2 ^ 32 }
{
    let table = project.blocks(target);
    let _few = table.len();
    table.blocks().get(number as usize)
}

// The hat of a number in a target.
fn hat(project: &Project, target: TargetId, number: u64) -> Option<&Block>
    ensures under { option_map (λ b. script (sheet_at target project.now) (target_of_link b.now.next)) result ≡ script_under target number (basis_of project.now) }
    ensures target { is_some result ≡ true → target < length (tables_of project.now) }
    ensures small { is_some result ≡ true → number < 2 ^ 32 }
{
    if target.0 >= project.target_count() {
        return None;
    }
    match block(project, target, number) {
        Some(block) => { if is_hat(block) { Some(block) } else { None } }
        None => None,
    }
}

// Whether nothing is kept.
fn is_nothing(kept: &ToldKept) -> bool
    ensures { result ≡ keeps_nothing (kept_of kept.now) }
{
    matches!(kept, ToldKept::Nothing)
}

// The one level of a thread that has nothing left to do, which is its only one and keeps nothing. The only error is want of
// memory.
fn with_nothing(
    alloc: Global,
    kept: &ToldKept,
    is_only: bool,
) -> Result<Option<Vec<Level>>, AllocError>
    ensures { IfOk result (λ o. top_first o ≡ (if keeps_nothing (kept_of kept.now) && is_only then Some (new_level None false ∷ []) else None)) }
{
    if !is_nothing(kept) {
        return Ok(None);
    }
    if !is_only {
        return Ok(None);
    }
    let mut levels = Vec::new(alloc);
    levels.push(level(alloc, None, false, ToldKept::Nothing)?)?;
    Ok(Some(levels))
}

// Levels whose top one has a block, over those that stand under it. The only error is want of memory.
fn with_block(
    alloc: Global,
    site: &Site<'_>,
    clock: u64,
    wanted: u64,
    kept: ToldKept,
    under: Vec<ToldLevel>,
) -> Result<Option<Vec<Level>>, AllocError>
    requires target { site.now.target < length (tables_of site.now.project.now) }
    requires short { list_all is_short (values_kept (kept_of kept)) ≡ true }
    requires all_short { list_all is_short_level (map level_of under.items) ≡ true }
    ensures { IfOk result (λ o. Wholes site.now (length under.items + 1) (whole_of site.now clock (kept_of kept) wanted (map level_of under.items)) (top_first o)) }
{
    let mut made = match all_stacked(alloc, site, under) {
        Ok(Some(made)) => made,
        Ok(None) => return Ok(None),
        Err(error) => return Err(error),
    };
    let floor = floor_on(site, made.as_slice());
    match topped(alloc, site, &floor, clock, wanted, kept) {
        Ok(Some(level)) => {
            made.push(level)?;
            Ok(Some(made))
        }
        Ok(None) => Ok(None),
        Err(error) => Err(error),
    }
}

// The levels of a thread of a target, of which the bottom one is told first. The only error is want of memory.
fn placed(
    alloc: Global,
    site: &Site<'_>,
    waiting: &Waiting,
    serial: u64,
    status: Status,
    told: Vec<ToldLevel>,
) -> Result<Option<Vec<Level>>, AllocError>
    requires target { site.now.target < length (tables_of site.now.project.now) }
    requires short { list_all is_short_level (map level_of told.items) ≡ true }
    ensures { IfOk result (λ o. Places site.now waiting.now serial status (reverse (map level_of told.items)) (top_first o)) }
{
    let mut told = told;
    let ToldLevel { block, kept } = match told.pop() {
        Some(top) => top,
        None => return Ok(None),
    };
    if !waiting.fits(serial, status, &kept) {
        return Ok(None);
    }
    match block {
        Some(wanted) => with_block(alloc, site, waiting.clock, wanted, kept, told),
        None => with_nothing(alloc, &kept, told.as_slice().is_empty()),
    }
}

/// The levels, from the bottom, of a thread of a target that a saved run tells, given whom its questions and timers name; None exactly where
/// they stand for no pending list that keeps the rules. Where there are some, the number of the hat is that of a block. The
/// values of parameters are short, as a rule of saved runs has it. The only error is want of memory.
pub fn levels_of(
    alloc: Global,
    project: &Project,
    waiting: &Waiting,
    thread: ToldThread,
    target: TargetId,
) -> Result<Option<Vec<Level>>, AllocError>
    requires { list_all (λ l. list_all is_short (values_kept l.kept)) (thread_of thread).levels ≡ true }
    ensures levels { IfOk result (λ o. (t : Told) → TellsOf waiting.now t.run.devices → target_of t (thread_of thread) ≡ target → IsRead project.now t (thread_of thread) (top_first o)) }
    ensures hat { IfOk result (λ o. is_some o ≡ true → thread.hat < 2 ^ 32) }
{
    let ToldThread {
        serial,
        of: _,
        hat: number,
        status,
        levels,
    } = thread;
    let first = match hat(project, target, number) {
        Some(block) => linked(&block.next),
        None => return Ok(None),
    };
    let site = Site {
        project,
        target,
        first,
    };
    placed(alloc, &site, waiting, serial, status, levels.into_vec())
}
