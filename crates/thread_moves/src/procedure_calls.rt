//! Procedures that a thread calls.

ghost use Rattle.std.specs.Prelude.{◌≡◌, ◌<◌, ◌&&◌, true, false, Some, IfOk, bytes_eq, slice_get};
ghost use Rattle.opcode_table.specs.Kinds.{kind};
ghost use Rattle.cached_blocks.specs.declared.block.CachedBlock.{CachedBlock};
ghost use Rattle.cached_blocks.specs.Cached.{cached_blocks};
ghost use Rattle.project_spec.specs.Trees.{call_code};
ghost use Rattle.machine_spec.specs.Called.{called};
ghost use Rattle.machine_spec.specs.Keeping.{is_called, is_calls};
ghost use Rattle.machine_spec.specs.Outcome.{most_levels, with_room};
ghost use Rattle.machine_spec.specs.Pending as machine;
ghost use Rattle.machine_spec.specs.Starting.{open_levels};
ghost use Rattle.machine_spec.specs.Step.{entered_some};
ghost use Rattle.project_check.specs.Loaded.{program_of, sheet_at};
ghost use Rattle.thread_frames.specs.Fit.{IsUnder, AreStacked};
ghost use Rattle.thread_frames.specs.Reading.{pending};
ghost use Rattle.thread_frames.specs.Stops.{PushStopIs};
ghost use Rattle.thread_frames.specs.Threads.{frames};
ghost use Rattle.thread_moves.specs.Moves.{IsAtBlock, MovesOn, levels_at};
ghost use Rattle.thread_moves.specs.Standing.{is_ended};

use crate::level_moves::{is_warp, pass, report_of};
use crate::links::linked;
use machine_spec::{BlockId, Boxed, Context, MOST_LEVELS, Report, TargetId, Which};
use project_check::Project;
use scratch_values::Params;
use thread_frames::{Level, PushStop, Threads};

// Whether a block that keeps this has called.
fn is_open_call(context: &Context) -> bool
    ensures { result ≡ is_called context.now }
{
    matches!(context, Context::Called)
}

// Whether a level under another has called a procedure of the code.
fn has_called(project: &Project, target: TargetId, level: &Level, code: &str) -> bool
    requires { IsUnder (sheet_at target project.now) level.now }
    ensures { (u : IsUnder (sheet_at target project.now) level.now) → result ≡ (is_called level.now.context && bytes_eq (call_code u.block.mutation) code.now) }
{
    if !is_open_call(&level.context) {
        return false;
    }
    match level.block {
        Some(id) => linked(project, target, id).code.as_str() == code,
        None => unreachable!(),
    }
}

// Whether one of the six levels of a thread under the top one has called a procedure of the code.
fn is_recursive(
    project: &Project,
    target: TargetId,
    threads: &Threads,
    which: Which,
    code: &str,
) -> bool
    requires { AreStacked (sheet_at target project.now) (levels_at which threads.now) }
    ensures { result ≡ machine.is_recursive code.now 6 (pending (sheet_at target project.now) (levels_at which threads.now)) }
{
    let mut rest = threads.levels_at(which).under();
    for looked_at in 0..6u32 {
        match rest.top() {
            Some(level) => {
                if has_called(project, target, level, code) {
                    return true;
                }
            }
            None => return false,
        }
        rest = rest.under();
    }
    false
}

// What a call reports: it yields where warp time has passed at a warp flag, or where it is recursive and not warp.
fn call_report(in_warp: bool, late: bool, is_warp: bool, recursive: bool) -> Report
    ensures report { result ≡ machine.call_report in_warp late is_warp recursive }
    ensures goes_on { is_ended result ≡ false }
{
    let yields = if in_warp && late {
        true
    } else {
        !is_warp && recursive
    };
    if yields { Report::Yielded } else { Report::Go }
}

/// Enters the procedure that the block of the top level of a thread calls, with its parameters. A call of no procedure goes on
/// behind the block. Full exactly where 65,536 levels are open; the only other error is want of
/// memory. After an error nothing is told of the thread.
pub fn call(
    project: &Project,
    threads: &mut Threads,
    which: Which,
    target: TargetId,
    id: BlockId,
    params: Boxed<Params>,
    late: bool,
) -> Result<Report, PushStop>
    requires at { IsAtBlock project.now which threads.old target id }
    requires calls { (b : CachedBlock) → slice_get (cached_blocks (sheet_at target project.now)) id ≡ Some b → is_calls (kind b.op) ≡ true }
    ensures room { IfOk result (λ r. open_levels frames threads.old < most_levels) }
    ensures at { IfOk result (MovesOn project.now which target id (λ s rest warp. entered_some (called (program_of project.now) s) late warp s rest params) threads.old threads.new) }
    ensures stop { PushStopIs result (with_room (open_levels frames threads.old) threads.old) }
{
    if threads.levels() as usize >= MOST_LEVELS {
        return Err(PushStop::Full);
    }
    let block = linked(project, target, id);
    match project.callee(target, block.code.as_str()) {
        None => {
            let report = pass(project, target, threads, which, id);
            Ok(report_of(threads, which, report))
        }
        Some(callee) => {
            let warp = is_warp(threads, which);
            let code = callee.prototype.code.as_str();
            let recursive = is_recursive(project, target, threads, which, code);
            threads.set_context(which, Context::Called);
            threads.set_params(which, params);
            let opened = Some(callee.definition);
            match threads.push(which, opened, warp || callee.prototype.warp) {
                Ok(()) => {}
                Err(stop) => return Err(stop),
            }
            let report = call_report(warp, late, callee.prototype.warp, recursive);
            Ok(report_of(threads, which, report))
        }
    }
}
