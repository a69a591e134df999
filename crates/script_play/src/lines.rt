//! One line of a script, played.

ghost use Rattle.std.specs.Prelude.{◌≡◌, ◌≤◌, false, IfNone, IfSome, OnOk};
ghost use Rattle.call_outcomes.specs.Seen.{sink_now};
ghost use Rattle.sequencer.specs.Frames.{is_frame};
ghost use Rattle.input_script.specs.Reader.{IsForward};
ghost use Rattle.machine_spec.specs.Line.{after};
ghost use Rattle.machine_spec.specs.declared.lines.Line.{Line};
ghost use Rattle.machine_spec.specs.declared.lines.Line.TheVariants as line_of;
ghost use Rattle.machine_spec.specs.Outcome.{Outcome, Goes, StopIs};
ghost use Rattle.machine_spec.specs.Program.{Program};
ghost use Rattle.machine_spec.specs.ScriptText.{clock_after, Good};
ghost use Rattle.machine_spec.specs.Tasks.{Task};
ghost use Rattle.machine_spec.specs.World.{World};
ghost use Rattle.project_check.specs.Loaded.{program_of};
ghost use Rattle.sequencer.specs.Runs.{world_of, IsRunOf};
ghost use Rattle.stage_frame.specs.Writers.{records_of};
ghost use Rattle.script_play.specs.Lines.{PlaysLine, Stopped, Told};

use crate::limits::{limit_of, tell_limit, write};
use crate::stops::PlayStop;
use machine_spec::{Budget, Line};
use project_check::Project;
use script_words::{Rng, Stop};
use sequencer::Run;
use stage_frame::FrameWriter;
use std::alloc::Global;
use sv_channels::Sink;

// Ends a play that stops: the line of the limit is written.
fn stopped<K: Sink>(alloc: Global, stop: Stop, out: &mut K) -> PlayStop
    ensures { (p : Program) (l : Line) (o : Outcome (World Task)) → StopIs (Stopped stop) o
        → PlaysLine p l o (sink_now K.written K.faults K.calls out.old) (sink_now K.written K.faults K.calls out.new) (Told result) }
{
    match limit_of(stop) {
        Some(limit) => tell_limit(alloc, limit, out),
        None => PlayStop::NoMemory,
    }
}

// Makes a frame, and writes its text.
fn play_frame<R: Rng + Drop, K: Sink>(
    alloc: Global,
    project: &Project,
    run: &mut Run<R>,
    writer: &FrameWriter<'_>,
    budget: Budget,
    out: &mut K,
) -> Result<(), PlayStop>
    requires writer { records_of writer.now ≡ (program_of project.now).records }
    requires fits { IsRunOf project.now run.old }
    requires clock { run.old.state.devices.clock ≤ budget.clock }
    ensures fits { OnOk result (IsRunOf project.now run.new) }
    ensures world { OnOk result (after (program_of project.now) (line_of.Frame budget) (world_of R.stream project.now run.old) ≡ Goes (world_of R.stream project.now run.new)) }
    ensures clock { OnOk result (run.new.state.devices.clock ≡ budget.clock) }
    ensures plays { PlaysLine (program_of project.now) (line_of.Frame budget) (after (program_of project.now) (line_of.Frame budget) (world_of R.stream project.now run.old))
        (sink_now K.written K.faults K.calls out.old) (sink_now K.written K.faults K.calls out.new) result }
{
    match run.frame(project, &budget) {
        Ok(()) => {}
        Err(stop) => return Err(stopped(alloc, stop, out)),
    }
    let Ok(text) = writer.text_of(alloc, project, run) else {
        return Err(PlayStop::NoMemory);
    };
    write(alloc, &text, out)
}

// Plays a line that is no frame.
fn play_event<R: Rng + Drop, K: Sink>(
    alloc: Global,
    project: &Project,
    run: &mut Run<R>,
    line: Line,
    out: &mut K,
) -> Result<(), PlayStop>
    requires fits { IsRunOf project.now run.old }
    requires event { is_frame line ≡ false }
    ensures fits { OnOk result (IsRunOf project.now run.new) }
    ensures world { OnOk result (after (program_of project.now) line (world_of R.stream project.now run.old) ≡ Goes (world_of R.stream project.now run.new)) }
    ensures clock { OnOk result (run.new.state.devices.clock ≡ run.old.state.devices.clock) }
    ensures plays { PlaysLine (program_of project.now) line (after (program_of project.now) line (world_of R.stream project.now run.old))
        (sink_now K.written K.faults K.calls out.old) (sink_now K.written K.faults K.calls out.new) result }
{
    let applied = run.apply_line(project, &line);
    drop(line);
    match applied {
        Ok(()) => Ok(()),
        Err(stop) => Err(stopped(alloc, stop, out)),
    }
}

// What a frame line hands in; None for any other line.
fn budget_of(line: &Line) -> Option<Budget>
    ensures frame { IfSome result (λ budget. line.now ≡ line_of.Frame budget) }
    ensures event { IfNone result (is_frame line.now ≡ false) }
{
    match line {
        Line::Frame(budget) => Some(*budget),
        _ => None,
    }
}

/// Plays one good line on a run: a frame line makes a frame, whose text is written by one write; every other line is applied.
/// Where the line reaches a limit, the line of the limit is written in its place. The errors are the limit, a write that failed,
/// and want of memory. After an error the run is only dropped.
pub fn play_line<R: Rng + Drop, K: Sink>(
    alloc: Global,
    project: &Project,
    run: &mut Run<R>,
    writer: &FrameWriter<'_>,
    line: Line,
    out: &mut K,
) -> Result<(), PlayStop>
    requires writer { records_of writer.now ≡ (program_of project.now).records }
    requires fits { IsRunOf project.now run.old }
    requires forward { IsForward run.old.state.devices.clock line }
    ensures fits { OnOk result (IsRunOf project.now run.new) }
    ensures world { OnOk result (after (program_of project.now) line (world_of R.stream project.now run.old) ≡ Goes (world_of R.stream project.now run.new)) }
    ensures clock { OnOk result (run.new.state.devices.clock ≡ clock_after run.old.state.devices.clock (Good line)) }

    // What the line writes, by the world after it.
    ensures plays { PlaysLine (program_of project.now) line (after (program_of project.now) line (world_of R.stream project.now run.old))
        (sink_now K.written K.faults K.calls out.old) (sink_now K.written K.faults K.calls out.new) result }
{
    match budget_of(&line) {
        Some(budget) => play_frame(alloc, project, run, writer, budget, out),
        None => play_event(alloc, project, run, line, out),
    }
}
