//! A whole script, played.

ghost use Rattle.std.specs.Prelude.{◌≡◌, OnOk};
ghost use Rattle.call_outcomes.specs.Seen.{sink_now};
ghost use Rattle.machine_spec.specs.Output as machine;
ghost use Rattle.machine_spec.specs.ScriptText.{lines_of};
ghost use Rattle.project_check.specs.Loaded.{program_of};
ghost use Rattle.sequencer.specs.Runs.{world_of, IsRunOf};
ghost use Rattle.stage_frame.specs.Writers.{records_of};
ghost use Rattle.script_play.specs.Scripts.{IsLineEnd, PlaysAs};

use crate::lines::play_line;
use crate::stops::PlayStop;
use input_script::Script;
use machine_spec::LineRefusal;
use project_check::Project;
use script_words::Rng;
use sequencer::Run;
use stage_frame::FrameWriter;
use std::alloc::Global;
use sv_channels::Sink;

// How a play ends at a line that is refused.
fn refused_line(refusal: LineRefusal) -> PlayStop
    ensures { IsLineEnd refusal result }
{
    match refusal {
        LineRefusal::NoMemory => PlayStop::NoMemory,
        _ => PlayStop::BadScript(refusal),
    }
}

// Plays the lines of a script on a run with a writer of its frames.
fn play_from<R: Rng + Drop, K: Sink>(
    alloc: Global,
    project: &Project,
    run: &mut Run<R>,
    writer: &FrameWriter<'_>,
    script: &[u8],
    out: &mut K,
) -> Result<(), PlayStop>
    requires writer { records_of writer.now ≡ (program_of project.now).records }
    requires fits { IsRunOf project.now run.old }
    ensures plays { PlaysAs (machine.played (program_of project.now) 1 run.old.state.devices.clock (world_of R.stream project.now run.old) (lines_of script.now)) (world_of R.stream project.now run.new)
        (sink_now K.written K.faults K.calls out.old) (sink_now K.written K.faults K.calls out.new) result }
    ensures fits { OnOk result (IsRunOf project.now run.new) }
{
    let mut reader = Script::new(alloc, script, run.clock());
    'lines: loop {
        let next = match reader.next_line() {
            Ok(next) => next,
            Err(refusal) => return Err(refused_line(refusal)),
        };
        let Some(line) = next else {
            return Ok(());
        };
        match play_line(alloc, project, run, writer, line, out) {
            Ok(()) => {}
            Err(stop) => return Err(stop),
        }
    }
}

/// Plays the lines of a script on a run, the first of which has the number 1, to the script's end. The errors are the first line
/// that is refused, the first limit that a line reaches, a write that failed, and want of memory. After an error the run is only
/// dropped.
pub fn play_lines<R: Rng + Drop, K: Sink>(
    alloc: Global,
    project: &Project,
    run: &mut Run<R>,
    script: &[u8],
    out: &mut K,
) -> Result<(), PlayStop>
    requires { IsRunOf project.now run.old }

    // It writes the texts of the script's output, and ends as the output does.
    ensures plays { PlaysAs (machine.played (program_of project.now) 1 run.old.state.devices.clock (world_of R.stream project.now run.old) (lines_of script.now)) (world_of R.stream project.now run.new)
        (sink_now K.written K.faults K.calls out.old) (sink_now K.written K.faults K.calls out.new) result }
    ensures fits { OnOk result (IsRunOf project.now run.new) }
{
    let Ok(writer) = FrameWriter::new(alloc, project.records()) else {
        return Err(PlayStop::NoMemory);
    };
    play_from(alloc, project, run, &writer, script, out)
}
