//! The text of one frame.

ghost use Rattle.std.specs.Prelude.{◌≡◌, IfOk};
ghost use Rattle.machine_spec.specs.FrameText as machine;
ghost use Rattle.project_check.specs.Loaded.{program_of};
ghost use Rattle.sequencer.specs.Runs.{world_of};

use crate::writer::FrameWriter;
use project_check::Project;
use script_words::Rng;
use sequencer::Run;
use std::alloc::{AllocError, Global};

/// The text of the frame that a run of the project has just made (docs/formats.md). Where many frames of a run are written, a
/// `FrameWriter` looks only once for what the monitors show. The only error is want of memory.
pub fn frame_text<R: Rng + Drop>(
    alloc: Global,
    project: &Project,
    run: &Run<R>,
) -> Result<Vec<u8>, AllocError>
    ensures { IfOk result (λ text. text.items ≡ machine.frame_text (program_of project.now) (world_of R.stream project.now run.now)) }
{
    let writer = FrameWriter::new(alloc, project.records())?;
    writer.text_of(alloc, project, run)
}
