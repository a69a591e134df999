//! The writer of frames.

ghost use Rattle.std.specs.Prelude.{◌≡◌};
ghost use Rattle.target_records.specs.Records.{records_in};
ghost use Rattle.stage_frame.specs.Found.{are_found};

use crate::frame::{View, push_lines};
use crate::watches::{Watch, all_found};
use project_check::Project;
use script_words::Rng;
use sequencer::Run;
use std::alloc::{AllocError, Global};
use target_records::Records;

/// Writes the texts of the frames of a run. What the monitors of the file show is looked for once, when the writer is made: a
/// frame then takes time in proportion to its text, the instances and the monitors. Contracts see the records of the project
/// as `records_of`.
#[derive(Drop)]
pub struct FrameWriter<'r> {
    records: &'r Records,
    watches: Vec<Watch>,
    ghost found: { watches.items ≡ are_found (records_in records.now) },
}

impl<'r> FrameWriter<'r> {
    ghost use Rattle.std.specs.Prelude.{◌≡◌, IfOk};
    ghost use Rattle.machine_spec.specs.FrameText.{frame_text};
    ghost use Rattle.machine_spec.specs.Program.{Program};
    ghost use Rattle.machine_spec.specs.Tasks.{Task};
    ghost use Rattle.machine_spec.specs.World.{World};
    ghost use Rattle.target_records.specs.Records.{records_in};
    ghost use Rattle.project_check.specs.Loaded.{program_of};
    ghost use Rattle.sequencer.specs.Runs.{world_of};
    ghost use Rattle.stage_frame.specs.Seen.{IsSeen};
    ghost use Rattle.stage_frame.specs.Writers.{records_of};

    /// A writer of the frames of a run of these records. The only error is want of memory.
    pub fn new(alloc: Global, records: &'r Records) -> Result<FrameWriter<'r>, AllocError>
        ensures { IfOk result (λ writer. records_of writer ≡ records_in records.now) }
    {
        let watches = all_found(alloc, records)?;
        Ok(FrameWriter { records, watches })
    }

    /// The text of the frame that the run has just made (docs/formats.md): the first line, the stage and the sprites in
    /// executable order, the question, the monitors that are visible, and the last line. The only error is want of memory.
    pub fn text(&self, alloc: Global, view: &View<'_>) -> Result<Vec<u8>, AllocError>
        ensures { IfOk result (λ text. (p : Program) (w : World Task) → p.records ≡ records_of self.now → IsSeen view.now w → text.items ≡ frame_text p w) }
    {
        let mut out = Vec::new(alloc);
        push_lines(&mut out, self.records, view, &self.watches)?;
        Ok(out)
    }

    /// The text of the frame that a run of the project has just made. The records of the writer are those of the project. The
    /// only error is want of memory.
    pub fn text_of<R: Rng + Drop>(
        &self,
        alloc: Global,
        project: &Project,
        run: &Run<R>,
    ) -> Result<Vec<u8>, AllocError>
        requires { records_of self.now ≡ (program_of project.now).records }
        ensures { IfOk result (λ text. text.items ≡ frame_text (program_of project.now) (world_of R.stream project.now run.now)) }
    {
        let view = View {
            frame: run.frame_number(),
            words: run.words().drawn(),
            targets: run.targets(),
            variables: run.variables(),
            devices: run.devices(),
        };
        self.text(alloc, &view)
    }
}
