//! A run saved.

ghost use Rattle.std.specs.Prelude.{IfOk};
ghost use Rattle.saved_spec.specs.Ranges.{IsRun, IsTask};
ghost use Rattle.saved_spec.specs.Saved.{saved_text, snapshot, saved_limit};
ghost use Rattle.saved_text.specs.Saving.{IsSaved};
ghost use Rattle.saved_text.specs.Seen.{seen};
ghost use Rattle.saved_spec.specs.Tasks.{task};
ghost use Rattle.sequencer.specs.Runs.{world_of, IsRunOf};
ghost use Rattle.run_save.specs.Saving.{HasParts};

use project_check::Project;
use saved_text::{SaveStop, SavedRun, a_saved_run_is_its_world, what_is_left_is_in_range};
use script_words::Rng;
use sequencer::Run;
use std::alloc::Global;

// The parts of a run that its text tells.
pub(crate) fn saved_run<'a, R: Rng + Drop>(
    run: &'a Run<R>,
    seed: u64,
    digest: [u8; 32],
) -> SavedRun<'a>
    ensures { HasParts (seen result) run.now digest seed }
{
    let variables = run.variables();
    SavedRun {
        digest,
        seed,
        drawn: run.words().drawn(),
        frame: run.frame_number(),
        next_thread: run.next_thread(),
        next_instance: run.next_instance(),
        instances: run.targets().instances(),
        stores: variables.stores(),
        file_monitors: variables.file_monitors().as_slice(),
        made: variables.made().as_slice(),
        devices: run.devices(),
        threads: run.threads(),
    }
}

/// The text of a saved run of the project with this digest, whose random words are those of the seed (docs/formats.md,
/// section 5). `TooLarge` exactly where it is longer than 128 MiB; the only other error is want of memory.
pub fn save<R: Rng + Drop>(
    alloc: Global,
    project: &Project,
    run: &Run<R>,
    seed: u64,
    digest: &[u8; 32],
) -> Result<Vec<u8>, SaveStop>
    requires { IsRunOf project.now run.now }
    ensures text { IsSaved saved_limit (saved_text task (snapshot digest.now seed (world_of R.stream project.now run.now))) result }
    ensures ranges { IfOk result (λ _. IsRun IsTask (snapshot digest.now seed (world_of R.stream project.now run.now))) }
{
    a_saved_run_is_its_world();
    what_is_left_is_in_range();
    saved_text::save(alloc, &saved_run(run, seed, *digest))
}
