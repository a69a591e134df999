//! The state with which a run begins.

ghost use Rattle.std.specs.Prelude.{◌≡◌, IfOk};
ghost use Rattle.machine_spec.specs.First.{first_world};
ghost use Rattle.machine_spec.specs.Words.{seen_words};
ghost use Rattle.project_check.specs.Loaded.{program_of};
ghost use Rattle.executions.specs.Resting.{IsIdle};
ghost use Rattle.executions.specs.Seen.{seen};

use crate::state::State;
use devices::Devices;
use project_check::Project;
use script_words::{Counted, Rng};
use std::alloc::{AllocError, Global};
use targets::Targets;
use thread_frames::Threads;
use variables::Variables;

impl<R: Rng + Drop> State<R> {
    /// The state with which a run of a project begins: its originals in executable order, their variables and lists, no
    /// threads. The first thread will have the number 1. The only error is want of memory.
    pub fn open(alloc: Global, project: &Project, words: Counted<R>) -> Result<State<R>, AllocError>
        ensures world { IfOk result (λ state. seen R.stream project.now state ≡ first_world (program_of project.now) (seen_words R.stream words)) }
        ensures kept { IfOk result (λ state. IsIdle project.now state) }
    {
        let records = project.records();
        Ok(State {
            frame: 0,
            words,
            next_thread: 1,
            next_instance: project.target_count() as u64,
            redraw: false,
            targets: Targets::open(alloc, records)?,
            variables: Variables::open(alloc, records)?,
            devices: Devices::new(alloc)?,
            threads: Threads::new(alloc)?,
        })
    }
}
