//! A saved run loaded.

ghost use Rattle.std.specs.Prelude.{◌≡◌, None, IfOk};
ghost use Rattle.script_words.specs.Words.{answers};
ghost use Rattle.saved_parts.specs.Telling.{told_of};
ghost use Rattle.project_check.specs.Loaded.{basis_of};
ghost use Rattle.saved_spec.specs.Rules.{broken};
ghost use Rattle.saved_spec.specs.Refusals.{first_difference};
ghost use Rattle.saved_spec.specs.Saved.{saved_text, snapshot};
ghost use Rattle.saved_spec.specs.Tasks.{task};
ghost use Rattle.sequencer.specs.Runs.{world_of, IsRunOf};
ghost use Rattle.run_save.specs.Loading.{Loads, LoadsAgain, Makes};

use crate::saver::saved_run;
use crate::spelling::difference;
use crate::threads::parts_of;
use crate::told_run::told_by;
use executions::State;
use laws_of_saving::{
    a_digest_has_its_bytes, the_text_of_a_run_is_accepted, the_world_of_a_run_is_told,
};
use project_check::Project;
use rand_pcg::Pcg32;
use saved_levels::Waiting;
use saved_parts::ToldRun;
use saved_spec::{SaveRefusal, a_saved_run_tells_its_world, one_answer_at_most};
use saved_stores::{RunStores, ToldDevices, ToldStores, stores_of};
use saved_text::{a_saved_run_is_its_world, text_of};
use script_words::pcg;
use sequencer::Run;
use std::alloc::{AllocError, Global};
use thread_frames::Threads;

// The run that a text tells which breaks no rule, but for its threads; they are told one by one.
fn run_of(alloc: Global, project: &Project, told: ToldRun) -> Result<Run<Pcg32>, SaveRefusal>
    requires { broken (basis_of project.now) (told_of told) ≡ None }
    ensures { Makes answers project.now (told_of told) result }
{
    let waiting = Waiting::new(
        alloc,
        told.clock,
        told.questions.as_slice(),
        told.timers.as_slice(),
    )?;
    let stores = ToldStores {
        instances: told.instances,
        monitors: told.monitors,
        made: told.made,
        devices: ToldDevices {
            answer: told.answer,
            clock: told.clock,
            timer: told.timer,
            keys: told.keys,
            mouse: told.mouse,
            questions: told.questions,
            timers: told.timers,
            turbo: told.turbo,
            usage: told.next.usage,
        },
    };
    let RunStores {
        targets,
        variables,
        devices,
    } = stores_of(alloc, project, stores)?;
    let parts = parts_of(alloc, project, &waiting, &targets, told.threads)?;
    let threads = Threads::rebuild(alloc, parts)?;
    let state = State {
        frame: told.frame,
        words: pcg(told.seed, told.drawn),
        next_thread: told.next.thread,
        next_instance: told.next.instance,
        redraw: false,
        targets,
        variables,
        devices,
        threads,
    };
    Ok(Run::rebuild(alloc, project, state))
}

// How many bytes stand before the first that is not written so for a run. The only error is want of memory.
fn misspelled(
    alloc: Global,
    project: &Project,
    digest: &[u8; 32],
    seed: u64,
    run: &Run<Pcg32>,
    bytes: &[u8],
) -> Result<Option<u64>, AllocError>
    requires { IsRunOf project.now run.now }
    ensures { IfOk result (λ at. at ≡ first_difference bytes.now (saved_text task (snapshot digest.now seed (world_of answers project.now run.now)))) }
{
    a_saved_run_is_its_world();
    let text = text_of(alloc, &saved_run(run, seed, *digest))?;
    Ok(difference(bytes, &text))
}

// The run that bytes tell, or the first refusal.
fn loaded(
    alloc: Global,
    project: &Project,
    digest: &[u8; 32],
    bytes: &[u8],
) -> Result<(Run<Pcg32>, u64), SaveRefusal>
    ensures { Loads answers project.now digest.now bytes.now result }
{
    a_saved_run_tells_its_world();
    let told = told_by(alloc, project, digest, bytes)?;
    let seed = told.seed;
    let run = run_of(alloc, project, told)?;
    match misspelled(alloc, project, digest, seed, &run, bytes)? {
        None => Ok((run, seed)),
        Some(at) => Err(SaveRefusal::Spelling { at }),
    }
}

/// The run that the bytes of a saved run tell, and the seed of its random words, where they are the saved run of the project
/// with this digest (docs/formats.md, section 5); else the first of the refusals, in their order. The only other error is
/// want of memory.
pub fn load(
    alloc: Global,
    project: &Project,
    digest: &[u8; 32],
    bytes: &[u8],
) -> Result<(Run<Pcg32>, u64), SaveRefusal>
    ensures answer { Loads answers project.now digest.now bytes.now result }
    ensures again { LoadsAgain answers project.now digest.now bytes.now result }
{
    one_answer_at_most();
    a_digest_has_its_bytes(*digest);
    the_text_of_a_run_is_accepted();
    the_world_of_a_run_is_told();
    loaded(alloc, project, digest, bytes)
}
