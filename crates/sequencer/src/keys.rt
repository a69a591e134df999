//! Keys that are pressed.

ghost use Rattle.std.specs.Prelude.{◌≡◌, IfOk, OnOk, codes};
ghost use Rattle.machine_spec.specs.Line as machine;
ghost use Rattle.machine_spec.specs.Outcome.{Goes, StopIs};
ghost use Rattle.machine_spec.specs.declared.threads.Filter.TheVariants as filter;
ghost use Rattle.project_check.specs.Loaded.{program_of};
ghost use Rattle.executions.specs.Resting.{IsIdle};
ghost use Rattle.executions.specs.Seen.{seen};

use executions::State;
use machine_spec::{Filter, Key};
use project_check::Project;
use project_json::Text;
use script_words::{Rng, Stop};
use std::alloc::{AllocError, Global};

// The name by which the hats of a key are found.
fn name(alloc: Global, key: Key) -> Result<Text, AllocError>
    ensures { IfOk result (λ name. name ≡ machine.key_name key) }
{
    let mut scratch = [0u8; 4];
    Text::from_str(alloc, key.name(&mut scratch))
}

// Starts the hats of a key.
fn start_own<R: Rng + Drop>(
    state: &mut State<R>,
    alloc: Global,
    project: &Project,
    key: Key,
) -> Result<(), Stop>
    requires { IsIdle project.now state.old }
    ensures ok { IfOk result (λ _. machine.started (program_of project.now) (filter.Key (machine.key_name key)) (seen R.stream project.now state.old) ≡ Goes (seen R.stream project.now state.new)) }
    ensures stop { StopIs result (machine.started (program_of project.now) (filter.Key (machine.key_name key)) (seen R.stream project.now state.old)) }
    ensures kept { IfOk result (λ _. IsIdle project.now state.new) }
{
    match name(alloc, key) {
        Ok(own) => state.begin(alloc, project, &Filter::Key(own)),
        Err(_) => Err(Stop::NoMemory),
    }
}

// Starts the hats of any key.
fn start_any<R: Rng + Drop>(
    state: &mut State<R>,
    alloc: Global,
    project: &Project,
) -> Result<(), Stop>
    requires { IsIdle project.now state.old }
    ensures ok { IfOk result (λ _. machine.started (program_of project.now) (filter.Key (codes "any")) (seen R.stream project.now state.old) ≡ Goes (seen R.stream project.now state.new)) }
    ensures stop { StopIs result (machine.started (program_of project.now) (filter.Key (codes "any")) (seen R.stream project.now state.old)) }
    ensures kept { IfOk result (λ _. IsIdle project.now state.new) }
{
    match Text::from_str(alloc, "any") {
        Ok(any) => state.begin(alloc, project, &Filter::Key(any)),
        Err(_) => Err(Stop::NoMemory),
    }
}

// Holds a key.
fn hold<R: Rng + Drop>(state: &mut State<R>, project: &Project, key: Key) -> Result<(), AllocError>
    requires { IsIdle project.now state.old }
    ensures held { OnOk result (seen R.stream project.now state.new ≡ machine.with_keys (machine.with_key key) (seen R.stream project.now state.old)) }
    ensures kept { OnOk result (IsIdle project.now state.new) }
{
    state.devices.key_down(key)
}

// Presses a key: its hats are started, then those of any key, and then it is held.
pub(crate) fn press<R: Rng + Drop>(
    state: &mut State<R>,
    alloc: Global,
    project: &Project,
    key: Key,
) -> Result<(), Stop>
    requires { IsIdle project.now state.old }
    ensures ok { IfOk result (λ _. machine.key_down (program_of project.now) key (seen R.stream project.now state.old) ≡ Goes (seen R.stream project.now state.new)) }
    ensures stop { StopIs result (machine.key_down (program_of project.now) key (seen R.stream project.now state.old)) }
    ensures kept { IfOk result (λ _. IsIdle project.now state.new) }
{
    match start_own(state, alloc, project, key) {
        Ok(()) => match start_any(state, alloc, project) {
            Ok(()) => match hold(state, project, key) {
                Ok(()) => Ok(()),
                Err(_) => Err(Stop::NoMemory),
            },
            Err(stop) => Err(stop),
        },
        Err(stop) => Err(stop),
    }
}
