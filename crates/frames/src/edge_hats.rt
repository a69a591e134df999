//! The edge hats of a frame, one after another.

ghost use Rattle.std.specs.Prelude.{◌≡◌, ◌&&◌, true, false, map, not, unwrap_or, IfOk};
ghost use Rattle.machine_spec.specs.Frame as machine;
ghost use Rattle.machine_spec.specs.Outcome.{Goes, StopIs};
ghost use Rattle.machine_spec.specs.Starting.{Pair};
ghost use Rattle.project_check.specs.Loaded.{program_of};
ghost use Rattle.hats.specs.Edges.{edge_of, free_edges};
ghost use Rattle.hats.specs.Heads.{IsEdgeOf, IsHeadOf};
ghost use Rattle.executions.specs.Resting.{IsIdle};
ghost use Rattle.executions.specs.Seen.{seen};
ghost use Rattle.frames.specs.Listed.{IsListed};

use crate::edge_values::evaluate_hat;
use evaluate::View;
use executions::State;
use hats::{EdgeHat, EdgeList, edges, fire};
use project_check::Project;
use script_words::{Rng, Stop};
use std::alloc::Global;

// Whether an edge hat is started: it is true, and was not recorded as true before.
fn has_risen(value: bool, before: Option<bool>) -> bool
    ensures { result ≡ (value && not (unwrap_or before false)) }
{
    match before {
        Some(was) => value && !was,
        None => value,
    }
}

// Starts an edge hat.
fn start_hat<R: Rng + Drop>(
    state: &mut State<R>,
    alloc: Global,
    project: &Project,
    edge: &EdgeHat,
) -> Result<(), Stop>
    requires edge { IsListed project.now state.old.targets edge.now }
    requires idle { IsIdle project.now state.old }
    ensures ok { IfOk result (λ _. (x : Pair) → IsEdgeOf project.now edge.now x → machine.edge_fired true x (seen R.stream project.now state.old) ≡ Goes (seen R.stream project.now state.new)) }
    ensures stop { (x : Pair) → IsEdgeOf project.now edge.now x → StopIs result (machine.edge_fired true x (seen R.stream project.now state.old)) }
    ensures kept { IfOk result (λ _. IsIdle project.now state.new) }
    ensures cast { state.new.targets ≡ state.old.targets }
{
    let threads = &mut state.threads;
    let next = &mut state.next_thread;
    match fire(alloc, project, threads, next, edge) {
        Ok(_serials) => Ok(()),
        Err(stop) => Err(stop),
    }
}

// Starts an edge hat where its value has become true.
fn start_risen<R: Rng + Drop>(
    state: &mut State<R>,
    alloc: Global,
    project: &Project,
    edge: &EdgeHat,
    is_risen: bool,
) -> Result<(), Stop>
    requires edge { IsListed project.now state.old.targets edge.now }
    requires idle { IsIdle project.now state.old }
    ensures ok { IfOk result (λ _. (x : Pair) → IsEdgeOf project.now edge.now x → machine.edge_fired is_risen x (seen R.stream project.now state.old) ≡ Goes (seen R.stream project.now state.new)) }
    ensures stop { (x : Pair) → IsEdgeOf project.now edge.now x → StopIs result (machine.edge_fired is_risen x (seen R.stream project.now state.old)) }
    ensures kept { IfOk result (λ _. IsIdle project.now state.new) }
    ensures cast { state.new.targets ≡ state.old.targets }
{
    if is_risen {
        start_hat(state, alloc, project, edge)
    } else {
        Ok(())
    }
}

// Records the value of an edge hat, and starts it where it has become true.
fn record_value<R: Rng + Drop>(
    state: &mut State<R>,
    alloc: Global,
    project: &Project,
    edge: &EdgeHat,
    value: bool,
) -> Result<(), Stop>
    requires edge { IsListed project.now state.old.targets edge.now }
    requires idle { IsIdle project.now state.old }
    ensures ok { IfOk result (λ _. (x : Pair) → IsEdgeOf project.now edge.now x → machine.edge_passed x value (seen R.stream project.now state.old) ≡ Goes (seen R.stream project.now state.new)) }
    ensures stop { (x : Pair) → IsEdgeOf project.now edge.now x → StopIs result (machine.edge_passed x value (seen R.stream project.now state.old)) }
    ensures kept { IfOk result (λ _. IsIdle project.now state.new) }
    ensures heads { (x : Pair) → IsHeadOf project.now state.old.targets x → IsHeadOf project.now state.new.targets x }
{
    match state.targets.set_edge(edge.of, edge.hat, value) {
        Ok(before) => start_risen(state, alloc, project, edge, has_risen(value, before)),
        Err(_) => Err(Stop::NoMemory),
    }
}

// Passes one edge hat: its value is evaluated and recorded, and it is started where it has become true.
fn pass_edge_hat<R: Rng + Drop>(
    state: &mut State<R>,
    alloc: Global,
    project: &Project,
    edge: &EdgeHat,
) -> Result<(), Stop>
    requires edge { IsListed project.now state.old.targets edge.now }
    requires idle { IsIdle project.now state.old }
    ensures ok { IfOk result (λ _. (x : Pair) → IsEdgeOf project.now edge.now x → machine.edge_one (program_of project.now) x (seen R.stream project.now state.old) ≡ Goes (seen R.stream project.now state.new)) }
    ensures stop { (x : Pair) → IsEdgeOf project.now edge.now x → StopIs result (machine.edge_one (program_of project.now) x (seen R.stream project.now state.old)) }
    ensures kept { IfOk result (λ _. IsIdle project.now state.new) }
    ensures heads { (x : Pair) → IsHeadOf project.now state.old.targets x → IsHeadOf project.now state.new.targets x }
{
    let view = View {
        project,
        targets: &state.targets,
        variables: &state.variables,
        devices: &state.devices,
        here: edge.of,
        target: edge.target,
        levels: None,
    };
    match evaluate_hat(alloc, &view, edge.hat, &mut state.words) {
        Ok(value) => record_value(state, alloc, project, edge, value),
        Err(stop) => Err(stop),
    }
}

// Passes the edge hats of a list, which are those of which no thread is listed that is not done.
fn pass_list<R: Rng + Drop>(
    state: &mut State<R>,
    alloc: Global,
    project: &Project,
    edges: &EdgeList,
) -> Result<(), Stop>
    requires list { edges.now ≡ map edge_of (free_edges (program_of project.now) state.old.targets state.old.threads) }
    requires idle { IsIdle project.now state.old }
    ensures ok { IfOk result (λ _. machine.edges_passed (program_of project.now) (machine.edges (program_of project.now) (seen R.stream project.now state.old)) (seen R.stream project.now state.old) ≡ Goes (seen R.stream project.now state.new)) }
    ensures stop { StopIs result (machine.edges_passed (program_of project.now) (machine.edges (program_of project.now) (seen R.stream project.now state.old)) (seen R.stream project.now state.old)) }
    ensures kept { IfOk result (λ _. IsIdle project.now state.new) }
{
    let listed = edges.as_slice();
    for edge in listed {
        match pass_edge_hat(state, alloc, project, edge) {
            Ok(()) => {}
            Err(stop) => return Err(stop),
        }
    }
    Ok(())
}

/// Passes the edge hats of a frame: those of which no listed thread is alive, from the last instance to the first, those of
/// each in block order. The inputs of each are evaluated, whatever its field; it is true where the field
/// WHENGREATERTHANMENU folds to `timer` and the timer is above VALUE. The value is recorded, and a thread is appended where
/// it is true and was not recorded as true before (scratch-vm, engine/runtime.js, _step, and engine/execute.js,
/// handleReport, where hats are threads of their own). `Stop` is the first limit that is met: `Text` of a reporter, the
/// counters of words and of threads, `Stack`; `NoMemory` only for want of memory. After a stop nothing is told of the run.
pub fn pass_edge_hats<R: Rng + Drop>(
    state: &mut State<R>,
    alloc: Global,
    project: &Project,
) -> Result<(), Stop>
    requires idle { IsIdle project.now state.old }
    ensures ok { IfOk result (λ _. machine.edges_passed (program_of project.now) (machine.edges (program_of project.now) (seen R.stream project.now state.old)) (seen R.stream project.now state.old) ≡ Goes (seen R.stream project.now state.new)) }
    ensures stop { StopIs result (machine.edges_passed (program_of project.now) (machine.edges (program_of project.now) (seen R.stream project.now state.old)) (seen R.stream project.now state.old)) }
    ensures kept { IfOk result (λ _. IsIdle project.now state.new) }
{
    match edges(alloc, project, &state.targets, &state.threads) {
        Ok(edges) => pass_list(state, alloc, project, &edges),
        Err(_) => Err(Stop::NoMemory),
    }
}
