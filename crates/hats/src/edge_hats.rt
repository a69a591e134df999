//! The edge hats of a frame.

ghost use Rattle.std.specs.Prelude.{◌≡◌, ◌<◌, ◌++◌, ◌&&◌, not, length, map, option_to_list, slice_get, Some, IfOk, OnOk};
ghost use Rattle.std.specs.List.{list_any};
ghost use Rattle.opcode_table.specs.Kinds.{hat_kind};
ghost use Rattle.project_check.specs.Loaded.{program_of, tables_of};
ghost use Rattle.project_spec.specs.Trees.{op_by};
ghost use Rattle.machine_spec.specs.Frame.{is_edge_hat};
ghost use Rattle.machine_spec.specs.Starting.{pairs_of};
ghost use Rattle.thread_frames.specs.Threads.{is_alive_of};
ghost use Rattle.hats.specs.Edges.{is_edge, edge_of, free_edges, among};
ghost use Rattle.hats.specs.Rounds.{passing_by, passing_at};

use crate::filters::{is_there, kind_of};
use lists::ListOf;
use machine_spec::{BlockId, Instance, InstanceId, TargetId};
use opcode_table::HatKind;
use project_check::Project;
use project_spec::Block;
use std::alloc::{AllocError, Global};
use targets::Targets;
use thread_frames::Threads;

/// An edge hat that is evaluated in a frame.
#[derive(Clone, Copy, PartialEq, Eq, Debug)]
pub struct EdgeHat {
    /// Its instance.
    pub of: InstanceId,
    /// The target of the instance.
    pub target: TargetId,
    /// Its block.
    pub hat: BlockId,
}

/// Edge hats, in the order in which they are evaluated.
pub type EdgeList = ListOf<EdgeHat>;

// Whether a block is an edge hat of which no listed thread of the instance is alive.
fn is_free_edge(threads: &Threads, instance: &Instance, id: BlockId, block: &Block) -> bool
    ensures { result ≡ (is_edge_hat (hat_kind (op_by block.now.code)) && not (list_any (is_alive_of instance.now.number id) threads.now.list)) }
{
    match kind_of(block) {
        HatKind::EdgeHat => !threads.is_any_alive(instance.number, id),
        HatKind::FlagHat => false,
        HatKind::SpriteHat => false,
        HatKind::StageHat => false,
        HatKind::MessageHat => false,
        HatKind::BackdropHat => false,
        HatKind::KeyHat => false,
        HatKind::CloneHat => false,
        HatKind::NoHat => false,
    }
}

// A block as an edge hat of an instance, where it is to be evaluated.
fn edge_by(
    project: &Project,
    threads: &Threads,
    instance: &Instance,
    id: BlockId,
    block: &Block,
) -> Option<EdgeHat>
    ensures { option_to_list result ≡ among threads.now (passing_by project.now is_edge instance.now id (Some block.now)) }
{
    if is_free_edge(threads, instance, id, block) {
        Some(EdgeHat {
            of: instance.number,
            target: instance.of,
            hat: id,
        })
    } else {
        None
    }
}

// The head with a number as an edge hat of an instance, where it is to be evaluated.
fn edge_at(
    project: &Project,
    threads: &Threads,
    instance: &Instance,
    id: BlockId,
) -> Option<EdgeHat>
    requires { instance.now.of < length (tables_of project.now) }
    ensures { option_to_list result ≡ among threads.now (passing_at project.now is_edge instance.now id) }
{
    match project.blocks(instance.of).get(id) {
        Some(block) => edge_by(project, threads, instance, id, block),
        None => None,
    }
}

// Appends the edge hats of an instance, in block order.
fn push_heads(
    edges: &mut EdgeList,
    project: &Project,
    threads: &Threads,
    instance: &Instance,
) -> Result<(), AllocError>
    requires { instance.now.of < length (tables_of project.now) }
    ensures { OnOk result (edges.new ≡ edges.old ++ among threads.now (pairs_of (program_of project.now) is_edge instance.now)) }
{
    let heads = project.heads(instance.of).as_slice();
    for head in heads {
        match edge_at(project, threads, instance, *head) {
            Some(edge) => edges.push(edge)?,
            None => {}
        }
    }
    Ok(())
}

// Appends the edge hats of an instance; where its target is not there it has none.
fn push_edges(
    edges: &mut EdgeList,
    project: &Project,
    threads: &Threads,
    instance: &Instance,
) -> Result<(), AllocError>
    ensures { OnOk result (edges.new ≡ edges.old ++ among threads.now (pairs_of (program_of project.now) is_edge instance.now)) }
{
    if is_there(project, instance) {
        push_heads(edges, project, threads, instance)
    } else {
        Ok(())
    }
}

/// The edge hats to evaluate, in order: from the last instance to the first, those of each in block order, without those of
/// which a listed thread is not done (scratch-vm, engine/runtime.js, _step). The only error is want of memory.
pub fn edges(
    alloc: Global,
    project: &Project,
    targets: &Targets,
    threads: &Threads,
) -> Result<EdgeList, AllocError>
    ensures { IfOk result (λ edges. edges ≡ map edge_of (free_edges (program_of project.now) targets.now threads.now)) }
{
    let mut edges = EdgeList::new(alloc);
    let instances = targets.instances();
    for instance in instances.iter().rev() {
        push_edges(&mut edges, project, threads, instance)?;
    }
    Ok(edges)
}
