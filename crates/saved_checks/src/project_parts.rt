//! What a project has, by numbers that may be of nothing.

ghost use Rattle.std.specs.Prelude.{◌≡◌, length, slice_get};
ghost use Rattle.std.specs.Option.{option_copied};
ghost use Rattle.machine_spec.specs.Program.{record_at};
ghost use Rattle.project_check.specs.Loaded.{blocks_at, basis_of};
ghost use Rattle.project_spec.specs.Basis as basis;
ghost use Rattle.project_spec.specs.Basis.{blocks_of, records_of};
ghost use Rattle.saved_spec.specs.Rules.{is_sprite};

use crate::hat_blocks::heads_edge_script;
use machine_spec::{TargetId, TargetRecord};
use project_check::Project;
use project_spec::Block;

// How many targets there are.
pub(crate) fn targets(project: &Project) -> u32
    ensures { result ≡ length (records_of (basis_of project.now)).targets }
{
    project.records().targets()
}

// How many monitors the file has.
pub(crate) fn monitors(project: &Project) -> usize
    ensures { result ≡ length (records_of (basis_of project.now)).monitors }
{
    project.records().monitors().len()
}

// The record of a target.
fn record(project: &Project, target: u64) -> Option<&TargetRecord>
    ensures { option_copied result ≡ slice_get (records_of (basis_of project.now)).targets target }
{
    project.records().all_targets().get(target as usize)
}

// How many costumes a target has.
pub(crate) fn costumes(project: &Project, target: u64) -> usize
    ensures { result ≡ length (record_at target (records_of (basis_of project.now))).costumes }
{
    match record(project, target) {
        Some(record) => record.costumes.len(),
        None => 0,
    }
}

// How many variables a target has.
pub(crate) fn variables(project: &Project, target: u64) -> usize
    ensures { result ≡ length (record_at target (records_of (basis_of project.now))).variables }
{
    match record(project, target) {
        Some(record) => record.variables.len(),
        None => 0,
    }
}

// How many lists a target has.
pub(crate) fn lists(project: &Project, target: u64) -> usize
    ensures { result ≡ length (record_at target (records_of (basis_of project.now))).lists }
{
    match record(project, target) {
        Some(record) => record.lists.len(),
        None => 0,
    }
}

// Whether a target is the stage.
pub(crate) fn is_stage(project: &Project, target: u64) -> bool
    ensures { result ≡ (record_at target (records_of (basis_of project.now))).is_stage }
{
    match record(project, target) {
        Some(record) => record.is_stage,
        None => false,
    }
}

// Whether it is a target that is not the stage.
pub(crate) fn is_sprite(project: &Project, target: u64) -> bool
    ensures { result ≡ is_sprite (basis_of project.now) target }
{
    match record(project, target) {
        Some(record) => !record.is_stage,
        None => false,
    }
}

// The blocks of a target; where there is no such target there are none.
fn target_blocks(project: &Project, target: u64) -> &[Block]
    ensures { result.now ≡ blocks_at target project.now }
{
    if target < u64::from(project.target_count()) {
        project.blocks(TargetId(target as u32)).blocks()
    } else {
        &[]
    }
}

// How many blocks a target has.
pub(crate) fn blocks(project: &Project, target: u64) -> u64
    ensures { result ≡ blocks_of target (basis_of project.now) }
{
    target_blocks(project, target).len() as u64
}

// A block of a target.
fn block(project: &Project, target: u64, block: u64) -> Option<&Block>
    ensures { option_copied result ≡ slice_get (blocks_at target project.now) block }
{
    target_blocks(project, target).get(block as usize)
}

// Whether a block heads a script of a target; a definition does not.
pub(crate) fn is_hat(project: &Project, target: u64, number: u64) -> bool
    ensures { result ≡ basis.is_hat target number (basis_of project.now) }
{
    match block(project, target, number) {
        Some(block) => block_table::is_hat(block),
        None => false,
    }
}

// Whether it is an edge hat that does.
pub(crate) fn is_edge(project: &Project, target: u64, number: u64) -> bool
    ensures { result ≡ basis.is_edge target number (basis_of project.now) }
{
    match block(project, target, number) {
        Some(block) => heads_edge_script(block),
        None => false,
    }
}
