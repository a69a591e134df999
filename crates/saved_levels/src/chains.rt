//! Blocks in chains of blocks.

ghost use Rattle.std.specs.Prelude.{◌≡◌, ◌<◌, ◌∷◌, [], ℕ, List, length, slice_get, IfSome};
ghost use Rattle.std.specs.Option.{option_copied};
ghost use Rattle.project_check.specs.Loaded.{tables_of, blocks_at, ranks_at, sheet_at};
ghost use Rattle.project_spec.specs.Linked.{AreRanks, is_branch};
ghost use Rattle.project_spec.specs.Trees.{branch_by, script, target_of_link};
ghost use Rattle.saved_spec.specs.Levels.{script_from, script_among};
ghost use Rattle.saved_levels.specs.Found.{Finds, scripts_in, scripts_under};

use block_table::is_branch;
use cached_blocks::{first_of, linked};
use machine_spec::{BlockId, TargetId};
use project_check::Project;
use project_json::Text;
use project_spec::{Block, Input};

// A block of a target, where it is there. A rank falls along every link.
fn ranked(project: &Project, target: TargetId, id: BlockId) -> Option<&Block>
    requires { target < length (tables_of project.now) }
    ensures block { option_copied result ≡ slice_get (blocks_at target project.now) id }
    ensures ranks { IfSome result (λ _. AreRanks (blocks_at target project.now) (ranks_at target project.now)) }
{
    match project.blocks(target).get(id) {
        Some(block) => {
            let _rank = project.rank(target, id);
            Some(block)
        }
        None => None,
    }
}

// The block of a number in the chain that begins with a block.
pub(crate) fn in_chain(
    project: &Project,
    target: TargetId,
    first: Option<BlockId>,
    wanted: u64,
) -> Option<BlockId>
    requires { target < length (tables_of project.now) }
    ensures { Finds (sheet_at target project.now) wanted (script_from wanted (script (sheet_at target project.now) first)) result }
{
    let mut at = first;
    while let Some(id) = at {
        let block = match ranked(project, target, id) {
            Some(block) => block,
            None => return None,
        };
        if u64::from(id.0) == wanted {
            return Some(id);
        }
        at = linked(&block.next);
    }
    None
}

// The block of a number in an input that is a branch.
fn in_input(
    project: &Project,
    target: TargetId,
    entry: &(Text, Input),
    wanted: u64,
) -> Option<BlockId>
    requires { target < length (tables_of project.now) }
    ensures { Finds (sheet_at target project.now) wanted (script_among wanted (scripts_in (sheet_at target project.now) (entry.now ∷ []))) result }
{
    let (name, input) = entry;
    if is_branch(name.as_str()) {
        in_chain(project, target, first_of(input), wanted)
    } else {
        None
    }
}

// The block of a number in the first of these inputs that is a branch with it.
fn in_inputs(
    project: &Project,
    target: TargetId,
    inputs: &[(Text, Input)],
    wanted: u64,
) -> Option<BlockId>
    requires { target < length (tables_of project.now) }
    ensures { Finds (sheet_at target project.now) wanted (script_among wanted (scripts_in (sheet_at target project.now) inputs.now)) result }
{
    for entry in inputs {
        match in_input(project, target, entry, wanted) {
            Some(id) => return Some(id),
            None => {}
        }
    }
    None
}

// The block of a number in the branches of a block.
pub(crate) fn in_branches(
    project: &Project,
    target: TargetId,
    id: BlockId,
    wanted: u64,
) -> Option<BlockId>
    requires { target < length (tables_of project.now) }
    ensures { Finds (sheet_at target project.now) wanted (script_among wanted (scripts_under (sheet_at target project.now) (slice_get (blocks_at target project.now) id))) result }
{
    match project.blocks(target).get(id) {
        Some(block) => in_inputs(project, target, block.inputs.as_slice(), wanted),
        None => None,
    }
}
