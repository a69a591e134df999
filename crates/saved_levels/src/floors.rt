//! What a level stands on.

ghost use Rattle.std.specs.Prelude.{◌≡◌, ◌<◌, ◌∷◌, ◌++◌, [], List, Some, length, reverse, slice_get};
ghost use Rattle.project_check.specs.Loaded.{blocks_at, program_of, sheet_at, tables_of};
ghost use Rattle.project_spec.specs.Trees.{statement};
ghost use Rattle.machine_spec.specs.Called.{scripts_over, warp_over};
ghost use Rattle.machine_spec.specs.Script.{Script};
ghost use Rattle.thread_frames.specs.Fit.{AllUnder, IsUnder};
ghost use Rattle.thread_frames.specs.declared.level.Level.{Level as Seen};
ghost use Rattle.thread_frames.specs.Reading.{beneath};
ghost use Rattle.saved_spec.specs.Levels.{script_among};
ghost use Rattle.saved_levels.specs.Found.{Finds, room_scripts};
ghost use Rattle.saved_levels.specs.Standing.{IsFloor, IsOver, hat_of, program_in, sheet_of};

use crate::calls::called;
use crate::chains::{in_branches, in_chain};
use machine_spec::{BlockId, TargetId};
use project_check::Project;
use project_spec::Block;
use thread_frames::Level;

// The scripts in which a level can stand: the one that begins with a block, or the branches of a block.
#[derive(Clone, Copy, Debug)]
pub(crate) enum Room {
    Under(Option<BlockId>),
    In(BlockId),
}

// These scripts, and the warp flag of a level there.
#[derive(Clone, Copy, Debug)]
pub(crate) struct Floor {
    pub(crate) room: Room,
    pub(crate) warp: bool,
}

// The target of a thread, and the block with which the script under its hat begins.
#[derive(Drop)]
pub(crate) struct Site<'a> {
    pub(crate) project: &'a Project,
    pub(crate) target: TargetId,
    pub(crate) first: Option<BlockId>,
}

// The block of a number in the scripts of a floor.
pub(crate) fn search(site: &Site<'_>, floor: &Floor, wanted: u64) -> Option<BlockId>
    requires { site.now.target < length (tables_of site.now.project.now) }
    ensures { Finds (sheet_of site.now) wanted (script_among wanted (room_scripts (sheet_of site.now) floor.now.room)) result }
{
    match floor.room {
        Room::Under(first) => in_chain(site.project, site.target, first, wanted),
        Room::In(id) => in_branches(site.project, site.target, id, wanted),
    }
}

// What stands over a block of the target that was executed at a flag.
fn over_block(project: &Project, target: TargetId, id: BlockId, block: &Block, warp: bool) -> Floor
    requires { slice_get (blocks_at target project.now) id ≡ Some block.now }
    ensures { IsOver (sheet_at target project.now) (program_of project.now) (statement (sheet_at target project.now) id block.now) warp result }
{
    match called(project, target, block) {
        Some(callee) => Floor {
            room: Room::Under(Some(callee.definition)),
            warp: warp || callee.prototype.warp,
        },
        None => Floor {
            room: Room::In(id),
            warp,
        },
    }
}

// What stands over a level.
fn over(site: &Site<'_>, level: &Level) -> Floor
    requires target { site.now.target < length (tables_of site.now.project.now) }
    requires under { IsUnder (sheet_of site.now) level.now }
    ensures { (hat : Script) → (rest : List Seen) → IsFloor (sheet_of site.now) (program_in site.now) hat (beneath (sheet_of site.now) (level.now ∷ rest)) result }
{
    match level.block {
        Some(id) => {
            let block = site.project.block(site.target, id);
            over_block(site.project, site.target, id, block, level.warp)
        }
        None => unreachable!(),
    }
}

// What the next level stands on, over levels of which the bottom one stands first.
pub(crate) fn floor_on(site: &Site<'_>, made: &[Level]) -> Floor
    requires target { site.now.target < length (tables_of site.now.project.now) }
    requires under { AllUnder (sheet_of site.now) (reverse made.now) }
    ensures { IsFloor (sheet_of site.now) (program_in site.now) (hat_of site.now) (beneath (sheet_of site.now) (reverse made.now)) result }
{
    match made.last() {
        Some(level) => over(site, level),
        None => Floor {
            room: Room::Under(site.first),
            warp: false,
        },
    }
}
