//! Levels on levels.

ghost use Rattle.std.specs.Prelude.{◌≡◌, ◌<◌, List, true, map, length, IfOk};
ghost use Rattle.std.specs.Option.{option_map};
ghost use Rattle.std.specs.List.{list_all};
ghost use Rattle.project_check.specs.Loaded.{tables_of};
ghost use Rattle.machine_spec.specs.Pending.{Item};
ghost use Rattle.saved_parts.specs.Telling.{kept_of, level_of};
ghost use Rattle.saved_spec.specs.Rules.{is_short, values_kept};
ghost use Rattle.saved_spec.specs.ThreadRules.{marker_fits};
ghost use Rattle.saved_levels.specs.Making.{is_short_level, keeps_first, keeps_under};
ghost use Rattle.saved_levels.specs.Standing.{FindsKept, IsFloor, Stacks, StacksAll, Tops, hat_of, program_in, sheet_of};

use crate::floors::{Floor, Site, floor_on, search};
use crate::kept_contexts::{keeps_first, keeps_under};
use crate::level_parts::level;
use machine_spec::BlockId;
use saved_parts::{ToldKept, ToldLevel};
use std::alloc::{AllocError, Global};
use thread_frames::Level;

// The block of a number on a floor, where it can keep this under another level.
fn block_under(site: &Site<'_>, floor: &Floor, wanted: u64, kept: &ToldKept) -> Option<BlockId>
    requires { site.now.target < length (tables_of site.now.project.now) }
    ensures { FindsKept (λ k q. keeps_under k q (kept_of kept.now)) site.now floor.now wanted result }
{
    match search(site, floor, wanted) {
        Some(id) => {
            let block = site.project.block(site.target, id);
            if keeps_under(site.project, site.target, block, kept) {
                Some(id)
            } else {
                None
            }
        }
        None => None,
    }
}

// A level under another, made on a floor. The only error is want of memory.
fn stacked(
    alloc: Global,
    site: &Site<'_>,
    floor: &Floor,
    told: ToldLevel,
) -> Result<Option<Level>, AllocError>
    requires target { site.now.target < length (tables_of site.now.project.now) }
    requires short { is_short_level (level_of told) ≡ true }
    ensures { IfOk result (λ o. (under : List Item) → IsFloor (sheet_of site.now) (program_in site.now) (hat_of site.now) under floor.now → list_all (marker_fits (program_in site.now)) under ≡ true → Stacks site.now (level_of told) under o) }
{
    let ToldLevel { block, kept } = told;
    let wanted = match block {
        Some(wanted) => wanted,
        None => return Ok(None),
    };
    match block_under(site, floor, wanted, &kept) {
        Some(id) => {
            let level = level(alloc, Some(id), floor.warp, kept)?;
            Ok(Some(level))
        }
        None => Ok(None),
    }
}

// Levels under another, of which the bottom one stands first. The only error is want of memory.
pub(crate) fn all_stacked(
    alloc: Global,
    site: &Site<'_>,
    told: Vec<ToldLevel>,
) -> Result<Option<Vec<Level>>, AllocError>
    requires target { site.now.target < length (tables_of site.now.project.now) }
    requires short { list_all is_short_level (map level_of told.items) ≡ true }
    ensures { IfOk result (λ o. StacksAll site.now (map level_of told.items) (option_map (λ v. v.items) o)) }
{
    let mut made = Vec::new(alloc);
    for told in told {
        let floor = floor_on(site, made.as_slice());
        match stacked(alloc, site, &floor, told) {
            Ok(Some(level)) => made.push(level)?,
            Ok(None) => return Ok(None),
            Err(error) => return Err(error),
        }
    }
    Ok(Some(made))
}

// The block of a number on a floor, where it can keep this at the top.
fn block_first(
    site: &Site<'_>,
    floor: &Floor,
    clock: u64,
    wanted: u64,
    kept: &ToldKept,
) -> Option<BlockId>
    requires { site.now.target < length (tables_of site.now.project.now) }
    ensures { FindsKept (λ k q. keeps_first clock k q (kept_of kept.now)) site.now floor.now wanted result }
{
    match search(site, floor, wanted) {
        Some(id) => {
            let block = site.project.block(site.target, id);
            if keeps_first(site.project, site.target, clock, block, kept) {
                Some(id)
            } else {
                None
            }
        }
        None => None,
    }
}

// A top level that has a block, made on a floor. The only error is want of memory.
pub(crate) fn topped(
    alloc: Global,
    site: &Site<'_>,
    floor: &Floor,
    clock: u64,
    wanted: u64,
    kept: ToldKept,
) -> Result<Option<Level>, AllocError>
    requires target { site.now.target < length (tables_of site.now.project.now) }
    requires short { list_all is_short (values_kept (kept_of kept)) ≡ true }
    ensures { IfOk result (λ o. (under : List Item) → IsFloor (sheet_of site.now) (program_in site.now) (hat_of site.now) under floor.now → list_all (marker_fits (program_in site.now)) under ≡ true → Tops site.now clock (kept_of kept) wanted under o) }
{
    match block_first(site, floor, clock, wanted, &kept) {
        Some(id) => {
            let level = level(alloc, Some(id), floor.warp, kept)?;
            Ok(Some(level))
        }
        None => Ok(None),
    }
}
