//! Counts what an accepted project has.

ghost use Rattle.std.specs.Prelude.{◌≡◌, ◌≤◌, ◌<◌, ◌^◌, length, map, not, IfOk};
ghost use Rattle.std.specs.List.{AllZip, count_by, sum_by};
ghost use Rattle.project_spec.specs.Linked.{is_head};
ghost use Rattle.project_check.specs.Loaded.{tables_of};
ghost use Rattle.block_checks.specs.Kept.{AreChecked};
ghost use Rattle.report_command.specs.Counts.{script_count, loose_count, AreCounts};

use crate::counts::Counts;
use block_checks::in_scripts;
use block_table::is_head;
use machine_spec::TargetId;
use project_check::Project;
use project_spec::Block;
use std::alloc::{AllocError, Global};

// How many of the blocks are heads.
fn heads_of(blocks: &[Block]) -> usize
    ensures value { result ≡ count_by is_head blocks.now }
    ensures within { result ≤ length blocks.now }
{
    let mut count = 0;
    for block in blocks {
        if is_head(block) {
            count += 1;
        }
    }
    count
}

// How many of the blocks are in no script.
fn loose_of(flags: &[bool]) -> usize
    ensures value { result ≡ count_by not flags.now }
    ensures within { result ≤ length flags.now }
{
    let mut count = 0;
    for flag in flags {
        if !*flag {
            count += 1;
        }
    }
    count
}

// Whether each block of each target is in a script.
fn all_flags(alloc: Global, project: &Project) -> Result<Vec<Vec<bool>>, AllocError>
    ensures { IfOk result (λ v. AllZip AreChecked (tables_of project.now) (map (λ f. f.items) v.items)) }
{
    let mut all = Vec::new(alloc);
    for target in 0..project.target_count() {
        let flags = in_scripts(alloc, project.blocks(TargetId(target)))?;
        all.push(flags)?;
    }
    Ok(all)
}

// How many scripts a project has.
fn scripts_in(project: &Project) -> u32
    ensures { result ≡ script_count (tables_of project.now) }
{
    // that it fits tells that the sum does
    let _few = project.block_count();
    let mut total = 0;
    for target in 0..project.target_count() {
        total += heads_of(project.blocks(TargetId(target)).blocks()) as u32;
    }
    total
}

// How many blocks are in no script.
fn loose_in(all: &[Vec<bool>]) -> u32
    requires { sum_by (λ f. count_by not f.items) all.now < 2 ^ 32 }
    ensures { result ≡ sum_by (λ f. count_by not f.items) all.now }
{
    let mut total = 0;
    for flags in all {
        total += loose_of(flags) as u32;
    }
    total
}

/// What an accepted project has. The only error is want of memory.
pub(crate) fn count(alloc: Global, project: &Project) -> Result<Counts, AllocError>
    ensures { IfOk result (AreCounts (tables_of project.now)) }
{
    let blocks = project.block_count();
    let flags = all_flags(alloc, project)?;
    Ok(Counts {
        targets: project.target_count(),
        scripts: scripts_in(project),
        blocks,
        loose: loose_in(&flags),
    })
}
