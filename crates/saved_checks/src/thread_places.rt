//! Threads against the instances and the blocks that they name.

ghost use Rattle.std.specs.Prelude.{◌≡◌, ◌&&◌, true, is_some, map, nat_lt, unwrap_or, IfOk};
ghost use Rattle.std.specs.List.{list_all};
ghost use Rattle.std.specs.Option.{option_map_or};
ghost use Rattle.project_spec.specs.Basis as basis;
ghost use Rattle.project_check.specs.Loaded.{basis_of};
ghost use Rattle.project_spec.specs.Basis.{blocks_of};
ghost use Rattle.saved_spec.specs.Rules as rules;
ghost use Rattle.saved_checks.specs.Live.{target_in};

use crate::levels::are_in;
use crate::live_targets::LiveTargets;
use crate::project_parts::{blocks, is_hat};
use crate::referents::{is_named, threads_differ};
use project_check::Project;
use saved_parts::ToldThread;
use std::alloc::{AllocError, Global};

// The target of the instance with a number; 0 where none is live.
fn target(live: &LiveTargets, of: u64) -> u64
    ensures { result ≡ unwrap_or (target_in live.now of) 0 }
{
    match live.get(of) {
        Some(target) => target,
        None => 0,
    }
}

// Whether the hat of a thread heads a script of the target of its instance.
fn has_hat(project: &Project, live: &LiveTargets, thread: &ToldThread) -> bool
    ensures { result ≡ basis.is_hat (unwrap_or (target_in live.now thread.now.of) 0) thread.now.hat (basis_of project.now) }
{
    is_hat(project, target(live, thread.of), thread.hat)
}

// Whether a thread is of a live instance, and of a hat of that, with a number before the next.
fn is_of_hat(project: &Project, live: &LiveTargets, next: u64, thread: &ToldThread) -> bool
    ensures { result ≡ ((is_some (target_in live.now thread.now.of) && nat_lt thread.now.serial next)
        && basis.is_hat (unwrap_or (target_in live.now thread.now.of) 0) thread.now.hat (basis_of project.now)) }
{
    is_named(live, next, thread.of, thread.serial) && has_hat(project, live, thread)
}

// The same of all threads.
fn are_of_hats(project: &Project, live: &LiveTargets, next: u64, threads: &[ToldThread]) -> bool
    ensures { result ≡ list_all (λ x. (is_some (target_in live.now x.of) && nat_lt x.serial next)
        && basis.is_hat (unwrap_or (target_in live.now x.of) 0) x.hat (basis_of project.now)) threads.now }
{
    threads
        .iter()
        .all(|thread| is_of_hat(project, live, next, thread))
}

// Whether that is so, and no two threads have one number.
pub(crate) fn have_hats(
    alloc: Global,
    project: &Project,
    live: &LiveTargets,
    next: u64,
    threads: &[ToldThread],
) -> Result<bool, AllocError>
    ensures { IfOk result (λ r. r ≡ (list_all (λ x. (is_some (target_in live.now x.of) && nat_lt x.serial next)
        && basis.is_hat (unwrap_or (target_in live.now x.of) 0) x.hat (basis_of project.now)) threads.now && rules.differ (map (λ x. x.serial) threads.now))) }
{
    let differ = threads_differ(alloc, threads)?;
    Ok(are_of_hats(project, live, next, threads) && differ)
}

// Whether the levels of a thread have blocks of its target, or none.
fn has_blocks(project: &Project, live: &LiveTargets, thread: &ToldThread) -> bool
    ensures { result ≡ list_all (λ l. option_map_or (λ k. nat_lt k (blocks_of (unwrap_or (target_in live.now thread.now.of) 0) (basis_of project.now))) l.block true) thread.now.levels }
{
    let blocks = blocks(project, target(live, thread.of));
    are_in(blocks, thread.levels.as_slice())
}

// The same of all threads.
pub(crate) fn have_blocks(project: &Project, live: &LiveTargets, threads: &[ToldThread]) -> bool
    ensures { result ≡ list_all (λ x. list_all (λ l. option_map_or (λ k. nat_lt k (blocks_of (unwrap_or (target_in live.now x.of) 0) (basis_of project.now))) l.block true) x.levels) threads.now }
{
    threads
        .iter()
        .all(|thread| has_blocks(project, live, thread))
}
