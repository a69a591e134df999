//! The clock, the devices and the counters.

ghost use Rattle.std.specs.Prelude.{◌≡◌, ◌&&◌, length, nat_le, unsigned_abs, IfOk};
ghost use Rattle.std.specs.List.{list_all};
ghost use Rattle.machine_spec.specs.ScriptText.{last_clock};
ghost use Rattle.project_check.specs.Loaded.{basis_of};
ghost use Rattle.project_spec.specs.Basis.{records_of};
ghost use Rattle.saved_spec.specs.Rules as rules;

use crate::distinct::texts_differ;
use crate::given_numbers::is_next;
use crate::keys::is_key_name;
use crate::project_parts::targets;
use machine_spec::LAST_CLOCK;
use project_check::Project;
use project_json::Text;
use saved_parts::{ToldMouse, ToldNext, ToldRun};
use std::alloc::{AllocError, Global};

const MOST_X: u64 = 240;

const MOST_Y: u64 = 180;

// Whether the clock is at most 9,000,000,000,000 milliseconds.
pub(crate) fn is_in_time(run: &ToldRun) -> bool
    ensures { result ≡ nat_le run.now.clock last_clock }
{
    run.clock <= LAST_CLOCK
}

// Whether the timer was reset no later than the clock.
pub(crate) fn was_reset(run: &ToldRun) -> bool
    ensures { result ≡ nat_le run.now.timer run.now.clock }
{
    run.timer <= run.clock
}

// Whether the mouse is on the stage.
pub(crate) fn is_on_stage(mouse: &ToldMouse) -> bool
    ensures { result ≡ (nat_le (unsigned_abs mouse.now.x) 240 && nat_le (unsigned_abs mouse.now.y) 180) }
{
    mouse.x.unsigned_abs() <= MOST_X && mouse.y.unsigned_abs() <= MOST_Y
}

// Whether all these are names of keys.
fn are_keys(names: &[Text]) -> bool
    ensures { result ≡ list_all rules.is_key_name names.now }
{
    names.iter().all(|name| is_key_name(name.as_str()))
}

// Whether these are names of keys, no two the same.
pub(crate) fn are_held(alloc: Global, names: &[Text]) -> Result<bool, AllocError>
    ensures { IfOk result (λ r. r ≡ (list_all rules.is_key_name names.now && rules.texts_differ names.now)) }
{
    let differ = texts_differ(alloc, names)?;
    Ok(are_keys(names) && differ)
}

// Whether the numbers that are given next are in their ranges.
pub(crate) fn are_next(project: &Project, next: &ToldNext) -> bool
    ensures { result ≡ (rules.is_next next.now.thread && rules.is_next next.now.instance && rules.is_next next.now.usage
        && nat_le (length (records_of (basis_of project.now)).targets) next.now.instance) }
{
    is_next(next.thread)
        && is_next(next.instance)
        && is_next(next.usage)
        && u64::from(targets(project)) <= next.instance
}
