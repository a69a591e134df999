//! The monitors that are shown.

ghost use Rattle.std.specs.Prelude.{◌≡◌};
ghost use Rattle.std.specs.List.{list_all};
ghost use Rattle.saved_parts.specs.Telling.{made_of};
ghost use Rattle.project_check.specs.Loaded.{basis_of};
ghost use Rattle.saved_spec.specs.Rules as rules;

use crate::project_parts::{lists, variables};
use project_check::Project;
use saved_parts::ToldMade;

// Whether what a monitor shows is a variable or list of the file.
fn is_shown(project: &Project, made: &ToldMade) -> bool
    ensures { result ≡ rules.is_shown (basis_of project.now) (made_of made.now).what }
{
    if made.is_list {
        made.index < lists(project, made.target) as u64
    } else {
        made.index < variables(project, made.target) as u64
    }
}

// The same of all monitors.
pub(crate) fn are_shown(project: &Project, made: &[ToldMade]) -> bool
    ensures { result ≡ list_all (λ m. rules.is_shown (basis_of project.now) (made_of m).what) made.now }
{
    made.iter().all(|monitor| is_shown(project, monitor))
}
