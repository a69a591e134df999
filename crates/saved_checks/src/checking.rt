//! The rules, one group after another.

ghost use Rattle.std.specs.Prelude.{◌≡◌, IfOk};
ghost use Rattle.std.specs.Option.{option_copied};
ghost use Rattle.saved_parts.specs.Telling.{told_of};
ghost use Rattle.project_check.specs.Loaded.{basis_of};
ghost use Rattle.saved_spec.specs.Rules.{broken};

use crate::groups::{of_devices, of_instances, of_standing, of_texts, of_threads};
use project_check::Project;
use saved_parts::ToldRun;
use std::alloc::{AllocError, Global};

/// The member of a saved run that breaks the first of the rules on its parts that is broken, in the order of
/// docs/formats.md, section 5. `None` where the run keeps all of them. The only error is want of memory.
pub fn broken_rule(
    alloc: Global,
    project: &Project,
    run: &ToldRun,
) -> Result<Option<&'static str>, AllocError>
    ensures { IfOk result (λ r. option_copied r ≡ broken (basis_of project.now) (told_of run.now)) }
{
    let devices = of_devices(alloc, project, run)?;
    if devices.is_some() {
        return Ok(devices);
    }
    let instances = of_instances(alloc, project, run)?;
    if instances.is_some() {
        return Ok(instances);
    }
    let standing = of_standing(project, run);
    if standing.is_some() {
        return Ok(standing);
    }
    let texts = of_texts(project, run);
    if texts.is_some() {
        return Ok(texts);
    }
    of_threads(alloc, project, run)
}
