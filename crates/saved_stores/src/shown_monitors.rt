//! Monitors that blocks added.

ghost use Rattle.std.specs.Prelude.{◌≡◌, true, map, IfOk};
ghost use Rattle.std.specs.List.{list_all};
ghost use Rattle.saved_parts.specs.Telling.{shown_of, made_of};
ghost use Rattle.project_check.specs.Loaded.{basis_of};
ghost use Rattle.saved_stores.specs.Held.{is_of};

use machine_spec::{Made, MadeList, Shown, TargetId};
use project_check::Project;
use saved_parts::{ToldMade, ToldMadeList};
use std::alloc::{AllocError, Global};

// What the monitor shows, a variable or list that its target has.
fn shown(project: &Project, told: ToldMade) -> Shown
    requires { is_of (basis_of project.now) told ≡ true }
    ensures { result ≡ shown_of told.is_list told.target told.index }
{
    let records = project.records();
    let _count = records.targets();
    let target = TargetId(told.target as u32);
    let _record = records.target(target);
    let index = told.index as u32;
    if told.is_list {
        Shown::List(target, index)
    } else {
        Shown::Variable(target, index)
    }
}

// The monitors that are told, each of what a target has. The only error is want of memory.
pub(crate) fn made(
    alloc: Global,
    project: &Project,
    told: &ToldMadeList,
) -> Result<MadeList, AllocError>
    requires { list_all (is_of (basis_of project.now)) told.now ≡ true }
    ensures { IfOk result (λ made. made ≡ map made_of told.now) }
{
    let mut made = MadeList::new(alloc);
    let monitors = told.as_slice();
    for monitor in monitors {
        let what = shown(project, *monitor);
        made.push(Made {
            what,
            visible: monitor.visible,
        })?;
    }
    Ok(made)
}
