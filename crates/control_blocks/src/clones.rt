//! Stopping scripts, and making and deleting clones.

ghost use Rattle.std.specs.Prelude.{◌≡◌, codes, IfOk};
ghost use Rattle.opcode_table.specs.declared.kinds.Kind.TheVariants.{Plain};
ghost use Rattle.project_check.specs.Loaded.{program_of};
ghost use Rattle.machine_spec.specs.ControlRows.{clone_control, stop_control};
ghost use Rattle.machine_spec.specs.declared.threads.Control.TheVariants.{DeleteClone};
ghost use Rattle.machine_spec.specs.declared.threads.Context.TheVariants.{Fresh};
ghost use Rattle.machine_spec.specs.View.{field_at, text_at};

use block_arguments::{field, text};
use machine_spec::{Context, Control, InstanceId};
use project_check::Project;
use scratch_values::Args;
use std::alloc::{AllocError, Global};
use targets::Targets;

// `stop STOP_OPTION`: what each option stops; another option stops nothing.
pub(crate) fn stop(args: &Args<'_>, context: &mut Context) -> Control
    ensures control { result ≡ stop_control (field_at (codes "STOP_OPTION") args.entry.now) }
    ensures context { context.new ≡ Fresh }
{
    *context = Context::Fresh;
    let what = field(args, "STOP_OPTION");
    if what == "all" {
        return Control::StopAll;
    }
    if what == "this script" {
        return Control::StopThis;
    }
    if what == "other scripts in sprite" || what == "other scripts in stage" {
        return Control::StopOthers;
    }
    Control::Next
}

// The clone of the instance itself, or of the sprite of a name, where there is one.
fn clone_of(project: &Project, targets: &Targets, here: InstanceId, name: &str) -> Control
    ensures { result ≡ clone_control (program_of project.now) here name.now }
{
    if name == "_myself_" {
        return Control::Clone { of: here };
    }
    match targets.sprite_named(project.records(), name) {
        Some(of) => Control::Clone { of },
        None => Control::Next,
    }
}

// `create clone of CLONE_OPTION`. The only error is want of memory.
pub(crate) fn create_clone(
    alloc: Global,
    args: &Args<'_>,
    here: InstanceId,
    project: &Project,
    targets: &Targets,
    context: &mut Context,
) -> Result<Control, AllocError>
    ensures control { IfOk result (λ r. r ≡ clone_control (program_of project.now) here (text_at (codes "CLONE_OPTION") args.entry.now)) }
    ensures context { IfOk result (λ r. context.new ≡ Fresh) }
{
    let name = text(alloc, args, "CLONE_OPTION")?;
    *context = Context::Fresh;
    Ok(clone_of(project, targets, here, name.as_str()))
}

// `delete this clone`.
#[inline]
pub(crate) fn delete_clone(context: &mut Context) -> Control
    ensures control { result ≡ DeleteClone }
    ensures context { context.new ≡ Fresh }
{
    *context = Context::Fresh;
    Control::DeleteClone
}
