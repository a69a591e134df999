//! Calls of procedures.

ghost use Rattle.std.specs.Prelude.{◌≡◌, [], unwrap_or, IfOk, OnOk};
ghost use Rattle.opcode_table.specs.declared.kinds.Kind.TheVariants.{Calls};
ghost use Rattle.project_check.specs.Loaded.{program_of, sheet_at};
ghost use Rattle.project_check.specs.Procedures.{callee_in, procedure_in};
ghost use Rattle.scratch_values.specs.Named.{item_named, with_param};
ghost use Rattle.machine_spec.specs.ControlRows.{call_row, call_some, params_from, params_of};
ghost use Rattle.machine_spec.specs.Program.{procedure};
ghost use Rattle.machine_spec.specs.Stores.{instance_at};
ghost use Rattle.control_blocks.specs.Same.{IsOnly, KeepsWell};

use machine_spec::{Boxed, Context, Control, InstanceId, TargetId};
use project_check::{Callee, Project};
use project_json::Text;
use project_spec::Prototype;
use scratch_values::{Args, Params, Value};
use std::alloc::{AllocError, Global};
use targets::Targets;

// One parameter more: under its name the input of its id, or its default.
fn put(
    args: &Args<'_>,
    id: &Text,
    name: &Text,
    default: &Value,
    params: &mut Params,
) -> Result<(), AllocError>
    ensures { OnOk result (params.new ≡ with_param name.now (unwrap_or (item_named id.now args.entry.now.values) default.now) params.old) }
{
    let value = match args.value(id.as_str()) {
        Some(value) => value.clone()?,
        None => default.clone()?,
    };
    params.put(name.clone()?, value)
}

// For each argument id, under its name, the input of that id, or the default. The only error is want of memory.
fn params(alloc: Global, args: &Args<'_>, prototype: &Prototype) -> Result<Params, AllocError>
    ensures { IfOk result (λ ps. ps ≡ params_from args.entry.now prototype.now.ids prototype.now.names prototype.now.defaults []) }
{
    let mut params = Params::new(alloc);
    for (k, id) in prototype.ids.as_slice().iter().enumerate() {
        let name = match prototype.names.get(k) {
            Some(name) => name,
            None => return Ok(params),
        };
        let default = match prototype.defaults.get(k) {
            Some(default) => default,
            None => return Ok(params),
        };
        put(args, id, name, default, &mut params)?;
    }
    Ok(params)
}

// The procedure of the code is entered, where the instance's target has one; else the call does nothing. The only error is
// want of memory.
fn enter(
    alloc: Global,
    code: &str,
    args: &Args<'_>,
    target: TargetId,
    project: &Project,
    context: &mut Context,
) -> Result<Control, AllocError>
    ensures row { IfOk result (λ r. IsOnly (call_some (procedure target code.now (program_of project.now)) args.entry.now) context.new r) }
    ensures keeps { IfOk result (λ r. KeepsWell Calls context.new r) }
{
    match project.callee(target, code) {
        Some(callee) => {
            let params = params(alloc, args, callee.prototype)?;
            let params = Boxed::new(alloc, params)?;
            *context = Context::Called;
            Ok(Control::Call {
                definition: callee.definition,
                params,
            })
        }
        None => {
            *context = Context::Fresh;
            Ok(Control::Next)
        }
    }
}

// A call of the procedure with this code, found in the target of the instance. One that has returned goes on. The only error
// is want of memory.
pub(crate) fn call(
    alloc: Global,
    code: &str,
    args: &Args<'_>,
    here: InstanceId,
    project: &Project,
    targets: &Targets,
    context: &mut Context,
) -> Result<Control, AllocError>
    ensures row { IfOk result (λ r. IsOnly (call_row context.old (procedure (instance_at here targets.now).of code.now (program_of project.now)) args.entry.now) context.new r) }
    ensures keeps { IfOk result (λ r. KeepsWell Calls context.new r) }
{
    match context {
        Context::Called => {
            *context = Context::Fresh;
            Ok(Control::Next)
        }
        _ => {
            let target = targets.target(here);
            enter(alloc, code, args, target, project, context)
        }
    }
}
