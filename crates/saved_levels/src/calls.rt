//! What blocks call.

ghost use Rattle.std.specs.Prelude.{◌≡◌};
ghost use Rattle.std.specs.Option.{option_map};
ghost use Rattle.project_check.specs.Loaded.{program_of, sheet_at};
ghost use Rattle.project_check.specs.Procedures.{callee_in, procedure_in};
ghost use Rattle.project_spec.specs.Trees.{call_code, op_by};
ghost use Rattle.machine_spec.specs.Keeping.{is_calls};
ghost use Rattle.thread_frames.specs.Fit.{kind_of};
ghost use Rattle.saved_levels.specs.Making.{called_at};

use machine_spec::TargetId;
use opcode_table::{Kind, Opcode, kind};
use project_check::{Callee, Project};
use project_spec::{Block, Code, Mutation};

fn op_of(block: &Block) -> Opcode
    ensures { result ≡ op_by block.now.code }
{
    match &block.code {
        Code::Known(op) => *op,
        Code::Other(_) => Opcode::ProceduresPrototype,
    }
}

// The kind of a block.
pub(crate) fn kind_of(block: &Block) -> Kind
    ensures { result ≡ kind_of block.now }
{
    kind(op_of(block))
}

// The code of the procedure that a block calls; empty where it is no call.
fn call_code(block: &Block) -> &str
    ensures { result.now ≡ call_code block.now.mutation }
{
    match &block.mutation {
        Mutation::Call(code) => code.as_str(),
        Mutation::Prototype(_) => "",
        Mutation::Bad(_) => "",
        Mutation::None => "",
    }
}

fn is_calls(kind: Kind) -> bool
    ensures { result ≡ is_calls kind }
{
    matches!(kind, Kind::Calls)
}

// The procedure that a block of a target calls.
pub(crate) fn called<'p>(
    project: &'p Project,
    target: TargetId,
    block: &Block,
) -> Option<Callee<'p>>
    ensures { option_map (λ c. procedure_in (sheet_at target project.now) (callee_in c)) result ≡ called_at (program_of project.now) target block.now }
{
    if is_calls(kind_of(block)) {
        project.callee(target, call_code(block))
    } else {
        None
    }
}
