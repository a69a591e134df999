//! Where the links of a block lead.

ghost use Rattle.std.specs.Prelude.{◌≡◌, ℕ, List, true, IfOk};
ghost use Rattle.std.specs.List.{filter_map};
ghost use Rattle.project_spec.specs.Linked.{is_branch};
ghost use Rattle.project_spec.specs.Trees.{branch, branch_by, call_code, target_of_link};
ghost use Rattle.cached_blocks.specs.Cached.{branch_link};

use machine_spec::BlockId;
use project_json::Text;
use project_spec::{Input, Link, Mutation};
use std::alloc::{AllocError, Global};

/// The block that a link leads to.
pub fn linked(link: &Option<Link>) -> Option<BlockId>
    ensures { result ≡ target_of_link link.now }
{
    match link {
        Some(Link::To(id)) => Some(*id),
        Some(Link::Unknown(_)) => None,
        None => None,
    }
}

/// The block with which the branch in an input begins.
pub fn first_of(input: &Input) -> Option<BlockId>
    ensures { (name : List ℕ) → branch_by name input.now ≡ (name, result) }
{
    match input {
        Input::Reporter(Link::To(id)) => Some(*id),
        Input::Reporter(Link::Unknown(_)) => None,
        Input::Literal(_) => None,
        Input::Variable(_) => None,
        Input::List(_) => None,
        Input::Absent => None,
    }
}

/// The block with which the branch of this name, which begins as those of branches do, begins.
pub fn branch(inputs: &[(Text, Input)], name: &str) -> Option<BlockId>
    requires { is_branch name.now ≡ true }
    ensures { result ≡ branch_link name.now (filter_map branch inputs.now) }
{
    for (own, input) in inputs {
        if own.as_str() == name {
            return first_of(input);
        }
    }
    None
}

/// The code of the procedure that a block calls.
pub fn call_code(alloc: Global, mutation: &Mutation) -> Result<Text, AllocError>
    ensures { IfOk result (λ code. code ≡ call_code mutation.now) }
{
    match mutation {
        Mutation::Call(code) => code.clone(),
        Mutation::None => Text::from_str(alloc, ""),
        Mutation::Prototype(_) => Text::from_str(alloc, ""),
        Mutation::Bad(_) => Text::from_str(alloc, ""),
    }
}
