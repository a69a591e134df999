//! The names of the parameters of a call.

ghost use Rattle.std.specs.Prelude.{◌≡◌, ◌≤◌, map, length, bytes_eq, take, slice_get};
ghost use Rattle.std.specs.List.{list_any};
ghost use Rattle.project_check.specs.Loaded.{program_of};
ghost use Rattle.machine_spec.specs.Legal.{distinct};
ghost use Rattle.saved_parts.specs.Telling.{param_of};
ghost use Rattle.saved_spec.specs.ThreadRules.{has_names, same_texts};
ghost use Rattle.saved_levels.specs.Making.{called_at};
ghost use Rattle.saved_levels.specs.Naming.{has_at};

use crate::calls::called;
use machine_spec::TargetId;
use project_check::Project;
use project_json::Text;
use project_spec::Block;
use saved_parts::ToldParam;

// Whether a parameter among the first ones has the name.
fn is_before(params: &[ToldParam], count: usize, name: &str) -> bool
    requires { count ≤ length params.now }
    ensures { result ≡ list_any (λ p. bytes_eq p.name name.now) (take count params.now) }
{
    params[..count]
        .iter()
        .any(|param| param.name.as_str() == name)
}

// Whether the parameter at a place has the name.
fn is_at(params: &[ToldParam], place: usize, name: &str) -> bool
    ensures { result ≡ has_at (λ n. bytes_eq n name.now) (slice_get (map (λ p. p.name) params.now) place) }
{
    match params.get(place) {
        Some(param) => param.name.as_str() == name,
        None => false,
    }
}

// Whether the parameters have these names, each once, in order.
fn are_named(params: &[ToldParam], names: &[Text]) -> bool
    ensures { result ≡ same_texts (map (λ p. p.name) params.now) (distinct names.now) }
{
    let mut count = 0;
    for name in names {
        let name = name.as_str();
        if !is_before(params, count, name) {
            if is_at(params, count, name) {
                count += 1;
            } else {
                return false;
            }
        }
    }
    count == params.len()
}

// Whether the parameters have the names of the procedure that a block calls.
pub(crate) fn have_names(
    project: &Project,
    target: TargetId,
    block: &Block,
    params: &[ToldParam],
) -> bool
    ensures { result ≡ has_names (map param_of params.now) (called_at (program_of project.now) target block.now) }
{
    match called(project, target, block) {
        Some(callee) => are_named(params, callee.prototype.names.as_slice()),
        None => false,
    }
}
