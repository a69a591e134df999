//! What a field or an input of a block names.

ghost use Rattle.std.specs.Prelude.{◌≡◌, bytes_eq, option_map};
ghost use Rattle.project_spec.specs.Resolving.{field_naming, field_sort, input_naming, is_own_field};
ghost use Rattle.std.specs.List.{list_any};
ghost use Rattle.name_resolving.specs.Directory.{sort_in};
ghost use Rattle.name_resolving.specs.Naming.{listed};

use crate::sort::Sort;
use opcode_table::spec;
use project_json::Text;
use project_spec::{Code, Input};
use scratch_values::VarName;

/// The name of a variable or a list, and the field or the input of a block that has it.
#[derive(Debug, Drop)]
pub(crate) struct Naming<'a> {
    pub(crate) in_input: bool,
    pub(crate) part: &'a Text,
    pub(crate) sort: Sort,
    pub(crate) name: &'a VarName,
}

// What a field of that name leads to.
fn field_sort(part: &str) -> Option<Sort>
    ensures { option_map sort_in result ≡ field_sort part.now }
{
    match part {
        "VARIABLE" => Some(Sort::Variable),
        "LIST" => Some(Sort::List),
        _ => None,
    }
}

// Whether a text is among these.
fn is_among(part: &str, fields: &[&str]) -> bool
    ensures { result ≡ list_any (λ field. bytes_eq part.now field.now) fields.now }
{
    fields.iter().any(|field| part == *field)
}

// Whether the table names a field of the opcode so.
fn is_own_field(code: &Code, part: &str) -> bool
    ensures { result ≡ is_own_field code.now part.now }
{
    match code {
        Code::Known(op) => is_among(part, spec(*op).fields),
        Code::Other(_) => false,
    }
}

/// What a field names. `None` where its opcode has no such field, or the field leads to no variable or list.
pub(crate) fn field_naming<'a>(code: &Code, part: &'a Text, name: &'a VarName) -> Option<Naming<'a>>
    ensures { listed result ≡ field_naming code.now (part.now, name.now) }
{
    if !is_own_field(code, part.as_str()) {
        return None;
    }
    match field_sort(part.as_str()) {
        Some(sort) => Some(Naming {
            in_input: false,
            part,
            sort,
            name,
        }),
        None => None,
    }
}

/// What an input names. `None` where it holds no variable and no list.
pub(crate) fn input_naming<'a>(part: &'a Text, input: &'a Input) -> Option<Naming<'a>>
    ensures { listed result ≡ input_naming (part.now, input.now) }
{
    match input {
        Input::Variable(name) => Some(Naming {
            in_input: true,
            part,
            sort: Sort::Variable,
            name,
        }),
        Input::List(name) => Some(Naming {
            in_input: true,
            part,
            sort: Sort::List,
            name,
        }),
        Input::Literal(_) => None,
        Input::Reporter(_) => None,
        Input::Absent => None,
    }
}
