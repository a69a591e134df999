//! The text by which a hat is found.

ghost use Rattle.std.specs.Prelude.{◌≡◌, map, option_map, unwrap_or, [], IfOk};
ghost use Rattle.opcode_table.specs.Table.{row};
ghost use Rattle.project_spec.specs.Trees.{fields_of, target_of_link};
ghost use Rattle.scratch_values.specs.Named.{item_named};
ghost use Rattle.hat_index.specs.Hats.{key_text, first_name};

use machine_spec::BlockId;
use opcode_table::{Opcode, spec};
use project_json::Text;
use project_spec::{Block, Link};
use scratch_values::{VarName, fold};
use std::alloc::{AllocError, Global};

// The name of the field of a hat; None where its opcode has none.
fn field_name(op: Opcode) -> Option<&'static str>
    ensures { option_map (λ n. n.now) result ≡ first_name (row op).fields }
{
    match spec(op).fields {
        [name, ..] => Some(*name),
        [] => None,
    }
}

// The text of the first field with the name; None where there is none.
fn text_in<'a>(fields: &'a [(Text, VarName)], name: &str) -> Option<&'a Text>
    ensures { option_map (λ t. t.now) result ≡ item_named name.now (map (λ f. (f.0, f.1.name)) fields.now) }
{
    for field in fields {
        if field.0.as_str() == name {
            return Some(&field.1.name);
        }
    }
    None
}

// The text of a field of a block; empty where it has no such field.
fn field<'a>(block: &'a Block, name: &str) -> &'a str
    ensures { result.now ≡ unwrap_or (item_named name.now (fields_of block.now)) [] }
{
    match text_in(block.fields.as_slice(), name) {
        Some(text) => text.as_str(),
        None => "",
    }
}

// The folded text of a hat's field; empty where its opcode has none.
pub(crate) fn key_text(alloc: Global, op: Opcode, block: &Block) -> Result<Text, AllocError>
    ensures { IfOk result (λ t. t ≡ key_text op (fields_of block.now)) }
{
    match field_name(op) {
        Some(name) => fold(alloc, field(block, name)),
        None => Ok(Text::new(alloc)),
    }
}

// The block below a block.
pub(crate) fn next_of(block: &Block) -> Option<BlockId>
    ensures { result ≡ target_of_link block.now.next }
{
    match &block.next {
        Some(Link::To(next)) => Some(*next),
        Some(Link::Unknown(_)) => None,
        None => None,
    }
}
