//! The lines of monitors, by their labels.

ghost use Rattle.std.specs.Prelude.{◌≡◌, ◌++◌, ◌∷◌, flat_map, OnOk};
ghost use Rattle.std.specs.Option.{option_map};
ghost use Rattle.machine_spec.specs.FrameText as machine;
ghost use Rattle.stage_frame.specs.Told.{told_value};

use crate::told_values::{Told, push_told, push_value};
use crate::words::{push_natural, push_quoted};
use quoted_text::push_inner;
use scratch_values::Value;
use std::alloc::AllocError;

// Appends a space and the name of a sprite, a colon, a space and another name, together in quotes.
fn push_both(out: &mut Vec<u8>, sprite: &str, name: &str) -> Result<(), AllocError>
    ensures { OnOk result (out.new.items ≡ out.old.items ++ 32 ∷ machine.quoted (sprite.now ++ 58 ∷ 32 ∷ name.now)) }
{
    out.extend_from_slice(b" \"")?;
    push_inner(out, sprite)?;
    out.extend_from_slice(b": ")?;
    push_inner(out, name)?;
    out.push(b'"')?;
    Ok(())
}

// Appends a space and a label, with the name of its sprite in front where it has one.
fn push_label(out: &mut Vec<u8>, sprite: Option<&str>, name: &str) -> Result<(), AllocError>
    ensures { OnOk result (out.new.items ≡ out.old.items ++ 32 ∷ machine.label (option_map (λ s. s.now) sprite.entry) name.now) }
{
    match sprite {
        Some(sprite) => push_both(out, sprite, name),
        None => push_quoted(out, name),
    }
}

// Appends the line of a monitor that shows one value.
pub(crate) fn push_value_line(
    out: &mut Vec<u8>,
    sprite: Option<&str>,
    name: &str,
    told: &Told<'_>,
) -> Result<(), AllocError>
    ensures { OnOk result (out.new.items ≡ out.old.items ++ machine.value_line (machine.label (option_map (λ s. s.now) sprite.entry) name.now) (told_value told.now)) }
{
    out.extend_from_slice(b"monitor")?;
    push_label(out, sprite, name)?;
    push_told(out, told)?;
    out.push(b'\n')?;
    Ok(())
}

// Appends the line of an item.
fn push_item(out: &mut Vec<u8>, item: &Value) -> Result<(), AllocError>
    ensures { OnOk result (out.new.items ≡ out.old.items ++ machine.item_line item.now) }
{
    out.extend_from_slice(b"item")?;
    push_value(out, item)?;
    out.push(b'\n')?;
    Ok(())
}

// Appends the lines of items.
fn push_items(out: &mut Vec<u8>, items: &[Value]) -> Result<(), AllocError>
    ensures { OnOk result (out.new.items ≡ out.old.items ++ flat_map machine.item_line items.now) }
{
    for item in items {
        push_item(out, item)?;
    }
    Ok(())
}

// Appends the lines of a monitor that shows a list.
pub(crate) fn push_list_lines(
    out: &mut Vec<u8>,
    sprite: Option<&str>,
    name: &str,
    items: &[Value],
) -> Result<(), AllocError>
    ensures { OnOk result (out.new.items ≡ out.old.items ++ machine.list_lines (machine.label (option_map (λ s. s.now) sprite.entry) name.now) items.now) }
{
    out.extend_from_slice(b"list")?;
    push_label(out, sprite, name)?;
    push_natural(out, items.len() as u64)?;
    out.push(b'\n')?;
    push_items(out, items)
}
