//! The lines of the stage and of the sprites.

ghost use Rattle.std.specs.Prelude.{◌≡◌, ◌+◌, ◌<◌, ◌++◌, ◌∷◌, [], codes, flat_map, length, nat_lt, if◌then◌else◌, OnOk};
ghost use Rattle.std.specs.Fmt.{decimal};
ghost use Rattle.std.specs.List.{enumerate_from};
ghost use Rattle.scratch_number.specs.Text as numbers;
ghost use Rattle.machine_spec.specs.FrameText as machine;
ghost use Rattle.machine_spec.specs.FrameText.{costume_words, quoted};
ghost use Rattle.machine_spec.specs.Stores.{record_of};
ghost use Rattle.target_records.specs.Records.{records_in};
ghost use Rattle.stage_frame.specs.Spaced.{spaced};

use crate::effects::push_effects;
use crate::names::target_name;
use crate::words::{push_natural, push_number, push_quoted, push_word};
use machine_spec::{Instance, Say, Style};
use std::alloc::AllocError;
use target_records::Records;

fn style_text(style: Style) -> &'static str
    ensures { result.now ≡ machine.style_text style }
{
    match style {
        Style::AllAround => "all around",
        Style::LeftRight => "left-right",
        Style::DontRotate => "don't rotate",
    }
}

fn say_text(kind: Say) -> &'static str
    ensures { result.now ≡ machine.say_text kind }
{
    match kind {
        Say::Say => "say",
        Say::Think => "think",
    }
}

// Whether an instance is an original or a clone: an original has the place of its target as its number.
fn origin_text(records: &Records, instance: &Instance) -> &'static str
    ensures { result.now ≡ (if nat_lt instance.now.number (length (records_in records.now).targets) then codes "original" else codes "clone") }
{
    if instance.number.0 < u64::from(records.targets()) {
        "original"
    } else {
        "clone"
    }
}

fn shown_text(visible: bool) -> &'static str
    ensures { result.now ≡ (if visible then codes "shown" else codes "hidden") }
{
    if visible { "shown" } else { "hidden" }
}

// Appends the number of the present costume, from 1, and its name.
fn push_costume(out: &mut Vec<u8>, records: &Records, instance: &Instance) -> Result<(), AllocError>
    ensures { OnOk result (out.new.items ≡ out.old.items ++ spaced (costume_words (records_in records.now) instance.now)) }
{
    push_natural(out, u64::from(instance.costume) + 1)?;
    let name = records.costume_name(instance.of, instance.costume);
    push_quoted(out, name)?;
    Ok(())
}

// Appends the line of the stage.
fn push_stage(out: &mut Vec<u8>, records: &Records, instance: &Instance) -> Result<(), AllocError>
    ensures { OnOk result (out.new.items ≡ out.old.items ++ machine.instance_line (records_in records.now) 0 instance.now) }
{
    out.extend_from_slice(b"stage")?;
    push_costume(out, records, instance)?;
    out.push(b'\n')?;
    Ok(())
}

// Appends which sprite it is: its place, the name of its target, whether it is an original, and whether it is visible.
fn push_sprite_front(
    out: &mut Vec<u8>,
    records: &Records,
    place: u64,
    instance: &Instance,
) -> Result<(), AllocError>
    ensures { OnOk result (out.new.items ≡ out.old.items ++ spaced (decimal place ∷ quoted (record_of instance.now (records_in records.now)).name ∷ (if nat_lt instance.now.number (length (records_in records.now).targets) then codes "original" else codes "clone") ∷ (if instance.now.visible then codes "shown" else codes "hidden") ∷ [])) }
{
    push_natural(out, place)?;
    push_quoted(out, target_name(records, instance.of))?;
    push_word(out, origin_text(records, instance))?;
    push_word(out, shown_text(instance.visible))?;
    Ok(())
}

// Appends where a sprite stands, its direction and its size.
fn push_look(out: &mut Vec<u8>, instance: &Instance) -> Result<(), AllocError>
    ensures { OnOk result (out.new.items ≡ out.old.items ++ spaced (numbers.text_of instance.now.x ∷ numbers.text_of instance.now.y ∷ numbers.text_of instance.now.direction ∷ numbers.text_of instance.now.size ∷ [])) }
{
    push_number(out, instance.x)?;
    push_number(out, instance.y)?;
    push_number(out, instance.direction)?;
    push_number(out, instance.size)?;
    Ok(())
}

// Appends the line of the sprite at a place of the executable order, from 1.
fn push_sprite(
    out: &mut Vec<u8>,
    records: &Records,
    place: u64,
    instance: &Instance,
) -> Result<(), AllocError>
    requires { 0 < place }
    ensures { OnOk result (out.new.items ≡ out.old.items ++ machine.instance_line (records_in records.now) place instance.now) }
{
    out.extend_from_slice(b"sprite")?;
    push_sprite_front(out, records, place, instance)?;
    push_look(out, instance)?;
    push_costume(out, records, instance)?;
    push_quoted(out, style_text(instance.style))?;
    out.push(b'\n')?;
    Ok(())
}

// Appends the line of the instance at a place of the executable order.
fn push_line(
    out: &mut Vec<u8>,
    records: &Records,
    place: u64,
    instance: &Instance,
) -> Result<(), AllocError>
    ensures { OnOk result (out.new.items ≡ out.old.items ++ machine.instance_line (records_in records.now) place instance.now) }
{
    if place == 0 {
        push_stage(out, records, instance)
    } else {
        push_sprite(out, records, place, instance)
    }
}

// Appends the line of a bubble with a text, where its instance is visible.
fn push_bubble(out: &mut Vec<u8>, instance: &Instance) -> Result<(), AllocError>
    ensures { OnOk result (out.new.items ≡ out.old.items ++ machine.bubble_line instance.now) }
{
    let text = instance.bubble.text.as_str();
    if !instance.visible || text.is_empty() {
        return Ok(());
    }
    out.extend_from_slice(say_text(instance.bubble.kind).as_bytes())?;
    push_quoted(out, text)?;
    out.push(b'\n')?;
    Ok(())
}

// Appends the lines of the instance at a place of the executable order.
fn push_instance(
    out: &mut Vec<u8>,
    records: &Records,
    place: u64,
    instance: &Instance,
) -> Result<(), AllocError>
    ensures { OnOk result (out.new.items ≡ out.old.items ++ machine.instance_lines (records_in records.now) (place, instance.now)) }
{
    push_line(out, records, place, instance)?;
    push_effects(out, &instance.effects)?;
    push_bubble(out, instance)?;
    Ok(())
}

// Appends the lines of the instances, which stand in executable order.
pub(crate) fn push_instances(
    out: &mut Vec<u8>,
    records: &Records,
    instances: &[Instance],
) -> Result<(), AllocError>
    ensures { OnOk result (out.new.items ≡ out.old.items ++ flat_map (machine.instance_lines (records_in records.now)) (enumerate_from 0 instances.now)) }
{
    for (place, instance) in instances.iter().enumerate() {
        push_instance(out, records, place as u64, instance)?;
    }
    Ok(())
}
