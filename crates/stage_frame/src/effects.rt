//! The lines of graphic effects.

ghost use Rattle.std.specs.Prelude.{◌≡◌, ◌++◌, flat_map, OnOk};
ghost use Rattle.std.specs.List.{zip};
ghost use Rattle.machine_spec.specs.Effects.{effect_names};
ghost use Rattle.machine_spec.specs.FrameText.{effect_line};
ghost use Rattle.stage_frame.specs.Zero.{is_zero};

use crate::words::{push_number, push_word};
use machine_spec::{Effect, Effects};
use scratch_number::Num;
use std::alloc::AllocError;

// Whether a number is 0.
fn is_zero(number: Num) -> bool
    ensures { result ≡ is_zero number }
{
    match number {
        Num::Fixed(raw) => raw.get() == 0,
        Num::Inf => false,
        Num::NegInf => false,
        Num::Nan => false,
    }
}

// Appends the line of an effect, where it is not 0.
fn push_effect(out: &mut Vec<u8>, name: &str, number: Num) -> Result<(), AllocError>
    ensures { OnOk result (out.new.items ≡ out.old.items ++ effect_line (name.now, number)) }
{
    let shown = number;
    if is_zero(shown) {
        return Ok(());
    }
    out.extend_from_slice(b"effect")?;
    push_word(out, name)?;
    push_number(out, number)?;
    out.push(b'\n')?;
    Ok(())
}

// Appends the lines of the effects that are not 0.
pub(crate) fn push_effects(out: &mut Vec<u8>, effects: &Effects) -> Result<(), AllocError>
    ensures { OnOk result (out.new.items ≡ out.old.items ++ flat_map effect_line (zip effect_names effects.now)) }
{
    push_effect(out, "color", effects.get(Effect::Color))?;
    push_effect(out, "fisheye", effects.get(Effect::Fisheye))?;
    push_effect(out, "whirl", effects.get(Effect::Whirl))?;
    push_effect(out, "pixelate", effects.get(Effect::Pixelate))?;
    push_effect(out, "mosaic", effects.get(Effect::Mosaic))?;
    push_effect(out, "brightness", effects.get(Effect::Brightness))?;
    push_effect(out, "ghost", effects.get(Effect::Ghost))?;
    Ok(())
}
