//! Graphic effects.

ghost use Rattle.std.specs.Prelude.{◌≡◌, Some, slice_get, slice_set};
ghost use Rattle.machine_spec.specs.Effects.{no_effects, effect_place};

use scratch_number::{Num, of_whole};
use std::marker::Model;

/// A graphic effect.
#[derive(Clone, Copy, PartialEq, Eq, Debug)]
pub enum Effect {
    Color,
    Fisheye,
    Whirl,
    Pixelate,
    Mosaic,
    Brightness,
    Ghost,
}

/// The seven effects of an instance. Contracts see the list of their numbers, in the order of `Effect`.
#[derive(Clone, Copy, Debug)]
pub struct Effects {
    numbers: [Num; 7],
}

impl Model for Effects {
    ghost use Rattle.std.specs.Prelude.{List};
    ghost use Rattle.scratch_number.specs.declared.number.Num.{Num as N};

    ghost Value = { List N };

    ghost view = { λ e. e.numbers };

    ghost inverse = { λ ns. record { numbers = ns } };
}

impl Effects {
    /// All seven are 0.
    pub fn none() -> Effects
        ensures { result ≡ no_effects }
    {
        Effects {
            numbers: [of_whole(0); 7],
        }
    }

    /// The number of an effect.
    pub fn get(&self, effect: Effect) -> Num
        ensures { slice_get self.now (effect_place effect) ≡ Some result }
    {
        let place = effect as usize;
        self.numbers[place]
    }

    /// Sets the number of an effect, and leaves the others.
    pub fn set(&mut self, effect: Effect, number: Num)
        ensures { self.new ≡ slice_set self.old (effect_place effect) number }
    {
        self.numbers[effect as usize] = number;
    }
}
