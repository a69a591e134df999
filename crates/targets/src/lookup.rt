//! What is told of an instance that may not be live.

ghost use Rattle.std.specs.Prelude.{◌≡◌, unwrap_or};
ghost use Rattle.std.specs.Option.{option_map};
ghost use Rattle.machine_spec.specs.Stores.{no_instance};

use machine_spec::{Instance, TargetId};

/// The target of an instance; the first one of the file where there is none.
#[inline]
pub fn target_of(instance: Option<&Instance>) -> TargetId
    ensures { result ≡ (unwrap_or (option_map (λ i. i.now) instance.entry) no_instance).of }
{
    match instance {
        Some(instance) => instance.of,
        None => TargetId(0),
    }
}

/// The present costume of an instance, from 0; the first where there is none.
#[inline]
pub fn costume_of(instance: Option<&Instance>) -> u32
    ensures { result ≡ (unwrap_or (option_map (λ i. i.now) instance.entry) no_instance).costume }
{
    match instance {
        Some(instance) => instance.costume,
        None => 0,
    }
}
