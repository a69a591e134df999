//! Keys that are held.

ghost use Rattle.std.specs.Prelude.{◌≡◌, ◌++◌, filter_map, option_to_list, IfOk, OnOk};
ghost use Rattle.machine_spec.specs.ScriptText.{key_of_rest};

use machine_spec::{Key, Keys};
use saved_parts::ToldKeys;
use std::alloc::{AllocError, Global};

// Adds a key behind the others, where there is one.
fn add(keys: &mut Keys, key: Option<Key>) -> Result<(), AllocError>
    ensures { OnOk result (keys.new ≡ keys.old ++ option_to_list key) }
{
    match key {
        Some(key) => keys.push(key),
        None => Ok(()),
    }
}

// The keys that are told. The only error is want of memory.
pub(crate) fn held(alloc: Global, told: &ToldKeys) -> Result<Keys, AllocError>
    ensures { IfOk result (λ keys. keys ≡ filter_map key_of_rest told.now) }
{
    let mut keys = Keys::new(alloc);
    let names = told.as_slice();
    for name in names {
        add(&mut keys, Key::named(name.as_str()))?;
    }
    Ok(keys)
}
