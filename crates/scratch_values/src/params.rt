//! The parameters of a called procedure.

ghost use Rattle.std.specs.Prelude.{◌≡◌, [], ◌∷◌, ◌++◌, ◌<◌, length, bytes_eq, position, IfSome, OnOk, OnErr};
ghost use Rattle.std.specs.Option.{option_map};
ghost use Rattle.scratch_values.specs.Named.{item_named, with_param};

use crate::value::Value;
use lists::ListOf;
use project_json::Text;
use std::alloc::{AllocError, Global};
use std::marker::Model;

/// The parameters of a called procedure, each with its value. Contracts see it as the list of pairs.
#[derive(Debug, Drop)]
pub struct Params {
    pairs: ListOf<(Text, Value)>,
}

impl Model for Params {
    ghost use Rattle.std.specs.Prelude.{ℕ, List};
    ghost use Rattle.scratch_values.specs.declared.value.Value.{Value as Given};

    ghost Value = { List (List ℕ × Given) };

    ghost view = { λ p. p.pairs };
}

impl Params {
    /// No parameters. It takes no memory.
    pub fn new(alloc: Global) -> Params
        ensures { result ≡ [] }
    {
        Params {
            pairs: ListOf::new(alloc),
        }
    }

    /// Appends a parameter.
    pub fn push(&mut self, name: Text, value: Value) -> Result<(), AllocError>
        ensures ok { OnOk result (self.new ≡ self.old ++ (name, value) ∷ []) }
        ensures err { OnErr result (self.new ≡ self.old) }
    {
        self.pairs.push((name, value))
    }

    /// Gives a parameter a value: where one has the name, it gets the value at its place, else it is
    /// appended.
    pub fn put(&mut self, name: Text, value: Value) -> Result<(), AllocError>
        ensures ok { OnOk result (self.new ≡ with_param name value self.old) }
        ensures err { OnErr result (self.new ≡ self.old) }
    {
        match place_of(self.pairs.as_slice(), name.as_str()) {
            Some(place) => {
                self.pairs.replace(place, (name, value));
                Ok(())
            }
            None => self.pairs.push((name, value)),
        }
    }

    /// The parameters, in their order.
    pub fn pairs(&self) -> &[(Text, Value)]
        ensures { result.now ≡ self.now }
    {
        self.pairs.as_slice()
    }

    /// The value of the first parameter with the name; None where there is none.
    pub fn value(&self, name: &str) -> Option<&Value>
        ensures { option_map (λ v. v.now) result ≡ item_named name.now self.now }
    {
        value_named(self.pairs.as_slice(), name)
    }
}

// The value of the first pair with the name.
fn value_named<'a>(pairs: &'a [(Text, Value)], name: &str) -> Option<&'a Value>
    ensures { option_map (λ v. v.now) result ≡ item_named name.now pairs.now }
{
    for pair in pairs {
        if pair.0.as_str() == name {
            return Some(&pair.1);
        }
    }
    None
}

// The place of the first pair with the name.
fn place_of(pairs: &[(Text, Value)], name: &str) -> Option<usize>
    ensures value { result ≡ position (λ p. bytes_eq p.0 name.now) pairs.now }
    ensures within { IfSome result (λ i. i < length pairs.now) }
{
    pairs.iter().position(|pair| pair.0.as_str() == name)
}

impl Clone for Params {
    ghost is_clone = { λ s t. t ≡ s };

    fn clone(&self) -> Result<Params, AllocError> {
        Ok(Params {
            pairs: self.pairs.clone()?,
        })
    }
}
