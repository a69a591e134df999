//! The evaluated arguments of a block.

ghost use Rattle.std.specs.Prelude.{◌≡◌, [], ◌∷◌, map};
ghost use Rattle.std.specs.Option.{option_map, option_copied};
ghost use Rattle.scratch_values.specs.Named.{item_named};
ghost use Rattle.scratch_values.specs.Held.{pair_of};
ghost use Rattle.scratch_values.specs.Args.{arguments, field_texts, field_variables};

use crate::argument_values::Arg;
use crate::names::{ResolvedField, VarRef};
use crate::value::Value;
use project_json::Text;
use std::marker::Model;

// The places of inputs: up to three of them take no memory.
#[derive(Debug, Drop)]
enum Places<'p> {
    Zero,
    One(Arg<'p>),
    Two(Arg<'p>, Arg<'p>),
    Three(Arg<'p>, Arg<'p>, Arg<'p>),
    Many(Vec<Arg<'p>>),
}

/// The arguments of a block: the values of its inputs, the texts of its fields, and the variables
/// and lists that its fields lead to. Contracts see it as the three lists. The names, the fields and
/// values that are lent stand in the block.
#[derive(Debug, Drop)]
pub struct Args<'p> {
    places: Places<'p>,
    fields: &'p [ResolvedField],
}

impl<'p> Model for Args<'p> {
    ghost use Rattle.scratch_values.specs.Named.{Arguments};

    ghost Value = { Arguments };

    ghost use Rattle.scratch_values.specs.Args.{arguments};
    ghost use Rattle.scratch_values.specs.Places.{pairs_in};

    ghost view = { λ a. arguments (pairs_in a.places) a.fields.now };
}

impl<'p> Args<'p> {
    /// The arguments of a block that has no input. It takes no memory.
    #[inline]
    pub fn none(fields: &'p [ResolvedField]) -> Args<'p>
        ensures { result ≡ arguments [] fields.now }
    {
        Args {
            places: Places::Zero,
            fields,
        }
    }

    /// The arguments of a block that has one input. It takes no memory.
    #[inline]
    pub fn one(fields: &'p [ResolvedField], first: Arg<'p>) -> Args<'p>
        ensures { result ≡ arguments (pair_of first.entry ∷ []) fields.now }
    {
        Args {
            places: Places::One(first),
            fields,
        }
    }

    /// The arguments of a block that has two inputs. It takes no memory.
    #[inline]
    pub fn two(fields: &'p [ResolvedField], first: Arg<'p>, second: Arg<'p>) -> Args<'p>
        ensures { result ≡ arguments (pair_of first.entry ∷ (pair_of second.entry ∷ [])) fields.now }
    {
        Args {
            places: Places::Two(first, second),
            fields,
        }
    }

    /// The arguments of a block that has three inputs. It takes no memory.
    #[inline]
    pub fn three(
        fields: &'p [ResolvedField],
        first: Arg<'p>,
        second: Arg<'p>,
        third: Arg<'p>,
    ) -> Args<'p>
        ensures { result ≡ arguments (pair_of first.entry ∷ (pair_of second.entry ∷ (pair_of third.entry ∷ []))) fields.now }
    {
        Args {
            places: Places::Three(first, second, third),
            fields,
        }
    }

    /// The arguments of a block that has any number of inputs. It takes no memory.
    #[inline]
    pub fn many(fields: &'p [ResolvedField], inputs: Vec<Arg<'p>>) -> Args<'p>
        ensures { result ≡ arguments (map pair_of inputs.entry.items) fields.now }
    {
        Args {
            places: Places::Many(inputs),
            fields,
        }
    }

    /// The value of the first input with the name; None where there is none.
    #[inline]
    pub fn value(&self, name: &str) -> Option<&Value>
        ensures { option_map (λ v. v.now) result ≡ item_named name.now self.now.values }
    {
        match &self.places {
            Places::Zero => None,
            Places::One(a) => value_in_one(a, name),
            Places::Two(a, b) => value_in_two(a, b, name),
            Places::Three(a, b, c) => value_in_three(a, b, c, name),
            Places::Many(inputs) => value_in_many(inputs.as_slice(), name),
        }
    }

    /// The text of the first field with the name; None where there is none.
    #[inline]
    pub fn field(&self, name: &str) -> Option<&Text>
        ensures { option_map (λ t. t.now) result ≡ item_named name.now self.now.fields }
    {
        text_of_field(self.fields, name)
    }

    /// The variable or list of the first field with the name that leads to one; None where there is
    /// none.
    #[inline]
    pub fn variable(&self, name: &str) -> Option<VarRef>
        ensures { result ≡ item_named name.now self.now.variables }
    {
        variable_of_field(self.fields, name)
    }
}

#[inline]
fn value_in_one<'s, 'p>(a: &'s Arg<'p>, name: &str) -> Option<&'s Value>
    ensures { option_map (λ v. v.now) result ≡ item_named name.now (pair_of a.now ∷ []) }
{
    if a.name.as_str() == name {
        return Some(a.value.get());
    }
    None
}

#[inline]
fn value_in_two<'s, 'p>(a: &'s Arg<'p>, b: &'s Arg<'p>, name: &str) -> Option<&'s Value>
    ensures { option_map (λ v. v.now) result ≡ item_named name.now (pair_of a.now ∷ (pair_of b.now ∷ [])) }
{
    if a.name.as_str() == name {
        return Some(a.value.get());
    }
    value_in_one(b, name)
}

#[inline]
fn value_in_three<'s, 'p>(
    a: &'s Arg<'p>,
    b: &'s Arg<'p>,
    c: &'s Arg<'p>,
    name: &str,
) -> Option<&'s Value>
    ensures { option_map (λ v. v.now) result ≡ item_named name.now (pair_of a.now ∷ (pair_of b.now ∷ (pair_of c.now ∷ []))) }
{
    if a.name.as_str() == name {
        return Some(a.value.get());
    }
    value_in_two(b, c, name)
}

fn value_in_many<'s, 'p>(inputs: &'s [Arg<'p>], name: &str) -> Option<&'s Value>
    ensures { option_map (λ v. v.now) result ≡ item_named name.now (map pair_of inputs.now) }
{
    for input in inputs {
        if input.name.as_str() == name {
            return Some(input.value.get());
        }
    }
    None
}

fn text_of_field<'p>(fields: &'p [ResolvedField], name: &str) -> Option<&'p Text>
    ensures { option_map (λ t. t.now) result ≡ item_named name.now (field_texts fields.now) }
{
    for field in fields {
        if field.name.as_str() == name {
            return Some(&field.text);
        }
    }
    None
}

fn variable_of_field(fields: &[ResolvedField], name: &str) -> Option<VarRef>
    ensures { result ≡ item_named name.now (field_variables fields.now) }
{
    for field in fields {
        if field.variable.is_some() && field.name.as_str() == name {
            return field.variable;
        }
    }
    None
}
