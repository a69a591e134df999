//! Values that are lent or owned.

ghost use Rattle.std.specs.Prelude.{◌≡◌};
ghost use Rattle.scratch_values.specs.Held.{held};

use crate::value::Value;
use project_json::Text;

/// A value that is lent or owned.
#[derive(Debug, Drop)]
pub enum Held<'p> {
    /// A value that stands elsewhere, as a literal of a project.
    Lent(&'p Value),
    /// A value of its own.
    Own(Value),
}

impl<'p> Held<'p> {
    /// The value.
    #[inline]
    pub fn get(&self) -> &Value
        ensures { result.now ≡ held self.now }
    {
        match self {
            Held::Lent(value) => value,
            Held::Own(value) => value,
        }
    }
}

/// An evaluated input of a block: its name, which is lent, and its value.
#[derive(Debug, Drop)]
pub struct Arg<'p> {
    /// Its name.
    pub name: &'p Text,
    /// Its value.
    pub value: Held<'p>,
}
