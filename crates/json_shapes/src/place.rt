//! Where a value stands in a document.

ghost use Rattle.std.specs.Prelude.{◌≡◌, ◌==◌, [], ◌∷◌, ◌++◌, length, string_bytes, IfOk, OnOk};
ghost use Rattle.std.specs.Fmt.{decimal};
ghost use Rattle.json_shapes.specs.Places.{path, before};
ghost use Rattle.json_shapes.specs.Reads.{IsFaultAt};

use crate::fault::Fault;
use project_json::Text;
use std::alloc::{AllocError, Global};
use std::marker::Model;

/// A place in a document. It borrows the places round it, so that it takes no memory; its path is
/// made where a fault is told. Contracts see the member names and the list places on the way to
/// it, the last first, each as its text.
#[cycle(place)]
#[derive(Drop)]
pub struct Place<'a> {
    way: Way<'a>,
}

// How a place is reached.
#[cycle(place)]
#[derive(Drop)]
enum Way<'a> {
    Root,
    Under(&'a str),
    Member(&'a Place<'a>, &'a str),
    Item(&'a Place<'a>, usize),
}

impl<'a> Model for Place<'a> {
    ghost use Rattle.std.specs.Prelude.{List, ℕ, length};

    ghost Value = { List (List ℕ) };

    ghost use Rattle.json_shapes.specs.Ways.{steps};

    ghost view = { λ a. steps a.way };

    ghost size = { length };

    ghost use Rattle.std.proofs.Common.{arith};

    ghost size_decreases = { λ a h. Prim.grind arith };
}

impl<'a> Place<'a> {
    /// The place of the whole document. Its path is empty.
    pub fn root() -> Place<'a>
        ensures { result ≡ [] }
    {
        Place { way: Way::Root }
    }

    /// The place with the path.
    pub fn under(path: &'a str) -> Place<'a>
        ensures { result ≡ path.now ∷ [] }
    {
        Place {
            way: Way::Under(path),
        }
    }

    /// The place of the member with the name.
    pub fn member<'b>(&'b self, name: &'b str) -> Place<'b>
        ensures { result ≡ name.now ∷ self.now }
    {
        Place {
            way: Way::Member(self, name),
        }
    }

    /// The place of the item at a place of the list, counted from 0.
    pub fn item(&self, place: usize) -> Place<'_>
        ensures { result ≡ decimal place ∷ self.now }
    {
        Place {
            way: Way::Item(self, place),
        }
    }

    /// The place's path: the steps on the way to it, joined by `/`.
    pub fn path(&self, alloc: Global) -> Result<Text, AllocError>
        ensures { IfOk result (λ t. t ≡ path self.now) }
    {
        let mut text = String::new(alloc);
        self.write(&mut text)?;
        Ok(Text::from_string(text))
    }

    /// The fault of a value at the place that has not its shape.
    pub fn fault(&self, alloc: Global) -> Fault
        ensures { IsFaultAt (path self.now) result }
    {
        match self.path(alloc) {
            Ok(path) => Fault::Shape { path },
            Err(_) => Fault::NoMemory,
        }
    }

    fn is_root(&self) -> bool
        ensures { result ≡ (length self.now == 0) }
    {
        matches!(self.way, Way::Root)
    }

    // Writes what stands before a step at the place.
    #[cycle(write)]
    fn write_outer(&self, text: &mut String) -> Result<(), AllocError>
        ensures { OnOk result (string_bytes text.new ≡ string_bytes text.old ++ before self.now) }
    {
        self.write(text)?;
        if self.is_root() {
            return Ok(());
        }
        text.push_str("/")
    }

    // Writes the path.
    #[cycle(write)]
    fn write(&self, text: &mut String) -> Result<(), AllocError>
        ensures { OnOk result (string_bytes text.new ≡ string_bytes text.old ++ path self.now) }
    {
        match self.way {
            Way::Root => Ok(()),
            Way::Under(path) => text.push_str(path),
            Way::Member(outer, name) => {
                outer.write_outer(text)?;
                text.push_str(name)
            }
            Way::Item(outer, place) => {
                outer.write_outer(text)?;
                write!(text, "{place}")
            }
        }
    }
}
