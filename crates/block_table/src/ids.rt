//! The ids of the blocks of a target, and the place of each.

ghost use Rattle.std.specs.Prelude.{◌≡◌, [], ◌∷◌, ◌++◌, ◌<◌, ◌^◌, length, map, bytes_eq, position, IfOk, OnOk};
ghost use Rattle.project_json.specs.View.{field};
ghost use Rattle.block_table.specs.Places.{AreFirst, Notes};

use crate::salt::Salted;
use indexmap::IndexMap;
use project_json::{Member, Text, Texts};
use std::alloc::{AllocError, Global};
use std::marker::Model;

/// The ids of blocks, in order, with the first place of each. Contracts see the list of ids.
#[derive(Drop)]
pub struct Ids {
    ids: Texts,
    places: IndexMap<String, u32, Salted>,
}

impl Model for Ids {
    ghost use Rattle.std.specs.Prelude.{List, ℕ};
    ghost use Rattle.block_table.specs.Places.{AreFirst};

    ghost Value = { List (List ℕ) };

    ghost view = { λ a. a.ids };

    ghost invariant = { λ a. AreFirst a.places a.ids };
}

impl Ids {
    /// The names of these members. The only error is want of memory.
    pub fn of(alloc: Global, members: &[Member]) -> Result<Ids, AllocError>
        requires { length members.now < 2 ^ 32 }
        ensures { IfOk result (λ ids. ids ≡ map (λ m. m.0) (map field members.now)) }
    {
        let mut ids = Texts::new(alloc);
        let mut places = IndexMap::with_hasher(alloc, Salted::of(members));
        for member in members {
            add(alloc, &mut ids, &mut places, member.name())?;
        }
        Ok(Ids { ids, places })
    }

    /// The first place of the id.
    pub fn place(&self, id: &str) -> Option<u32>
        ensures { result ≡ position (λ other. bytes_eq other id.now) self.now }
    {
        self.places.get(id).copied()
    }

    /// The ids, in order.
    pub fn as_slice(&self) -> &[Text]
        ensures { result.now ≡ self.now }
    {
        self.ids.as_slice()
    }
}

// Appends an id, and notes its place.
fn add(
    alloc: Global,
    ids: &mut Texts,
    places: &mut IndexMap<String, u32, Salted>,
    id: &Text,
) -> Result<(), AllocError>
    requires { length ids.old < 2 ^ 32 }
    ensures ids { OnOk result (ids.new ≡ ids.old ++ id.now ∷ []) }
    ensures places { OnOk result (AreFirst places.old ids.old → AreFirst places.new ids.new) }
{
    note(alloc, places, id.as_str(), ids.len() as u32)?;
    let copy = id.clone()?;
    ids.push(copy)?;
    Ok(())
}

// Notes the place of an id, unless it has one.
fn note(
    alloc: Global,
    places: &mut IndexMap<String, u32, Salted>,
    id: &str,
    place: u32,
) -> Result<(), AllocError>
    ensures { OnOk result (Notes places.old places.new id.now place) }
{
    match places.get(id) {
        Some(_) => Ok(()),
        None => {
            let key = String::from_str(alloc, id)?;
            places.insert(key, place)?;
            Ok(())
        }
    }
}
