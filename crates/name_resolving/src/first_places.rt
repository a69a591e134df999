//! The first place of each text of a list.

ghost use Rattle.std.specs.Prelude.{◌≡◌, ℕ, List, None, OnOk};
ghost use Rattle.name_resolving.specs.FirstPlaces.{Notes, place_of};

use std::alloc::{AllocError, Global};
use std::collections::BTreeMap;

/// Texts, each with the first place that it was noted with.
#[derive(Debug, Drop)]
pub(crate) struct FirstPlaces {
    pub(crate) places: BTreeMap<String, u32>,
}

impl FirstPlaces {
    /// No texts. It takes no memory.
    pub(crate) fn new(alloc: Global) -> FirstPlaces
        ensures { (text : List ℕ) → place_of result text ≡ None }
    {
        FirstPlaces {
            places: BTreeMap::new(alloc),
        }
    }

    /// The place of a text, where it was noted.
    pub(crate) fn get(&self, text: &str) -> Option<u32>
        ensures { result ≡ place_of self.now text.now }
    {
        self.places.get(text).copied()
    }

    /// Notes a text with its place; a text that has a place keeps it. After want of memory it is only dropped.
    pub(crate) fn note(&mut self, alloc: Global, text: &str, place: u32) -> Result<(), AllocError>
        ensures { OnOk result (Notes self.old self.new text.now place) }
    {
        if self.places.contains_key(text) {
            return Ok(());
        }
        let key = String::from_str(alloc, text)?;
        self.places.insert(key, place)?;
        Ok(())
    }
}
