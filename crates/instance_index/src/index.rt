//! The index of the slots of a list.

ghost use Rattle.std.specs.Prelude.{◌≡◌, ℕ, ◌+◌, ◌<◌, ◌≤◌, ◌↔◌, [], ◌∷◌, ◌++◌, List, length, min, true, false, IsTrue, Some, IfSome, OnOk, slice_get};
ghost use Rattle.instance_index.specs.Slots.{last_below};
ghost use Rattle.instance_index.specs.Index.{AreChained, IsIndex};

use std::alloc::{AllocError, Global};
use std::collections::HashMap;

// The most searches that a list is not yet looked through for: they take about as long as that.
const FEW_SEARCHES: u32 = 16;

/// The slots of a list by the instance that each is of. While it is fresh, it speaks of the whole list, which contracts see as
/// the instance of each slot, in order (`IsIndex`). Else it tells nothing, and counts the searches that were done without it.
#[derive(Debug, Drop)]
pub struct InstanceIndex {
    last: HashMap<u64, usize>,
    // the slot before each of the same instance; where there is none, the slot itself
    earlier: Vec<usize>,
    is_fresh: bool,
    searches: u32,
}

impl InstanceIndex {
    /// That of an empty list.
    pub fn new(alloc: Global) -> InstanceIndex
        ensures index { IsIndex result [] }
        ensures fresh { result.is_fresh ≡ true }
        ensures none { result.searches ≡ 0 }
    {
        InstanceIndex {
            last: HashMap::new(alloc),
            earlier: Vec::new(alloc),
            is_fresh: true,
            searches: 0,
        }
    }

    /// Whether it is fresh.
    #[inline]
    pub fn is_fresh(&self) -> bool
        ensures { result ≡ self.now.is_fresh }
    {
        self.is_fresh
    }

    /// The last slot of an instance; None exactly where it has none.
    #[inline]
    pub fn last(&self, of: u64) -> Option<usize>
        requires { self.now.is_fresh ≡ true }
        ensures { (ofs : List ℕ) → IsIndex self.now ofs → result ≡ last_below of ofs (length ofs) }
    {
        self.last.get(&of).copied()
    }

    /// The last slot before one that is of the same instance; None exactly where there is none.
    #[inline]
    pub fn earlier(&self, slot: usize) -> Option<usize>
        requires { self.now.is_fresh ≡ true }
        ensures below { IfSome result (λ earlier. earlier < slot) }
        ensures last { (ofs : List ℕ) → (of : ℕ) → IsIndex self.now ofs → slice_get ofs slot ≡ Some of → result ≡ last_below of ofs slot }
    {
        let earlier = *self.earlier.get(slot)?;
        if earlier < slot { Some(earlier) } else { None }
    }

    /// A slot was appended to the list. Where that wants memory and there is none, the index tells nothing from now on.
    pub fn append(&mut self, of: u64)
        ensures index { (ofs : List ℕ) → IsIndex self.old ofs → IsIndex self.new (ofs ++ of ∷ []) }
        ensures stale { self.old.is_fresh ≡ false → self.new ≡ self.old }
        ensures count { self.new.searches ≡ self.old.searches }
    {
        if self.is_fresh {
            self.is_fresh = self.note(of).is_ok();
        }
    }

    // Notes the next slot. After an error the slots that are noted are of no list.
    fn note(&mut self, of: u64) -> Result<(), AllocError>
        ensures chained { (ofs : List ℕ) → AreChained self.old ofs → OnOk result (AreChained self.new (ofs ++ of ∷ [])) }
        ensures count { self.new.searches ≡ self.old.searches }
    {
        let slot = self.earlier.len();
        let earlier = self.last.insert(of, slot)?;
        self.earlier.push(earlier.unwrap_or(slot))?;
        Ok(())
    }

    /// The list is empty. One that is looked through again is appended slot by slot from here.
    pub fn clear(&mut self)
        ensures index { IsIndex self.new [] }
        ensures fresh { self.new.is_fresh ≡ true }
        ensures none { self.new.searches ≡ 0 }
    {
        self.last.clear();
        self.earlier.clear();
        self.is_fresh = true;
        self.searches = 0;
    }

    /// It tells nothing from now on.
    #[inline]
    pub fn forget(&mut self)
        ensures index { (ofs : List ℕ) → IsIndex self.new ofs }
        ensures stale { self.new.is_fresh ≡ false }
        ensures none { self.new.searches ≡ 0 }
    {
        self.is_fresh = false;
        self.searches = 0;
    }

    /// An instance was searched for without the index. The count stands still at the largest number.
    #[inline]
    pub fn note_search(&mut self)
        ensures index { (ofs : List ℕ) → IsIndex self.old ofs → IsIndex self.new ofs }
        ensures counted { self.new ≡ record self.old { searches = min (self.old.searches + 1) u32.MAX } }
    {
        self.searches = self.searches.saturating_add(1);
    }

    /// Whether the list is worth looking through again: the index is not fresh, and enough searches were done without it.
    #[inline]
    pub fn wants_renewal(&self) -> bool
        ensures { IsTrue result ↔ (self.now.is_fresh ≡ false) × (FEW_SEARCHES ≤ self.now.searches) }
    {
        !self.is_fresh && self.searches >= FEW_SEARCHES
    }
}
