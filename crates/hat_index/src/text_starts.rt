//! Hats of one kind by the folded text of their field.

ghost use Rattle.std.specs.Prelude.{◌≡◌, ℕ, List, [], None, OnOk, unwrap_or};
ghost use Rattle.std.specs.Option.{option_copied};
ghost use Rattle.hat_index.specs.Starts.{starts_at, Adds};

use lists::ListOf;
use machine_spec::BlockId;
use std::alloc::{AllocError, Global};
use std::collections::BTreeMap;

/// A head, and the block under it.
pub type Start = (BlockId, Option<BlockId>);

/// Heads in block order, each with the block under it.
pub type Starts = ListOf<Start>;

// The hats of each text. The texts are of a stranger's file, so this is a map by order: no choice of texts makes a look-up
// compare more than a logarithm of them, as a choice of texts that collide would in a map by hashes. And it needs no salt.
#[derive(Drop)]
pub(crate) struct TextStarts {
    pub(crate) starts: BTreeMap<String, Starts>,
}

impl TextStarts {
    // No hats. It takes no memory.
    pub(crate) fn new(alloc: Global) -> TextStarts
        ensures { (text : List ℕ) → starts_at result text ≡ None }
    {
        TextStarts {
            starts: BTreeMap::new(alloc),
        }
    }

    // The hats of a text; None where it has none.
    pub(crate) fn get(&self, text: &str) -> Option<&Starts>
        ensures { option_copied result ≡ starts_at self.now text.now }
    {
        self.starts.get(text)
    }

    // Adds a hat of a text behind the others. After want of memory it is only dropped.
    pub(crate) fn add(&mut self, alloc: Global, text: &str, start: Start) -> Result<(), AllocError>
        ensures { OnOk result (Adds self.old self.new text.now start) }
    {
        let mut starts = or_none(alloc, self.starts.remove(text));
        starts.push(start)?;
        let key = String::from_str(alloc, text)?;
        self.starts.insert(key, starts)?;
        Ok(())
    }
}

// The hats, or none. It takes no memory.
fn or_none(alloc: Global, starts: Option<Starts>) -> Starts
    ensures { result ≡ unwrap_or starts [] }
{
    match starts {
        Some(starts) => starts,
        None => Starts::new(alloc),
    }
}
