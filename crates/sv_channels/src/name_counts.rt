//! Counts of failed calls, each by the name that the call was given.

ghost use Rattle.std.specs.Prelude.{◌≡◌, [], ◌∷◌, ◌++◌, OnOk, OnErr};
ghost use Rattle.sv_channels.specs.Counts.{Rose, NoneFell};
ghost use Rattle.sv_channels.specs.Tally.{failures_of, IsCountedFor};

use lists::ListOf;
use std::alloc::{AllocError, Global};
use std::marker::Model;

/// How many calls of each name have failed. Where there is no memory to keep a name, its call counts for every name.
#[derive(Drop)]
pub(crate) struct NameCounts {
    names: ListOf<String>,
    nameless: u64,
}

impl Model for NameCounts {
    ghost use Rattle.std.specs.Prelude.{map, string_bytes};
    ghost use Rattle.sv_channels.specs.Tally.{Tally, tally_code};

    ghost Value = { Tally };

    ghost coded = { tally_code };

    ghost view = { λ c. record { names = map string_bytes c.names; nameless = c.nameless } };
}

impl NameCounts {
    /// No call has failed yet.
    pub(crate) fn new(alloc: Global) -> Self
        ensures { result ≡ record { names = []; nameless = 0 } }
    {
        NameCounts {
            names: ListOf::new(alloc),
            nameless: 0,
        }
    }

    // Keeps the name of one more call. After an error the counts are as they were.
    fn keep(&mut self, alloc: Global, name: &str) -> Result<(), AllocError>
        ensures ok { OnOk result (self.new ≡ record self.old { names = self.old.names ++ name.now ∷ [] }) }
        ensures err { OnErr result (self.new ≡ self.old) }
    {
        let name = String::from_str(alloc, name)?;
        self.names.push(name)
    }

    /// One more call of the name has failed.
    pub(crate) fn raise(&mut self, alloc: Global, name: &str)
        ensures counted { IsCountedFor self.old name.now self.new }
        ensures rose { Rose (failures_of self.old name.now) (failures_of self.new name.now) }
        ensures none_fell { NoneFell (failures_of self.old) (failures_of self.new) }
    {
        match self.keep(alloc, name) {
            Ok(()) => {}
            Err(_) => self.nameless = self.nameless.saturating_add(1),
        }
    }
}
