//! Named bytes, by which a shelf in memory is told what it holds.

ghost use Rattle.std.specs.Prelude.{◌≡◌, ◌<◌, [], ◌∷◌, ◌++◌, length, IfSome, OnOk, OnErr, bytes_eq, string_bytes};
ghost use Rattle.std.specs.List.{position_from};
ghost use Rattle.std.specs.FinMap.{get, insert};
ghost use Rattle.std.specs.Option.{option_copied};
ghost use Rattle.sv_channels.specs.Files.{files_of};

use std::alloc::{AllocError, Global};
use std::marker::Model;

/// A list of names, each with its bytes. Where a name stands twice, its first place counts.
#[derive(Drop)]
pub struct NamedBytes {
    files: Vec<(String, Vec<u8>)>,
}

impl Model for NamedBytes {
    ghost use Rattle.std.specs.Prelude.{List, ℕ, map, string_bytes};

    ghost Value = { List (List ℕ × List ℕ) };

    ghost view = { λ a. map (λ f. (string_bytes f.0, f.1.items)) a.files.items };
}

impl NamedBytes {
    /// No name yet.
    pub fn new(alloc: Global) -> Self
        ensures { result ≡ [] }
    {
        NamedBytes {
            files: Vec::new(alloc),
        }
    }

    /// Adds a name with its bytes at the end. After an error the list is as it was.
    pub fn push(&mut self, name: &str, bytes: &[u8]) -> Result<(), AllocError>
        ensures ok { OnOk result (self.new ≡ self.old ++ (name.now, bytes.now) ∷ []) }
        ensures err { OnErr result (self.new ≡ self.old) }
    {
        let alloc = *self.files.allocator();
        let name = String::from_str(alloc, name)?;
        let bytes = bytes.to_vec(alloc)?;
        self.files.push((name, bytes))?;
        Ok(())
    }

    /// The bytes at the first place of the name.
    pub fn get(&self, name: &str) -> Option<&[u8]>
        ensures { option_copied result ≡ get (files_of self.now) name.now }
    {
        match place_of(&self.files, name) {
            Some(place) => Some(self.files[place].1.as_slice()),
            None => None,
        }
    }

    /// Replaces the bytes at the first place of the name, or adds the name at the end. After an error the list is as
    /// it was.
    pub(crate) fn put(&mut self, name: &str, bytes: &[u8]) -> Result<(), AllocError>
        ensures ok { OnOk result (files_of self.new ≡ insert (files_of self.old) name.now bytes.now) }
        ensures err { OnErr result (self.new ≡ self.old) }
    {
        match place_of(&self.files, name) {
            Some(place) => {
                let alloc = *self.files.allocator();
                self.files[place].1 = bytes.to_vec(alloc)?;
                Ok(())
            }
            None => self.push(name, bytes),
        }
    }
}

// The first place of the name.
fn place_of(files: &[(String, Vec<u8>)], name: &str) -> Option<usize>
    ensures value { result ≡ position_from (λ file. bytes_eq (string_bytes file.0) name.now) 0 files.now }
    ensures within { IfSome result (λ place. place < length files.now) }
{
    files.iter().position(|(other, _)| other.as_str() == name)
}
