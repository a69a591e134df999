//! Hashes of ids that nobody can choose apart from all of them.

use project_json::Member;
use std::hash::{BuildHasher, DefaultHasher, Hasher};

/// Makes hashers that begin where the hash of all ids of a table ends. So which ids collide depends on all of them, and
/// is the same on every machine.
#[derive(Clone, Copy)]
pub struct Salted {
    start: DefaultHasher,
}

impl Salted {
    /// The salt of the names of these members.
    pub(crate) fn of(members: &[Member]) -> Salted {
        let mut start = DefaultHasher::new();
        for member in members {
            start.write(member.name().as_str().as_bytes());
            start.write_u8(255);
        }
        Salted { start }
    }
}

impl BuildHasher for Salted {
    type Hasher = DefaultHasher;

    ghost build_hasher = { λ s. s.start };

    fn build_hasher(&self) -> DefaultHasher {
        self.start
    }
}
