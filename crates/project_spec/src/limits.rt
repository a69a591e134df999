//! How much a project file may hold: the limits that more than one crate keeps.

/// The most bytes of a project file.
pub const PROJECT_LIMIT: u64 = 33_554_432;

/// The most targets of a project.
pub const MOST_TARGETS: usize = 1_000;

/// The most monitors of a project.
pub const MOST_MONITORS: usize = 10_000;
