//! Limits of a run that several crates keep.

/// The most items of a list.
pub const MOST_ITEMS: usize = 200_000;

/// The most levels that may be open over all threads.
pub const MOST_LEVELS: usize = 65_536;

/// The most clones that may live at once.
pub const MOST_CLONES: usize = 300;

/// The most bytes of a script file.
pub const SCRIPT_LIMIT: u64 = 16_777_216;

/// The last time that a clock can show, in milliseconds.
pub const LAST_CLOCK: u64 = 9_000_000_000_000;

/// The most turns that a loop which counts can have left.
pub const MOST_TURNS: u64 = 9_000_000_000_000;
