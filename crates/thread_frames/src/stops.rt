//! Why no level was opened.

use std::alloc::AllocError;

/// Why no level was opened.
#[derive(Clone, Copy, PartialEq, Eq, Debug)]
pub enum PushStop {
    /// As many levels are open as may be.
    Full,
    /// Memory ran out.
    NoMemory,
}
