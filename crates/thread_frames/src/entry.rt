//! A thread, and where its levels stand.

use crate::thread::Thread;
use shared_stacks::Stack;

// A thread, and the stack of its levels in the pool of all.
#[derive(Clone, Copy, Debug)]
pub(crate) struct Entry {
    pub(crate) thread: Thread,
    pub(crate) stack: Stack,
}
