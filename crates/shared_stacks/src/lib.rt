//! Stacks whose values stand in one pool of slots: a stack is the key of its top slot and a depth, and each slot has the key
//! of the one under it. A push takes no memory, and a stack that is given up leaves its slots to the others.
#![tactic(auto)]

mod pool;
mod slot;
mod stack;

pub use pool::Pool;
pub use stack::Stack;
