//! Kinds of what a block names.

/// A variable or a list.
#[derive(Clone, Copy, PartialEq, Eq, Debug)]
pub(crate) enum Sort {
    Variable,
    List,
}
