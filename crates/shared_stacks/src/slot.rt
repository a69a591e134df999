//! One slot of a pool.

ghost use Rattle.std.specs.Prelude.{◌≡◌};
ghost use Rattle.std.specs.Borrow.{sem};
ghost use Rattle.shared_stacks.specs.Lending.{LendsValue};

// A value, and the key of the slot of the value under it; at the bottom of a stack the key says nothing.
#[derive(Debug, Drop)]
pub(crate) struct Slot<T> {
    pub(crate) value: T,
    pub(crate) under: usize,
}

impl<T> Slot<T> {
    // The value, to be changed.
    #[inline(always)]
    pub(crate) fn value_mut(&mut self) -> &mut T
        ensures* lends { sem 𝓛 (LendsValue T.row self.entry result) }
        ensures value { result.now ≡ self.old.value }
    {
        &mut self.value
    }
}
