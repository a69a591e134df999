//! Where a stack stands in a pool.

ghost use Rattle.std.specs.Prelude.{◌≡◌};

/// Where a stack stands in a pool: the key of its top slot, and how many values it has. Once the stack is changed, a copy
/// from before tells where none stands.
#[derive(Clone, Copy, Debug)]
pub struct Stack {
    pub(crate) top: usize,
    pub(crate) depth: usize,
}

impl Stack {
    /// A stack of no values, in any pool.
    pub const EMPTY: Stack = Stack { top: 0, depth: 0 };

    /// How many values it has.
    #[inline(always)]
    pub fn depth(&self) -> usize
        ensures { result ≡ self.now.depth }
    {
        self.depth
    }
}
