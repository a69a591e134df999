//! What a block of an opcode has.

/// Where a block stands.
#[derive(Clone, Copy, PartialEq, Eq, Debug)]
pub enum Role {
    /// At the head of a script that an event starts.
    Hat,
    /// At the head of a procedure's script.
    Definition,
    /// In the input `custom_block` of a definition.
    Prototype,
    /// In a script, below a head.
    Command,
    /// In an input, which it gives a value.
    Reporter,
}

/// An input of a block, which is no branch.
#[derive(Clone, Copy, PartialEq, Eq, Debug)]
pub struct InputSpec {
    /// Its name.
    pub name: &'static str,
    /// Whether a block has to have it. Only truths may be absent, and are false then.
    pub required: bool,
}

/// What a block has.
#[derive(Clone, Copy, PartialEq, Eq, Debug)]
pub struct Spec {
    /// Where it stands.
    pub role: Role,
    /// Its inputs that are no branches. The inputs of a call, which its prototype tells, are none of them.
    pub inputs: &'static [InputSpec],
    /// The names of its fields, of which each is required.
    pub fields: &'static [&'static str],
    /// How many branches it has: the first is the input SUBSTACK, the second SUBSTACK2.
    pub branches: u8,
}
