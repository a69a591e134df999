//! Parts of blocks.

use crate::refusals::MutationRefusal;
use lists::ListOf;
use machine_spec::BlockId;
use opcode_table::Opcode;
use project_json::{Text, Texts};
use scratch_values::{Value, Values, VarName, VarRef};

/// Where a link leads: to a block of its target, or to an id that names none.
#[derive(Debug, Drop)]
pub enum Link {
    To(BlockId),
    Unknown(Text),
}

/// The opcode of a block: one of the table, or another name.
#[derive(Debug, Drop)]
pub enum Code {
    Known(Opcode),
    Other(Text),
}

/// What an input of a block holds.
#[derive(Debug, Drop)]
pub enum Input {
    /// A value that is written in the block.
    Literal(Value),
    /// The block that is plugged in.
    Reporter(Link),
    /// A variable.
    Variable(VarName),
    /// The contents of a list.
    List(VarName),
    /// Nothing.
    Absent,
}

/// What is evaluated for an input of a block.
#[derive(Debug, Drop)]
pub enum Operand {
    /// A value.
    Literal(Value),
    /// The value of a variable.
    Variable(VarRef),
    /// The contents of a list.
    List(VarRef),
    /// The value of the block that is plugged in.
    Block(BlockId),
}

/// The inputs of a block, each with its name, in document order.
pub type Inputs = ListOf<(Text, Input)>;

/// The fields of a block, each with its name, in document order. A field's text is the `name` of what it holds.
pub type Fields = ListOf<(Text, VarName)>;

/// What a procedure's prototype says of it.
#[derive(Debug, Drop)]
pub struct Prototype {
    /// The code by which calls name it.
    pub code: Text,
    /// The ids of its arguments, by which the inputs of a call are named.
    pub ids: Texts,
    /// The names of its arguments, one for each id.
    pub names: Texts,
    /// The values of arguments that a call leaves out, one for each id.
    pub defaults: Values,
    /// Whether it runs without screen refresh.
    pub warp: bool,
}

/// What the `mutation` of a block says of a procedure.
#[derive(Debug, Drop)]
pub enum Mutation {
    /// Nothing: the block is no prototype and no call.
    None,
    /// A prototype's.
    Prototype(Prototype),
    /// A call's: the code of the procedure.
    Call(Text),
    /// A prototype's or call's that is unfit.
    Bad(MutationRefusal),
}

/// A block of a project.
#[derive(Debug, Drop)]
pub struct Block {
    pub code: Code,
    pub next: Option<Link>,
    pub inputs: Inputs,
    pub fields: Fields,
    /// Whether it is the shadow that an input shows where nothing is plugged in.
    pub shadow: bool,
    /// Whether it stands at the top of a stack.
    pub top_level: bool,
    pub mutation: Mutation,
}

/// What a part of a block names, its field or its input of that name.
#[derive(Debug, Drop)]
pub struct Resolved {
    /// Whether the part is an input; else it is a field.
    pub in_input: bool,
    pub part: Text,
    pub variable: VarRef,
}

/// The blocks of a target, in document order.
pub type Blocks = ListOf<Block>;
