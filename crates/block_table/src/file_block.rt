//! Blocks as a project file has them, whose literals and defaults may be longer than the values of a run.

use lists::ListOf;
use mutations::FilePrototype;
use project_json::Text;
use project_spec::{Code, Fields, FileValue, Link, MutationRefusal};
use scratch_values::VarName;

/// What an input of a block holds.
#[derive(Debug, Drop)]
pub enum FileInput {
    Literal(FileValue),
    Reporter(Link),
    Variable(VarName),
    List(VarName),
    Absent,
}

/// The inputs of a block, each with its name, in document order.
pub type FileInputs = ListOf<(Text, FileInput)>;

/// What the `mutation` of a block says of a procedure.
#[derive(Debug, Drop)]
pub enum FileMutation {
    None,
    Prototype(FilePrototype),
    Call(Text),
    Bad(MutationRefusal),
}

/// A block.
#[derive(Debug, Drop)]
pub struct FileBlock {
    pub code: Code,
    pub next: Option<Link>,
    pub inputs: FileInputs,
    pub fields: Fields,
    pub shadow: bool,
    pub top_level: bool,
    pub mutation: FileMutation,
}

/// Blocks, in document order.
pub type FileBlocks = ListOf<FileBlock>;
