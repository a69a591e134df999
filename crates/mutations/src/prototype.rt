//! What a prototype says, as the file has it.

use lists::ListOf;
use project_json::{Text, Texts};
use project_spec::FileValue;

/// Values as a project file has them, in order.
pub type FileValues = ListOf<FileValue>;

/// What a procedure's prototype says of it. Its defaults may be longer than the values of a run.
#[derive(Debug, Drop)]
pub struct FilePrototype {
    /// The code by which calls name it.
    pub code: Text,
    /// The ids of its arguments, by which the inputs of a call are named.
    pub ids: Texts,
    /// The names of its arguments, one for each id.
    pub names: Texts,
    /// The values of arguments that a call leaves out, one for each id.
    pub defaults: FileValues,
    /// Whether it runs without screen refresh.
    pub warp: bool,
}
