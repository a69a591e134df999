//! A block as executions need it.

use lists::ListOf;
use machine_spec::BlockId;
use opcode_table::Opcode;
use project_json::Text;
use project_spec::Operand;
use scratch_values::ResolvedField;

/// What is evaluated for each input of a block, with the input's name, in document order.
pub type CachedInputs = ListOf<(Text, Operand)>;

/// The fields of a block, each with what it names.
pub type CachedFields = ListOf<ResolvedField>;

/// A block as executions need it (scratch-vm, engine/execute.js, BlockCached).
#[derive(Debug, Drop)]
pub struct CachedBlock {
    /// Its opcode; a prototype's where the opcode is not known, which stands in no checked script.
    pub op: Opcode,
    /// Its inputs that are evaluated, branches and the custom block left out.
    pub inputs: CachedInputs,
    /// Whether the inputs are just those of the opcode, in the order of the table of opcodes.
    pub in_order: bool,
    pub fields: CachedFields,
    /// The block below it.
    pub next: Option<BlockId>,
    /// The block with which its branch `SUBSTACK` begins.
    pub first: Option<BlockId>,
    /// The block with which its branch `SUBSTACK2` begins.
    pub second: Option<BlockId>,
    /// The code of the procedure that it calls; empty where it is no call.
    pub code: Text,
}

/// The blocks of a target, in document order.
pub type CachedBlocks = ListOf<CachedBlock>;
