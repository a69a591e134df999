//! The targets of a project file, as they are before a run.

use crate::instance::Style;
use lists::ListOf;
use project_json::Text;
use scratch_number::Num;
use scratch_values::{BoundText, Value, Values, VarName};

/// A variable: its name and id, and its first value.
#[derive(Debug, Drop)]
pub struct VariableRecord {
    pub name: VarName,
    pub value: Value,
}

/// A list: its name and id, and its first items.
#[derive(Debug, Drop)]
pub struct ListRecord {
    pub name: VarName,
    pub items: Values,
}

/// The variables of a target: those of the file in its order, then those that were added at load.
pub type VariableRecords = ListOf<VariableRecord>;

/// The lists of a target: those of the file in its order, then those that were added at load.
pub type ListRecords = ListOf<ListRecord>;

/// The names of costumes, in order.
pub type CostumeNames = ListOf<BoundText>;

/// A target, the stage or a sprite (Scratch 3 project file format). Places are in stage units, the size and the volume
/// in percent, the direction in degrees; the costume is a place among the costumes, from 0.
#[derive(Debug, Drop)]
pub struct TargetRecord {
    pub is_stage: bool,
    pub name: Text,
    pub variables: VariableRecords,
    pub lists: ListRecords,
    pub costumes: CostumeNames,
    pub costume: u32,
    pub layer_order: Num,
    pub volume: Num,
    pub visible: bool,
    pub x: Num,
    pub y: Num,
    pub size: Num,
    pub direction: Num,
    pub style: Style,
}
