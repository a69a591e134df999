//! The parts of variables, as a saved run names them.

use crate::state::Truths;
use machine_spec::{MadeList, Stores};

/// What the variables of a run hold: the store of each instance, whether each monitor of the file is visible, in the order
/// of the file, and the monitors that blocks added, in the order of adding.
#[derive(Drop)]
pub struct VariableParts {
    pub stores: Stores,
    pub file_monitors: Truths,
    pub made: MadeList,
}
