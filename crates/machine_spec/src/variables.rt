//! Variables, lists and added monitors of a run.

use crate::ids::{InstanceId, TargetId};
use lists::ListOf;
use scratch_values::{ValueLists, Values};

/// The values of an instance's variables, and the items of its lists, in the order of its target's records.
#[derive(Debug, Drop)]
pub struct Store {
    pub of: InstanceId,
    pub values: Values,
    pub lists: ValueLists,
}

/// The stores of all live instances.
pub type Stores = ListOf<Store>;

/// What a monitor shows: a variable or a list of a target, by its number there.
#[derive(Clone, Copy, PartialEq, Eq, Debug)]
pub enum Shown {
    Variable(TargetId, u32),
    List(TargetId, u32),
}

/// A monitor that a block added.
#[derive(Clone, Copy, PartialEq, Eq, Debug)]
pub struct Made {
    pub what: Shown,
    pub visible: bool,
}

/// The monitors that blocks added, in the order of adding.
pub type MadeList = ListOf<Made>;
