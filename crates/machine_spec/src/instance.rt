//! Originals and clones of targets.

use crate::bubble::Bubble;
use crate::effects::Effects;
use crate::ids::{BlockId, InstanceId, TargetId};
use lists::ListOf;
use scratch_number::Num;

/// How a sprite turns with its direction.
#[derive(Clone, Copy, PartialEq, Eq, Debug)]
pub enum Style {
    AllAround,
    LeftRight,
    DontRotate,
}

/// The recorded values of edge hats, blocks rising.
pub type Edges = ListOf<(BlockId, bool)>;

/// An original or a clone. Places are in stage units, the size in percent, the direction in degrees; the costume is a
/// place among those of its target, from 0.
#[derive(Debug, Drop)]
pub struct Instance {
    pub number: InstanceId,
    pub of: TargetId,
    pub x: Num,
    pub y: Num,
    pub direction: Num,
    pub size: Num,
    pub visible: bool,
    pub costume: u32,
    pub style: Style,
    pub effects: Effects,
    pub bubble: Bubble,
    pub edges: Edges,
}
