//! Instances as a text tells them.

use crate::values::{ToldLists, ToldValues};
use lists::ListOf;
use machine_spec::{Effects, Say, Style};
use project_json::Text;
use scratch_number::Num;

/// A bubble: its kind, its text, and the number of its last update.
#[derive(Debug, Drop)]
pub struct ToldBubble {
    pub kind: Say,
    pub text: Text,
    pub usage: u64,
}

/// Blocks of edge hats, each with the value that was recorded for it.
pub type ToldEdges = ListOf<(u64, bool)>;

/// An instance, with the values of its variables and the items of its lists.
#[derive(Debug, Drop)]
pub struct ToldInstance {
    pub number: u64,
    pub of: u64,
    pub x: Num,
    pub y: Num,
    pub direction: Num,
    pub size: Num,
    pub visible: bool,
    pub costume: u64,
    pub style: Style,
    pub effects: Effects,
    pub bubble: ToldBubble,
    pub edges: ToldEdges,
    pub values: ToldValues,
    pub lists: ToldLists,
}

/// Instances in executable order.
pub type ToldInstances = ListOf<ToldInstance>;
