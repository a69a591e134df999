//! The blocks that a walk is at, one under another.

ghost use Rattle.std.specs.Prelude.{◌≡◌, [], ◌∷◌, OnOk, MatchOption};

use std::alloc::{AllocError, Global};
use std::marker::Model;

/// A block and the place of the link that a walk follows from it.
#[derive(Clone, Copy)]
pub(crate) struct Frame {
    pub(crate) block: u32,
    pub(crate) place: usize,
}

/// Frames, the one that was put last first.
#[derive(Drop)]
pub(crate) struct Trail {
    frames: Vec<Frame>,
}

impl Model for Trail {
    ghost use Rattle.std.specs.Prelude.{List, reverse};
    ghost use Rattle.link_graph.specs.declared.trail.Frame.{Frame};

    ghost Value = { List Frame };

    ghost view = { λ t. reverse t.frames.items };
}

impl Trail {
    /// No frames. It takes no memory.
    pub(crate) fn new(alloc: Global) -> Trail
        ensures { result ≡ [] }
    {
        Trail {
            frames: Vec::new(alloc),
        }
    }

    /// Puts a frame on top. The only error is want of memory.
    pub(crate) fn push(&mut self, frame: Frame) -> Result<(), AllocError>
        ensures { OnOk result (self.new ≡ frame ∷ self.old) }
    {
        self.frames.push(frame)?;
        Ok(())
    }

    /// Takes the top frame. `None` where there is none.
    pub(crate) fn pop(&mut self) -> Option<Frame>
        ensures { MatchOption result ((self.old ≡ []) × (self.new ≡ [])) (λ f. self.old ≡ f ∷ self.new) }
    {
        self.frames.pop()
    }
}
