//! Bubbles, and what was recorded for edge hats.

ghost use Rattle.std.specs.Prelude.{◌≡◌, ◌≤◌, true, IfOk};
ghost use Rattle.std.specs.Fmt.{char_count};
ghost use Rattle.std.specs.List.{list_all};
ghost use Rattle.machine_spec.specs.BubbleText.{IsShort};
ghost use Rattle.saved_parts.specs.Telling.{bubble_of};
ghost use Rattle.saved_stores.specs.Held.{is_numbered};

use machine_spec::{BlockId, Bubble, BubbleText, Edges};
use saved_parts::{ToldBubble, ToldEdges};
use std::alloc::{AllocError, Global};

// The bubble that is told, whose text is short enough. The only error is want of memory.
pub(crate) fn bubble(alloc: Global, told: ToldBubble) -> Result<Bubble, AllocError>
    requires { IsShort told.text }
    ensures { IfOk result (λ bubble. bubble ≡ bubble_of told) }
{
    let ToldBubble { kind, text, usage } = told;
    let text = BubbleText::cut(alloc, text.as_str())?;
    Ok(Bubble { kind, text, usage })
}

// What is told of edge hats, by blocks that a target can have. The only error is want of memory.
pub(crate) fn edges(alloc: Global, told: ToldEdges) -> Result<Edges, AllocError>
    requires { list_all is_numbered told ≡ true }
    ensures { IfOk result (λ edges. edges ≡ told) }
{
    let mut edges = Edges::new(alloc);
    for (block, was) in told.into_vec() {
        edges.push((BlockId(block as u32), was))?;
    }
    Ok(edges)
}
