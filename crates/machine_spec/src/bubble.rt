//! Bubbles of sprites.

ghost use Rattle.std.specs.Prelude.{◌≡◌, [], IfOk};
ghost use Rattle.machine_spec.specs.BubbleText as bubbles;

use project_json::Text;
use std::alloc::{AllocError, Global};
use std::marker::Model;

/// A say bubble or a think bubble.
#[derive(Clone, Copy, PartialEq, Eq, Debug)]
pub enum Say {
    Say,
    Think,
}

/// The text of a bubble, of at most 330 characters. Contracts see it as the list of its bytes.
#[derive(Debug, Drop)]
pub struct BubbleText {
    text: Text,
}

impl Model for BubbleText {
    ghost use Rattle.std.specs.Prelude.{List, ℕ};
    ghost use Rattle.machine_spec.specs.BubbleText.{IsShort};

    ghost Value = { List ℕ };

    ghost view = { λ a. a.text };

    ghost invariant = { λ a. IsShort a.text };
}

impl BubbleText {
    /// The empty text, which is no bubble. It takes no memory.
    pub fn new(alloc: Global) -> BubbleText
        ensures { result ≡ [] }
    {
        BubbleText {
            text: Text::new(alloc),
        }
    }

    /// The first 330 characters of a text. The only error is want of memory.
    pub fn cut(alloc: Global, text: &str) -> Result<BubbleText, AllocError>
        ensures { IfOk result (λ t. t ≡ bubbles.cut text.now) }
    {
        let text = format!(in alloc; "{:.330}", text)?;
        Ok(BubbleText {
            text: Text::from_string(text),
        })
    }

    /// The text.
    pub fn as_str(&self) -> &str
        ensures { result.now ≡ self.now }
    {
        self.text.as_str()
    }
}

/// A bubble and the number of its latest update. The empty text is no bubble.
#[derive(Debug, Drop)]
pub struct Bubble {
    pub kind: Say,
    pub text: BubbleText,
    pub usage: u64,
}
