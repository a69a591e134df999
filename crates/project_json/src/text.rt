//! Texts and numbers of a document.

ghost use Rattle.std.specs.Prelude.{◌≡◌, [], bytes_eq, string_bytes, IfOk};
ghost use Rattle.std.specs.Cmp.{partial_equiv_from_equiv};
ghost use Rattle.std.specs.Cmp.Lexicographic.{nat_list_eq_equiv};
ghost use Rattle.project_json.specs.Reading.{Utf8};

use lists::ListOf;
use std::alloc::{AllocError, Global};
use std::marker::Model;

/// Texts, in order.
pub type Texts = ListOf<Text>;

/// A text. Contracts see it as the list of its bytes, which are UTF-8.
#[derive(Debug)]
pub struct Text {
    text: String,
}

// Not derived: whoever holds one calls this, and does not prove anew how it is taken apart.
impl Drop for Text {
    fn drop(self) {
        let Text { text: _text } = self;
    }
}

impl Model for Text {
    ghost use Rattle.std.specs.Prelude.{List, ℕ, string_bytes};

    ghost Value = { List ℕ };

    ghost view = { λ a. string_bytes a.text };
}

impl Text {
    /// The empty text. It takes no memory.
    pub fn new(alloc: Global) -> Text
        ensures { result ≡ [] }
    {
        Text {
            text: String::new(alloc),
        }
    }

    /// A copy of the text.
    pub fn from_str(alloc: Global, text: &str) -> Result<Text, AllocError>
        ensures { IfOk result (λ t. t ≡ text.now) }
    {
        Ok(Text {
            text: String::from_str(alloc, text)?,
        })
    }

    /// The text of a string, which it takes over. It takes no memory.
    pub fn from_string(text: String) -> Text
        ensures { result ≡ string_bytes text }
    {
        Text { text }
    }

    /// The text of these bytes.
    #[tactic(auto, unfolding(crate::specs::Reading::Utf8))]
    pub(crate) fn from_utf8(bytes: Vec<u8>) -> Text
        requires { Utf8 bytes.items }
        ensures { result ≡ bytes.items }
    {
        Text {
            text: String::from_utf8(bytes).unwrap(),
        }
    }

    pub fn as_str(&self) -> &str
        ensures { result.now ≡ self.now }
    {
        self.text.as_str()
    }
}

impl Clone for Text {
    ghost is_clone = { λ s t. t ≡ s };

    fn clone(&self) -> Result<Text, AllocError> {
        Ok(Text {
            text: self.text.clone()?,
        })
    }
}

impl PartialEq for Text {
    ghost eq = { bytes_eq };

    ghost laws = { partial_equiv_from_equiv nat_list_eq_equiv };

    fn eq(&self, other: &Text) -> bool {
        self.text == other.text
    }
}

impl Eq for Text {
    ghost laws = { nat_list_eq_equiv };
}

/// A number as its own text, such as `-12`. Contracts see it as the list of the text's bytes.
#[derive(Debug, Drop)]
pub struct Decimal {
    digits: Text,
}

impl Model for Decimal {
    ghost use Rattle.std.specs.Prelude.{List, ℕ};

    ghost Value = { List ℕ };

    ghost view = { λ a. a.digits };
}

impl Clone for Decimal {
    ghost is_clone = { λ s t. t ≡ s };

    fn clone(&self) -> Result<Decimal, AllocError> {
        Ok(Decimal {
            digits: self.digits.clone()?,
        })
    }
}

impl Decimal {
    pub(crate) fn new(digits: Text) -> Decimal
        ensures { result ≡ digits }
    {
        Decimal { digits }
    }

    /// The number's own text.
    pub fn digits(&self) -> &Text
        ensures { result.now ≡ self.now }
    {
        &self.digits
    }
}
