//! Strings and names (RFC 8259 sections 7 and 4).

ghost use Rattle.std.specs.Prelude.{◌≡◌};
ghost use Rattle.project_json.specs.Reading.{Gives, Utf8, chars_at, name_at};

use crate::scanner::{after_byte, skip};
use crate::stop::Stop;
use crate::string_texts::chars;
use crate::text::Text;
use std::alloc::Global;

/// The text behind a quotation mark up to the one that ends it, and the bytes after it.
pub fn chars_of(alloc: Global, bytes: &[u8]) -> Result<(Text, &[u8]), Stop>
    requires { Utf8 bytes.now }
    ensures { Gives (λ x. (x.0, x.1.now)) result (chars_at bytes.now) }
{
    let (text, rest) = chars(alloc, bytes)?;
    Ok((Text::from_utf8(text), rest))
}

/// A name, and the bytes after the colon behind it.
pub fn name_of(alloc: Global, bytes: &[u8]) -> Result<(Text, &[u8]), Stop>
    requires { Utf8 bytes.now }
    ensures { Gives (λ x. (x.0, x.1.now)) result (name_at bytes.now) }
{
    let rest = after_byte(bytes, b'"')?;
    let (name, rest) = chars_of(alloc, rest)?;
    let rest = after_byte(skip(rest), b':')?;
    Ok((name, rest))
}
