//! Steps over bytes: blanks, words and marks.

ghost use Rattle.std.specs.Prelude.{◌≡◌, ◌≢◌};
ghost use Rattle.project_json.specs.Reading.{Gives, skip, after_word, after_byte, mark_at};

use crate::stop::Stop;

/// The bytes after the blanks at the front (RFC 8259 section 2).
pub fn skip(bytes: &[u8]) -> &[u8]
    ensures { result.now ≡ skip bytes.now }
{
    let mut rest = bytes;
    while let [b' ' | b'\t' | b'\n' | b'\r', more @ ..] = rest {
        rest = more;
    }
    rest
}

/// The bytes after the word.
pub fn after_word<'a>(bytes: &'a [u8], word: &[u8]) -> Result<&'a [u8], Stop>
    ensures { Gives (λ x. x.now) result (after_word word.now bytes.now) }
{
    let mut rest = bytes;
    for w in word {
        match rest {
            [] => return Err(Stop::Syntax { left: 0 }),
            [b, more @ ..] => {
                if b != w {
                    return Err(Stop::Syntax { left: rest.len() });
                }
                rest = more;
            }
        }
    }
    Ok(rest)
}

/// The bytes after this one.
pub fn after_byte(bytes: &[u8], byte: u8) -> Result<&[u8], Stop>
    ensures { Gives (λ x. x.now) result (after_byte byte bytes.now) }
{
    after_word(bytes, &[byte])
}

/// Whether a comma stands here, or else the byte that closes, and the bytes after it.
pub fn mark(bytes: &[u8], close: u8) -> Result<(bool, &[u8]), Stop>
    requires { close ≢ 44 }
    ensures { Gives (λ x. (x.0, x.1.now)) result (mark_at close bytes.now) }
{
    match bytes {
        [] => Err(Stop::Syntax { left: 0 }),
        [b, rest @ ..] => {
            if *b == b',' {
                Ok((true, rest))
            } else if *b == close {
                Ok((false, rest))
            } else {
                Err(Stop::Syntax { left: bytes.len() })
            }
        }
    }
}
