//! The pieces of a string (RFC 8259 section 7).

ghost use Rattle.std.specs.Prelude.{◌≡◌, ◌<◌, IfOk, IsTrue};
ghost use Rattle.std.specs.Option.{option_map};
ghost use Rattle.project_json.specs.Strings.{is_unescaped, is_escape, escaped, is_hex, hex_value, unit_of};
ghost use Rattle.project_json.specs.Reading.{Gives, hex_at, unit_at, escape_at, piece_at};
ghost use Rattle.project_json.specs.PieceView.{piece_of};

use crate::stop::Stop;

/// A byte of a string's text, or a UTF-16 code unit that an escape names.
#[derive(Clone, Copy, Debug, PartialEq, Eq)]
pub enum Piece {
    Byte(u8),
    Unit(u16),
}

fn is_unescaped(b: u8) -> bool
    ensures { result ≡ is_unescaped b }
{
    32 <= b && !(b == b'"' || b == b'\\')
}

fn is_hex(b: u8) -> bool
    ensures { result ≡ is_hex b }
{
    (b'0' <= b && b <= b'9') || (b'A' <= b && b <= b'F') || (b'a' <= b && b <= b'f')
}

fn hex_value(b: u8) -> u16
    requires { IsTrue (is_hex b) }
    ensures value { result ≡ hex_value b }
    ensures small { result < 16 }
{
    if b <= b'9' {
        u16::from(b - b'0')
    } else if b <= b'F' {
        u16::from(b - b'A' + 10)
    } else {
        u16::from(b - b'a' + 10)
    }
}

// A hexadecimal digit.
fn hex(bytes: &[u8]) -> Result<(u8, &[u8]), Stop>
    ensures gives { Gives (λ x. (x.0, x.1.now)) result (hex_at bytes.now) }
    ensures hex { IfOk result (λ x. IsTrue (is_hex x.0)) }
{
    match bytes {
        [] => Err(Stop::Syntax { left: 0 }),
        [b, rest @ ..] => {
            if is_hex(*b) {
                Ok((*b, rest))
            } else {
                Err(Stop::Syntax { left: bytes.len() })
            }
        }
    }
}

// The number that four hexadecimal digits write.
fn unit_of(a: u8, b: u8, c: u8, d: u8) -> u16
    requires a { IsTrue (is_hex a) }
    requires b { IsTrue (is_hex b) }
    requires c { IsTrue (is_hex c) }
    requires d { IsTrue (is_hex d) }
    ensures { result ≡ unit_of a b c d }
{
    let a = hex_value(a);
    let b = hex_value(b);
    let c = hex_value(c);
    let d = hex_value(d);
    ((a * 16 + b) * 16 + c) * 16 + d
}

// What stands behind a backslash and u.
fn unit(bytes: &[u8]) -> Result<(Piece, &[u8]), Stop>
    ensures { Gives (λ x. (piece_of x.0, x.1.now)) result (unit_at bytes.now) }
{
    let (a, rest) = hex(bytes)?;
    let (b, rest) = hex(rest)?;
    let (c, rest) = hex(rest)?;
    let (d, rest) = hex(rest)?;
    Ok((Piece::Unit(unit_of(a, b, c, d)), rest))
}

fn is_escape(b: u8) -> bool
    ensures { result ≡ is_escape b }
{
    b == b'"'
        || b == b'\\'
        || b == b'/'
        || b == b'b'
        || b == b'f'
        || b == b'n'
        || b == b'r'
        || b == b't'
}

fn escaped(b: u8) -> u8
    ensures { result ≡ escaped b }
{
    match b {
        b'b' => 8,
        b'f' => 12,
        b'n' => b'\n',
        b'r' => b'\r',
        b't' => b'\t',
        _ => b,
    }
}

// What stands behind a backslash.
fn escape(bytes: &[u8]) -> Result<(Piece, &[u8]), Stop>
    ensures { Gives (λ x. (piece_of x.0, x.1.now)) result (escape_at bytes.now) }
{
    match bytes {
        [] => Err(Stop::Syntax { left: 0 }),
        [b, rest @ ..] => {
            if *b == b'u' {
                return unit(rest);
            }
            if is_escape(*b) {
                return Ok((Piece::Byte(escaped(*b)), rest));
            }
            Err(Stop::Syntax { left: bytes.len() })
        }
    }
}

/// The piece at the front and the bytes after it; no piece, where the quotation mark stands there
/// that ends the string.
pub fn next_piece(bytes: &[u8]) -> Result<(Option<Piece>, &[u8]), Stop>
    ensures { Gives (λ x. (option_map piece_of x.0, x.1.now)) result (piece_at bytes.now) }
{
    match bytes {
        [] => Err(Stop::Syntax { left: 0 }),
        [b, rest @ ..] => {
            if *b == b'"' {
                return Ok((None, rest));
            }
            if *b == b'\\' {
                let (piece, rest) = escape(rest)?;
                return Ok((Some(piece), rest));
            }
            if is_unescaped(*b) {
                return Ok((Some(Piece::Byte(*b)), rest));
            }
            Err(Stop::Syntax { left: bytes.len() })
        }
    }
}
