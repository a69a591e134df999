//! Joins the pieces of a string to its text.

ghost use Rattle.std.specs.Prelude.{◌≡◌, ◌++◌, Some, None, IfOk, OnOk, IsTrue, IsFalse};
ghost use Rattle.std.specs.Char.{encode_utf8};
ghost use Rattle.std.specs.Char.Utf16.{surrogate_pair_char};
ghost use Rattle.project_json.specs.Strings.{is_high, is_low};
ghost use Rattle.project_json.specs.Strings.{unit as piece_unit, byte as piece_byte};
ghost use Rattle.project_json.specs.Joining.{IsWaiting, flushed, single, added, waiting};
ghost use Rattle.project_json.specs.Reading.{Gives, chars_at};
ghost use Rattle.project_json.specs.PieceView.{piece_of};

use crate::pieces::{Piece, next_piece};
use crate::stop::Stop;
use std::alloc::{AllocError, Global};

fn is_high(unit: u16) -> bool
    ensures { result ≡ is_high unit }
{
    0xD800 <= unit && unit < 0xDC00
}

fn is_low(unit: u16) -> bool
    ensures { result ≡ is_low unit }
{
    0xDC00 <= unit && unit < 0xE000
}

fn push_char(buffer: &mut Vec<u8>, c: char) -> Result<(), AllocError>
    ensures { OnOk result (buffer.new.items ≡ buffer.old.items ++ encode_utf8 c) }
{
    let mut scratch = [0u8; 4];
    let text = c.encode_utf8(&mut scratch);
    buffer.extend_from_slice(text.as_bytes())
}

// The character of a unit that is no high surrogate and in no pair.
fn single(unit: u16) -> char
    requires { IsFalse (is_high unit) }
    ensures { encode_utf8 result ≡ single unit }
{
    match char::from_u32(u32::from(unit)) {
        Some(c) => c,
        None => '\u{FFFD}',
    }
}

// The character of two surrogates.
fn pair(high: u16, low: u16) -> char
    requires high { IsTrue (is_high high) }
    requires low { IsTrue (is_low low) }
    ensures { result ≡ surrogate_pair_char high low }
{
    let code = 0x10000 + (u32::from(high) - 0xD800) * 0x400 + (u32::from(low) - 0xDC00);
    match char::from_u32(code) {
        Some(c) => c,
        None => '\u{FFFD}',
    }
}

// Ends a high surrogate that waits in vain.
fn flush(buffer: &mut Vec<u8>, high: Option<u16>) -> Result<(), AllocError>
    ensures { OnOk result (buffer.new.items ≡ buffer.old.items ++ flushed high) }
{
    match high {
        None => Ok(()),
        Some(_) => push_char(buffer, '\u{FFFD}'),
    }
}

// Adds a unit where none waits for its partner. Answers what waits then.
fn add_alone(buffer: &mut Vec<u8>, unit: u16) -> Result<Option<u16>, AllocError>
    ensures text { OnOk result (buffer.new.items ≡ buffer.old.items ++ added None (piece_unit unit)) }
    ensures waits { IfOk result (λ h. h ≡ waiting None (piece_unit unit)) }
{
    if is_high(unit) {
        return Ok(Some(unit));
    }
    push_char(buffer, single(unit))?;
    Ok(None)
}

// Adds a unit behind a high surrogate. Answers what waits then.
fn add_behind(buffer: &mut Vec<u8>, high: u16, unit: u16) -> Result<Option<u16>, AllocError>
    requires { IsTrue (is_high high) }
    ensures text { OnOk result (buffer.new.items ≡ buffer.old.items ++ added (Some high) (piece_unit unit)) }
    ensures waits { IfOk result (λ h. h ≡ waiting (Some high) (piece_unit unit)) }
{
    if is_low(unit) {
        push_char(buffer, pair(high, unit))?;
        return Ok(None);
    }
    push_char(buffer, '\u{FFFD}')?;
    add_alone(buffer, unit)
}

fn add_byte(buffer: &mut Vec<u8>, high: Option<u16>, byte: u8) -> Result<(), AllocError>
    ensures { OnOk result (buffer.new.items ≡ buffer.old.items ++ added high (piece_byte byte)) }
{
    flush(buffer, high)?;
    buffer.push(byte)?;
    Ok(())
}

// Adds a piece. Answers what waits then.
fn add(buffer: &mut Vec<u8>, high: Option<u16>, piece: Piece) -> Result<Option<u16>, AllocError>
    requires { IsWaiting high }
    ensures text { OnOk result (buffer.new.items ≡ buffer.old.items ++ added high (piece_of piece)) }
    ensures waits { IfOk result (λ h. h ≡ waiting high (piece_of piece)) }
{
    match piece {
        Piece::Byte(byte) => {
            add_byte(buffer, high, byte)?;
            Ok(None)
        }
        Piece::Unit(unit) => match high {
            None => add_alone(buffer, unit),
            Some(waits) => add_behind(buffer, waits, unit),
        },
    }
}

/// The text up to the quotation mark that ends it, in UTF-8, and the bytes after it.
#[tactic(auto, using(crate::proofs::Joins::joins_rules), unfolding(crate::specs::Reading::chars_at))]
pub fn chars(alloc: Global, bytes: &[u8]) -> Result<(Vec<u8>, &[u8]), Stop>
    ensures { Gives (λ x. (x.0.items, x.1.now)) result (chars_at bytes.now) }
{
    let mut buffer = Vec::new(alloc);
    let mut high = None;
    let mut rest = bytes;
    for _ in 0..bytes.len() {
        let (next, after) = next_piece(rest)?;
        match next {
            None => {
                flush(&mut buffer, high)?;
                return Ok((buffer, after));
            }
            Some(piece) => {
                high = add(&mut buffer, high, piece)?;
                rest = after;
            }
        }
    }
    Err(Stop::Syntax { left: rest.len() })
}
