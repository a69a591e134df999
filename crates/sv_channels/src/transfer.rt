//! Loops that read from a file and write to a file or to the standard output.

ghost use Rattle.std.specs.Prelude.{◌≡◌, ℕ, ◌≤◌, length, take, IfOk, IfSome};
ghost use Rattle.std.specs.Bool.{OnTrue, OnFalse};
ghost use Rattle.std.specs.Io.KnownBytes.{Appends, Consumes};
ghost use Rattle.sv_channels.specs.declared.transfer.ReadStop.TheVariants as stops;

use std::alloc::{AllocError, Global};
use std::io::{Read, Write};

// How many bytes are read at a time.
const BUFFER_LENGTH: usize = 16384;

/// Why a reader was not read to its end.
#[derive(Drop)]
pub enum ReadStop {
    /// A read failed.
    Failed,
    /// Memory ran out.
    NoMemory,
}

impl From<AllocError> for ReadStop {
    ghost from_gives = { λ _ stop. stop ≡ stops.NoMemory };

    fn from(_error: AllocError) -> ReadStop {
        ReadStop::NoMemory
    }
}

/// The first `most` bytes of a reader, or all of them where they are fewer; no byte behind them is taken. `Failed` where a
/// read fails, `NoMemory` only for want of memory.
pub fn read_up_to<F: Read>(alloc: Global, file: &mut F, most: u64) -> Result<Vec<u8>, ReadStop>
    ensures bound { IfOk result (λ bytes. length bytes.items ≤ most) }
    ensures bytes { IfOk result (λ bytes.
        IfSome (F.remaining file.old) (λ all. bytes.items ≡ take most all)) }
    // No more is read than is answered.
    ensures taken { IfOk result (λ bytes.
        Consumes (F.remaining file.old) (F.remaining file.new) bytes.items) }
{
    let mut bytes = Vec::new(alloc);
    let mut buffer = [0u8; BUFFER_LENGTH];
    for _ in 0..u64::MAX {
        let room = (most - bytes.len() as u64).min(BUFFER_LENGTH as u64) as usize;
        if room == 0 {
            return Ok(bytes);
        }
        match file.read(&mut buffer[..room]) {
            Ok(0) => return Ok(bytes),
            Ok(count) => bytes.extend_from_slice(&buffer[..count])?,
            Err(_) => return Err(ReadStop::Failed),
        }
    }
    Err(ReadStop::Failed)
}

/// Writes all the bytes, and says whether that went well. A write that takes none of them is a fault.
pub fn write_whole<W: Write>(writer: &mut W, bytes: &[u8]) -> bool
    ensures bytes { OnTrue result (Appends (W.contents writer.old) (W.contents writer.new) bytes.now) }

    // A first part of them is written before a fault.
    ensures part { OnFalse result ((count : ℕ) × (count ≤ length bytes.now)
        × Appends (W.contents writer.old) (W.contents writer.new) (take count bytes.now)) }
{
    let mut rest = bytes;
    for _ in 0..u64::MAX {
        if rest.is_empty() {
            return true;
        }
        match writer.write(rest) {
            Ok(count) if count > 0 => rest = &rest[count..],
            _ => return false,
        }
    }
    false
}
