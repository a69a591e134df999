//! The lines of an input script.

use crate::devices::Key;
use scratch_values::BoundText;

/// What a frame line hands in: the clock in milliseconds, how many passes at most, and the warp budget in executions.
#[derive(Clone, Copy, PartialEq, Eq, Debug)]
pub struct Budget {
    pub clock: u64,
    pub passes: u32,
    pub warp: u32,
}

/// A line of an input script.
#[derive(Debug, Drop)]
pub enum Line {
    Nothing,
    Flag,
    Stop,
    KeyDown(Key),
    KeyUp(Key),
    Mouse { x: i32, y: i32 },
    Button(bool),
    Click(u32),
    Answer(BoundText),
    Turbo(bool),
    Frame(Budget),
}

/// Why a line is refused, each with its number from 1.
#[derive(Clone, Copy, PartialEq, Eq, Debug)]
pub enum LineRefusal {
    /// The line is not UTF-8.
    NotUtf8 { line: u64 },
    /// Its words fit no line.
    UnknownLine { line: u64 },
    /// A number word is no number.
    BadNumber { line: u64 },
    /// A number or a text is outside its range.
    OutOfRange { line: u64 },
    /// The clock goes back: the last reading, and this line's.
    ClockBack { line: u64, was: u64, is: u64 },
    /// Memory ran out.
    NoMemory,
}
