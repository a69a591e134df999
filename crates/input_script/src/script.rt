//! The reader of an input script, line by line.

ghost use Rattle.std.specs.Prelude.{◌≡◌, ◌<◌, IfOk, OnErr, IfSome, option_map, length};
ghost use Rattle.machine_spec.specs.ScriptText as text;
ghost use Rattle.input_script.specs.Reader.{IsForward, IsLineBefore, Refuses, next_reading, reader_after};

use crate::cuts::first_line;
use crate::line_reader::reading_of;
use machine_spec::{Line, LineRefusal};
use std::alloc::Global;
use std::marker::Model;

/// Reads a script line by line. Contracts see the bytes that are left, the lines in them, how many lines were read, and the
/// last clock reading.
#[derive(Drop)]
pub struct Script<'a> {
    alloc: Global,
    rest: &'a [u8],
    number: u64,
    last: u64,
}

impl<'a> Model for Script<'a> {
    ghost use Rattle.std.specs.Prelude.{◌+◌, ◌<◌, ◌^◌, length};
    ghost use Rattle.machine_spec.specs.ScriptText.{lines_of};
    ghost use Rattle.input_script.specs.Reader.{Reader};

    ghost Value = { Reader };

    ghost view = { λ s. record { rest = s.rest.now; lines = lines_of s.rest.now; number = s.number; last = s.last } };

    ghost invariant = { λ s. s.number + length s.rest.now < 2 ^ 64 };
}

// The last clock reading behind a good line.
fn clock_after(last: u64, line: &Line) -> u64
    ensures { result ≡ text.clock_after last (text.Good line.now) }
{
    match line {
        Line::Frame(budget) => budget.clock,
        _ => last,
    }
}

impl<'a> Script<'a> {
    /// A reader of these bytes, before the first line; `clock` is the last clock reading before them, in milliseconds.
    pub fn new(alloc: Global, bytes: &'a [u8], clock: u64) -> Script<'a>
        ensures { result ≡ record { rest = bytes.now; lines = text.lines_of bytes.now; number = 0; last = clock } }
    {
        Script {
            alloc,
            rest: bytes,
            number: 0,
            last: clock,
        }
    }

    /// The bytes that it has not read yet: another reader can go on from there.
    #[inline]
    pub fn rest(&self) -> &'a [u8]
        ensures rest { result.now ≡ self.now.rest }
        ensures lines { self.now.lines ≡ text.lines_of result.now }
    {
        self.rest
    }

    /// The next line, or `None` exactly at the end. Each refusal has the line's number, from 1. The only error that is no
    /// refusal is want of memory. After each of them the reader is unchanged.
    pub fn next_line(&mut self) -> Result<Option<Line>, LineRefusal>
        ensures ok { IfOk result (λ line. next_reading self.old ≡ option_map text.Good line) }
        ensures refused { Refuses result (next_reading self.old) }
        ensures after { IfOk result (λ line. self.new ≡ reader_after line self.old) }
        ensures err { OnErr result (self.new ≡ self.old) }
        ensures shorter { IfOk result (λ line. IfSome line (λ _. length self.new.lines < length self.old.lines)) }
        ensures parted { IfOk result (λ line. IfSome line (λ _. IsLineBefore self.old.rest self.new.rest)) }
        ensures forward { IfOk result (λ line. IfSome line (IsForward self.old.last)) }
    {
        let Some((bytes, after)) = first_line(self.rest) else {
            return Ok(None);
        };
        let number = self.number + 1;
        let line = match reading_of(self.alloc, number, self.last, bytes) {
            Ok(line) => line,
            Err(refusal) => return Err(refusal),
        };
        self.rest = after;
        self.number = number;
        self.last = clock_after(self.last, &line);
        Ok(Some(line))
    }
}
