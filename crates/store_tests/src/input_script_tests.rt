//! Lines of worked scripts, and the reader from line to line.

mod good_lines;
mod key_lines;
mod refused_lines;

use input_script::{Budget, Key, Line, LineRefusal, Script};
use std::process::Abort;

// What a line is to be read as, or how it is to be refused.
#[derive(Drop)]
enum Wanted {
    Nothing,
    Flag,
    Stop,
    Down(Key),
    Up(Key),
    Mouse(i32, i32),
    Button(bool),
    Click(u32),
    Answer(&'static str),
    Turbo(bool),
    Frame(u64, u32, u32),
    NotUtf8,
    UnknownLine,
    BadNumber,
    OutOfRange,
    ClockBack(u64, u64),
}

impl Wanted {
    fn is_line(&self, line: &Line) -> bool {
        match (self, line) {
            (Wanted::Nothing, Line::Nothing) => true,
            (Wanted::Flag, Line::Flag) => true,
            (Wanted::Stop, Line::Stop) => true,
            (Wanted::Down(wanted), Line::KeyDown(key)) => wanted == key,
            (Wanted::Up(wanted), Line::KeyUp(key)) => wanted == key,
            (Wanted::Mouse(a, b), Line::Mouse { x, y }) => a == x && b == y,
            (Wanted::Button(wanted), Line::Button(down)) => wanted == down,
            (Wanted::Click(wanted), Line::Click(place)) => wanted == place,
            (Wanted::Answer(wanted), Line::Answer(text)) => text.as_str() == *wanted,
            (Wanted::Turbo(wanted), Line::Turbo(on)) => wanted == on,
            (Wanted::Frame(clock, passes, warp), Line::Frame(budget)) => {
                let wanted = Budget {
                    clock: *clock,
                    passes: *passes,
                    warp: *warp,
                };
                *budget == wanted
            }
            _ => false,
        }
    }

    fn is_refusal(&self, refusal: &LineRefusal) -> bool {
        let line = 1;
        match self {
            Wanted::NotUtf8 => *refusal == LineRefusal::NotUtf8 { line },
            Wanted::UnknownLine => *refusal == LineRefusal::UnknownLine { line },
            Wanted::BadNumber => *refusal == LineRefusal::BadNumber { line },
            Wanted::OutOfRange => *refusal == LineRefusal::OutOfRange { line },
            Wanted::ClockBack(was, is) => {
                *refusal
                    == LineRefusal::ClockBack {
                        line,
                        was: *was,
                        is: *is,
                    }
            }
            _ => false,
        }
    }

    fn is_of(&self, read: &Result<Option<Line>, LineRefusal>) -> bool {
        match read {
            Ok(Some(line)) => self.is_line(line),
            Ok(None) => false,
            Err(refusal) => self.is_refusal(refusal),
        }
    }
}

// A script of one line, behind this clock reading.
fn read_one(rt: &impl AllocGlobal, line: &[u8], clock: u64) -> Result<Option<Line>, LineRefusal> {
    Script::new(rt.alloc(), line, clock).next_line()
}

#[test]
fn lines_end_by_a_line_feed_and_the_last_may_lack_it(rt: HostRuntime) {
    for text in ["flag\n\nstop\n", "flag\n\nstop"] {
        let mut script = Script::new(rt.alloc(), text.as_bytes(), 0);
        assert!(rt; Wanted::Flag.is_of(&script.next_line()));
        assert!(rt; Wanted::Nothing.is_of(&script.next_line()));
        assert!(rt; Wanted::Stop.is_of(&script.next_line()));
        assert!(rt; matches!(script.next_line(), Ok(None)));
        assert!(rt; matches!(script.next_line(), Ok(None)));
    }
}

#[test]
fn an_empty_script_has_no_line(rt: HostRuntime) {
    assert!(rt; matches!(read_one(&rt, b"", 7), Ok(None)));
}

#[test]
fn the_clock_does_not_go_back_and_a_refused_line_stays(rt: HostRuntime) {
    let mut script = Script::new(rt.alloc(), b"frame 100 1 1\nframe 50 1 1\n", 0);
    assert!(rt; Wanted::Frame(100, 1, 1).is_of(&script.next_line()));
    let back = LineRefusal::ClockBack {
        line: 2,
        was: 100,
        is: 50,
    };
    for _ in 0..2 {
        match script.next_line() {
            Ok(_) => assert!(rt; false),
            Err(refusal) => assert!(rt; refusal == back),
        }
    }
}

#[test]
fn a_clock_may_stay(rt: HostRuntime) {
    let mut script = Script::new(rt.alloc(), b"frame 5 1 1\nstop\nframe 5 1 1", 5);
    assert!(rt; Wanted::Frame(5, 1, 1).is_of(&script.next_line()));
    assert!(rt; Wanted::Stop.is_of(&script.next_line()));
    assert!(rt; Wanted::Frame(5, 1, 1).is_of(&script.next_line()));
}

#[test]
fn an_answer_has_at_most_a_mebibyte(rt: HostRuntime) {
    let mut line = String::from_str(rt.alloc(), "answer ").expect(&rt, "memory");
    for _ in 0..1_048_576 {
        line.push('x').expect(&rt, "memory");
    }
    match read_one(&rt, line.as_bytes(), 0) {
        Ok(Some(Line::Answer(text))) => assert_eq!(rt; text.as_str().len(), 1_048_576),
        _ => assert!(rt; false),
    }
    line.push('x').expect(&rt, "memory");
    assert!(rt; Wanted::OutOfRange.is_of(&read_one(&rt, line.as_bytes(), 0)));
}
