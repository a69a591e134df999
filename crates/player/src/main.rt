//! Plays Scratch 3 projects: the same bytes for the same files, on every machine.
#![tactic(auto)]

use call_outcomes::{edges_of, tell};
use itoa::Buffer;
use play_command::{Detail, Status, exit_number, play, told};
use std::env;
use std::process::ExitCode;
use sv_channels::{WordsError, words_of};

// Plays with real files and the standard output.
fn run(rt: &HostRuntime) -> Status {
    let words = match words_of(rt.alloc(), env::args(rt)) {
        Ok(words) => words,
        Err(WordsError::NotText) => return Status::Usage,
        Err(WordsError::NoMemory) => return Status::NoMemory,
    };
    match edges_of(rt) {
        Ok((mut shelf, mut out)) => play(rt.alloc(), &words, &mut shelf, &mut out),
        Err(_) => Status::NoMemory,
    }
}

fn main(rt: HostRuntime) -> ExitCode {
    let status = run(&rt);
    if !matches!(status, Status::Done) {
        let (name, detail) = told(&status);
        let mut buffer = Buffer::new();
        let rest = match detail {
            Detail::Nothing => "",
            Detail::Rule(rule) => rule,
            Detail::Line(line) => buffer.format(line),
        };
        tell(&rt, name, rest);
    }
    ExitCode::from(exit_number(&status))
}
