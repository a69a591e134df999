//! Says in plain words what a Scratch 3 project has, or why and where it is refused, and what to change.
#![tactic(auto)]

use call_outcomes::{edges_of, tell};
use report_command::{Status, exit_number, report, told};
use std::env;
use std::process::ExitCode;
use sv_channels::{WordsError, words_of};

// Reports with real files and the standard output.
fn run(rt: &HostRuntime) -> Status {
    let words = match words_of(rt.alloc(), env::args(rt)) {
        Ok(words) => words,
        Err(WordsError::NotText) => return Status::Usage,
        Err(WordsError::NoMemory) => return Status::NoMemory,
    };
    match edges_of(rt) {
        Ok((mut shelf, mut out)) => report(rt.alloc(), &words, &mut shelf, &mut out),
        Err(_) => Status::NoMemory,
    }
}

fn main(rt: HostRuntime) -> ExitCode {
    let status = run(&rt);
    if !matches!(status, Status::Done) {
        let (name, rule) = told(&status);
        tell(&rt, name, rule);
    }
    ExitCode::from(exit_number(&status))
}
