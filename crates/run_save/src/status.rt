//! How a call of a player ends.

ghost use Rattle.std.specs.Prelude.{◌≡◌, IfOk, string_bytes, option_map};
ghost use Rattle.run_save.specs.Statuses.{told_text, text_of_rule, text_of_line, text_of_status, exit_of_line, exit_of_status};

use itoa::Buffer;
use machine_spec::LineRefusal;
use project_spec::Refusal;
use saved_spec::SaveRefusal;
use script_words::CounterKind;
use std::alloc::{AllocError, Global};

/// Which of the files that the words name.
#[derive(Clone, Copy, Debug, PartialEq, Eq)]
pub enum Which {
    Project,
    Saved,
    Script,
}

/// A limit of a run.
#[derive(Clone, Copy, Debug, PartialEq, Eq)]
pub enum Limit {
    /// 65,536 levels are open over all threads.
    Stack,
    /// A text would be longer than 1,048,576 bytes: its length in bytes.
    Text { length: u64 },
    /// A counter has no number left.
    Counter { which: CounterKind },
    /// The text of the saved run would be longer than 128 MiB: its length in bytes.
    Save { length: u64 },
}

/// How a call of `play` ends.
#[derive(Debug, Drop)]
pub enum Status {
    /// All was done: the script was read to its last line, and the run was saved where a name to save it under was given; or
    /// the project was accepted and this was written.
    Done,
    /// The words are none of the forms.
    Usage,
    /// A file that the words name could not be read.
    ReadFault,
    /// A piece of the output could not be written, or the saved run could not be put.
    WriteFault,
    /// The project is refused. Want of memory never stands here.
    BadProject(Refusal),
    /// The saved run is refused. Want of memory never stands here.
    BadSave(SaveRefusal),
    /// A line of the script is refused. Want of memory never stands here.
    BadScript(LineRefusal),
    /// The run reached a limit, whose line was written in place of a frame's text, or of saving.
    Limit(Limit),
    /// A file is longer than its limit, in bytes.
    TooLarge { which: Which, limit: u64 },
    /// Memory ran out.
    NoMemory,
}

/// What stands behind the name of a status.
#[derive(Clone, Copy, Debug, PartialEq, Eq)]
pub enum Detail {
    /// Nothing.
    Nothing,
    /// The rule that a project or a saved run breaks.
    Rule(&'static str),
    /// The number of a line of the script, from 1.
    Line(u64),
}

// What tells a refused line: the name with the number of the refusal and a space, before the line's number.
fn told_line(refusal: &LineRefusal) -> (&'static str, Detail)
    ensures { told_text result.0.now result.1 ≡ text_of_line refusal.now }
{
    match refusal {
        LineRefusal::NotUtf8 { line } => ("BadScript 1 ", Detail::Line(*line)),
        LineRefusal::UnknownLine { line } => ("BadScript 2 ", Detail::Line(*line)),
        LineRefusal::BadNumber { line } => ("BadScript 3 ", Detail::Line(*line)),
        LineRefusal::OutOfRange { line } => ("BadScript 4 ", Detail::Line(*line)),
        LineRefusal::ClockBack { line, .. } => ("BadScript 5 ", Detail::Line(*line)),
        LineRefusal::NoMemory => ("NoMemory", Detail::Nothing),
    }
}

// What tells a refused project or saved run: the name of the status, before the rule.
fn told_rule(name: &'static str, rule: Option<&'static str>) -> (&'static str, Detail)
    ensures { told_text result.0.now result.1 ≡ text_of_rule name.now (option_map (λ r. r.now) rule.entry) }
{
    match rule {
        Some(rule) => (name, Detail::Rule(rule)),
        None => ("NoMemory", Detail::Nothing),
    }
}

/// What tells a status: its name, after a refused project or saved run the rule that is broken, and after a refused line, whose
/// name has the number of the refusal, the number of the line.
pub fn told(status: &Status) -> (&'static str, Detail)
    ensures { told_text result.0.now result.1 ≡ text_of_status status.now }
{
    match status {
        Status::Done => ("Done", Detail::Nothing),
        Status::Usage => ("Usage", Detail::Nothing),
        Status::ReadFault => ("ReadFault", Detail::Nothing),
        Status::WriteFault => ("WriteFault", Detail::Nothing),
        Status::BadProject(refusal) => told_rule("BadProject ", refusal.rule()),
        Status::BadSave(refusal) => told_rule("BadSave ", refusal.rule()),
        Status::BadScript(refusal) => told_line(refusal),
        Status::Limit(_) => ("Limit", Detail::Nothing),
        Status::TooLarge { .. } => ("TooLarge", Detail::Nothing),
        Status::NoMemory => ("NoMemory", Detail::Nothing),
    }
}

/// The text that tells a status: its name, after a refused project or saved run the rule that is broken, and
/// after a refused line the number of the refusal and the line.
pub fn status_text(alloc: Global, status: &Status) -> Result<String, AllocError>
    ensures { IfOk result (λ text. string_bytes text ≡ text_of_status status.now) }
{
    let (name, detail) = told(status);
    let mut text = String::from_str(alloc, name)?;
    match detail {
        Detail::Nothing => Ok(text),
        Detail::Rule(rule) => {
            text.push_str(rule)?;
            Ok(text)
        }
        Detail::Line(line) => {
            let mut buffer = Buffer::new();
            text.push_str(buffer.format(line))?;
            Ok(text)
        }
    }
}

// The number of a refused line.
fn line_number(refusal: &LineRefusal) -> u8
    ensures { result ≡ exit_of_line refusal.now }
{
    match refusal {
        LineRefusal::NoMemory => 9,
        _ => 5,
    }
}

/// The number with which the command ends.
pub fn exit_number(status: &Status) -> u8
    ensures { result ≡ exit_of_status status.now }
{
    match status {
        Status::Done => 0,
        Status::Usage => 1,
        Status::ReadFault => 2,
        Status::WriteFault => 3,
        Status::BadProject(refusal) => match refusal.rule() {
            Some(_) => 4,
            None => 9,
        },
        Status::BadScript(refusal) => line_number(refusal),
        Status::BadSave(refusal) => match refusal.rule() {
            Some(_) => 6,
            None => 9,
        },
        Status::Limit(_) => 7,
        Status::TooLarge { .. } => 8,
        Status::NoMemory => 9,
    }
}
