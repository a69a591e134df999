//! How a call ends.

ghost use Rattle.std.specs.Prelude.{◌≡◌, ◌++◌};
ghost use Rattle.report_command.specs.Stages.{unfetched};
ghost use Rattle.report_command.specs.Told.{text_of_status, exit_of_status};

use project_spec::Refusal;
use sv_channels::FetchError;

/// How a call of `report` ends.
#[derive(Debug, Drop)]
pub enum Status {
    /// The project loads, and what it has was written.
    Done,
    /// The words are not one name.
    Usage,
    /// The project file could not be read.
    ReadFault,
    /// The text could not be written.
    WriteFault,
    /// The project is refused, and why was written. Want of memory never stands here.
    BadProject(Refusal),
    /// The project file is longer than its limit, in bytes.
    TooLarge { limit: u64 },
    /// Memory ran out.
    NoMemory,
}

impl From<FetchError> for Status {
    ghost from_gives = { λ error status. status ≡ unfetched error };

    fn from(error: FetchError) -> Status {
        match error {
            FetchError::Failed => Status::ReadFault,
            FetchError::TooLarge { limit } => Status::TooLarge { limit },
            FetchError::NoMemory => Status::NoMemory,
        }
    }
}

/// What tells a status: its name, and the rule that a project breaks.
pub fn told(status: &Status) -> (&'static str, &'static str)
    ensures { result.0.now ++ result.1.now ≡ text_of_status status.now }
{
    match status {
        Status::Done => ("Done", ""),
        Status::Usage => ("Usage", ""),
        Status::ReadFault => ("ReadFault", ""),
        Status::WriteFault => ("WriteFault", ""),
        Status::BadProject(refusal) => match refusal.rule() {
            Some(rule) => ("BadProject ", rule),
            None => ("NoMemory", ""),
        },
        Status::TooLarge { .. } => ("TooLarge", ""),
        Status::NoMemory => ("NoMemory", ""),
    }
}

/// The number with which the command ends.
pub fn exit_number(status: &Status) -> u8
    ensures { result ≡ exit_of_status status.now }
{
    match status {
        Status::Done => 0,
        Status::Usage => 1,
        Status::ReadFault => 2,
        Status::WriteFault => 3,
        Status::BadProject(refusal) => match refusal.rule() {
            Some(_) => 4,
            None => 9,
        },
        Status::TooLarge { .. } => 8,
        Status::NoMemory => 9,
    }
}
