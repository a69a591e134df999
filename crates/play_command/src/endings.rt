//! How a call ends, by what its stages answer.

ghost use Rattle.std.specs.Prelude.{◌≡◌};
ghost use Rattle.project_spec.specs.RuleNames.{project_rule};
ghost use Rattle.saved_spec.specs.RuleNames.{saved_rule};
ghost use Rattle.play_command.specs.Stages.{unfetched, refused_by, rejected_by, played_as};

use project_spec::Refusal;
use run_save::{Status, Which};
use saved_spec::SaveRefusal;
use script_play::PlayStop;
use sv_channels::FetchError;

// How a call ends where a file is not fetched.
pub(crate) fn unfetched(which: Which, error: FetchError) -> Status
    ensures { result ≡ unfetched which error }
{
    match error {
        FetchError::Failed => Status::ReadFault,
        FetchError::TooLarge { limit } => Status::TooLarge { which, limit },
        FetchError::NoMemory => Status::NoMemory,
    }
}

// How a call ends where a project is refused.
pub(crate) fn refused(refusal: Refusal) -> Status
    ensures { result ≡ refused_by refusal (project_rule refusal) }
{
    match refusal.rule() {
        Some(_) => Status::BadProject(refusal),
        None => Status::NoMemory,
    }
}

// How a call ends where a saved run is refused.
pub(crate) fn rejected(refusal: SaveRefusal) -> Status
    ensures { result ≡ rejected_by refusal (saved_rule refusal) }
{
    match refusal.rule() {
        Some(_) => Status::BadSave(refusal),
        None => Status::NoMemory,
    }
}

// How a call ends behind its play.
pub(crate) fn played(answer: Result<(), PlayStop>) -> Status
    ensures { result ≡ played_as answer }
{
    match answer {
        Ok(()) => Status::Done,
        Err(stop) => Status::from(stop),
    }
}
