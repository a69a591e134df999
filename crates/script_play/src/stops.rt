//! Why a play stops.

ghost use Rattle.std.specs.Prelude.{◌≡◌};
ghost use Rattle.script_play.specs.Stops.{status_of};

use machine_spec::LineRefusal;
use run_save::{Limit, Status};

/// Why a play stops before it has come to its end.
#[derive(Debug, Drop)]
pub enum PlayStop {
    /// A line of the script is refused. Want of memory never stands here.
    BadScript(LineRefusal),
    /// The run reached a limit, whose line was written.
    Limit(Limit),
    /// A text could not be written, or the saved run not be put.
    WriteFault,
    /// Memory ran out.
    NoMemory,
}

impl From<PlayStop> for Status {
    ghost from_gives = { λ stop status. status ≡ status_of stop };

    fn from(stop: PlayStop) -> Status {
        match stop {
            PlayStop::BadScript(refusal) => Status::BadScript(refusal),
            PlayStop::Limit(limit) => Status::Limit(limit),
            PlayStop::WriteFault => Status::WriteFault,
            PlayStop::NoMemory => Status::NoMemory,
        }
    }
}
