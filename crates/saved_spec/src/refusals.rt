//! Why bytes are no saved run of a project.

ghost use Rattle.std.specs.Prelude.{◌≡◌};
ghost use Rattle.saved_spec.specs.declared.refusals.SaveRefusal.TheVariants.{NoMemory};

use project_json::Text;
use std::alloc::{AllocError, AllocFailed};
use thiserror::Error;

/// Why bytes are no saved run of a project, in the order of the tests, but for the version, which is tested before shapes
/// (docs/refusals.md).
#[derive(Debug, Drop, Error)]
pub enum SaveRefusal {
    /// The bytes are no JSON text in UTF-8, or its brackets nest more than 127 deep.
    #[error("the saved run is no JSON text")]
    Json,
    /// The value at the path has not its shape; the path of the whole is empty.
    #[error("the saved run has another shape at `{}`", .path.as_str())]
    Shape { path: Text },
    /// The saved run is of version `n`, which is not read.
    #[error("the saved run has version {n}")]
    Version { n: u64 },
    /// The saved run is of the project file with the digest `kept`; the one that was given has the digest `given`. Both are
    /// 64 lower-case hexadecimal digits.
    #[error("the saved run is of the project {}, not of {}", .kept.as_str(), .given.as_str())]
    OtherProject { kept: Text, given: Text },
    /// The member `path` breaks a rule.
    #[error("the saved run breaks a rule in `{}`", .path.as_str())]
    BadReference { path: Text },
    /// No thread can stand as the one with the number `serial` does.
    #[error("the thread {serial} of the saved run cannot stand so")]
    BadThread { serial: u64 },
    /// The bytes are not those that are written for this run; `at` is how many stand before the first that differs.
    #[error("the saved run is written in another way from byte {at} on")]
    Spelling { at: u64 },
    /// Memory ran out.
    #[error("out of memory")]
    NoMemory,
}

impl SaveRefusal {
    ghost use Rattle.std.specs.Prelude.{◌≡◌, option_map};
    ghost use Rattle.saved_spec.specs.RuleNames.{saved_rule};

    /// The name of the rule that is broken, `S1` to `S7`, or `None` where memory ran out. docs/refusals.md tells the rules.
    pub fn rule(&self) -> Option<&'static str>
        ensures { option_map (λ rule. rule.now) result ≡ saved_rule self.now }
    {
        match self {
            SaveRefusal::Json => Some("S1"),
            SaveRefusal::Shape { .. } => Some("S2"),
            SaveRefusal::Version { .. } => Some("S3"),
            SaveRefusal::OtherProject { .. } => Some("S4"),
            SaveRefusal::BadReference { .. } => Some("S5"),
            SaveRefusal::BadThread { .. } => Some("S6"),
            SaveRefusal::Spelling { .. } => Some("S7"),
            SaveRefusal::NoMemory => None,
        }
    }
}

impl From<AllocError> for SaveRefusal {
    ghost from_gives = { λ _ e. e ≡ NoMemory };

    fn from(_error: AllocError) -> SaveRefusal {
        SaveRefusal::NoMemory
    }
}

impl<T: Drop> From<AllocFailed<T>> for SaveRefusal {
    ghost from_gives = { λ _ e. e ≡ NoMemory };

    fn from(_error: AllocFailed<T>) -> SaveRefusal {
        SaveRefusal::NoMemory
    }
}
