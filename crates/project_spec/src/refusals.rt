//! Why a project is refused.

ghost use Rattle.std.specs.Prelude.{◌≡◌};
ghost use Rattle.project_spec.specs.declared.refusals.Refusal.TheVariants.{NoMemory};

use project_json::{JsonRefusal, Text};
use std::alloc::{AllocError, AllocFailed};

/// Why the `mutation` of a procedure's prototype or of a call is unfit, in the order of the tests.
#[derive(Clone, Copy, PartialEq, Eq, Debug)]
pub enum MutationRefusal {
    /// There is none, or a text that has to be there is not.
    Missing,
    /// A text is not of its kind: no list of texts, no list of defaults, no truth.
    BadText,
    /// The ids, the names and the defaults differ in number.
    LengthsDiffer,
    /// Memory ran out.
    NoMemory,
}

/// A block, by the places of its target in the file and of itself in its target's `blocks`, from 0.
#[derive(Clone, Copy, PartialEq, Eq, Debug)]
pub struct At {
    pub target: u32,
    pub block: u32,
}

/// Why a project is not accepted, in the order of the tests.
#[derive(Debug, Drop)]
pub enum Refusal {
    /// P1: the bytes are no JSON text.
    Json(JsonRefusal),
    /// P2: the value at the path has not its shape.
    Shape { path: Text },
    /// P3: the targets with `isStage` true are not one.
    StageCount { n: u32 },
    /// P4: a count or a length at the path is too large.
    TooMany { path: Text },
    /// P11: the mutation of a prototype or a call is unfit.
    Mutation(At, MutationRefusal),
    /// P6: a link names no block.
    Dangling { at: At, to: Text },
    /// P7: the block lies on a cycle of links.
    Cyclic { at: At },
    /// P5: in a checked script the opcode does not fit its place.
    Opcode { at: At, name: Text },
    /// P8: a required input is absent.
    MissingInput { at: At, input: Text },
    /// P9: a field is absent, or holds a value that is refused.
    Field { at: At, field: Text },
    /// P10: reporters nest too deep.
    TooDeep { at: At },
    /// Memory ran out.
    NoMemory,
}

impl Refusal {
    ghost use Rattle.std.specs.Prelude.{◌≡◌, option_map};
    ghost use Rattle.project_spec.specs.RuleNames.{project_rule};

    /// The name of the rule that is broken, `P1` to `P11`, or `None` where memory ran out. docs/refusals.md has an example of
    /// each rule.
    pub fn rule(&self) -> Option<&'static str>
        ensures { option_map (λ rule. rule.now) result ≡ project_rule self.now }
    {
        match self {
            Refusal::Json(JsonRefusal::NoMemory) => None,
            Refusal::Json(JsonRefusal::NotUtf8 { .. }) => Some("P1"),
            Refusal::Json(JsonRefusal::Syntax { .. }) => Some("P1"),
            Refusal::Json(JsonRefusal::TooDeep { .. }) => Some("P1"),
            Refusal::Shape { .. } => Some("P2"),
            Refusal::StageCount { .. } => Some("P3"),
            Refusal::TooMany { .. } => Some("P4"),
            Refusal::Mutation(_, MutationRefusal::NoMemory) => None,
            Refusal::Mutation(_, MutationRefusal::Missing) => Some("P11"),
            Refusal::Mutation(_, MutationRefusal::BadText) => Some("P11"),
            Refusal::Mutation(_, MutationRefusal::LengthsDiffer) => Some("P11"),
            Refusal::Dangling { .. } => Some("P6"),
            Refusal::Cyclic { .. } => Some("P7"),
            Refusal::Opcode { .. } => Some("P5"),
            Refusal::MissingInput { .. } => Some("P8"),
            Refusal::Field { .. } => Some("P9"),
            Refusal::TooDeep { .. } => Some("P10"),
            Refusal::NoMemory => None,
        }
    }
}

impl From<AllocError> for Refusal {
    ghost from_gives = { λ _ e. e ≡ NoMemory };

    fn from(_error: AllocError) -> Refusal {
        Refusal::NoMemory
    }
}

impl<T: Drop> From<AllocFailed<T>> for Refusal {
    ghost from_gives = { λ _ e. e ≡ NoMemory };

    fn from(_error: AllocFailed<T>) -> Refusal {
        Refusal::NoMemory
    }
}
