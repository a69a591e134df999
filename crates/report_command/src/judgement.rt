//! What is said of the bytes of a project file.

ghost use Rattle.std.specs.Prelude.{◌≡◌, ◌<◌, ◌^◌, ◌++◌, length, Some, None, IfOk, IfSome, IsSome};
ghost use Rattle.std.specs.Option.{option_map};
ghost use Rattle.project_json.specs.View.{tree};
ghost use Rattle.project_spec.specs.Refusals.{IsRefusal};
ghost use Rattle.project_spec.specs.RuleNames.{project_rule};
ghost use Rattle.report_command.specs.Stages.{IsJudged, IsLoaded};
ghost use Rattle.report_command.specs.Text.{refusal_text};
ghost use Rattle.report_command.specs.Unknown.{AreUnknown, tables_in, unknown_text};
ghost use Rattle.report_command.specs.UnknownStages.{IsSmallDocument};
ghost use Rattle.report_command.specs.Verdict.{IsDocument, IsCounted};

use crate::counts::Counts;
use crate::project_counts::count;
use crate::text::{accepted_text, push_refusal};
use crate::unknown::{push_unknown, unknown_in};
use project_check::load;
use project_json::{Json, JsonRefusal, Text, Texts, read};
use project_spec::Refusal;
use std::alloc::{AllocError, Global};

/// What is said of a file: the text, and the refusal of a project that is refused.
#[derive(Drop)]
pub struct Judged {
    pub text: Vec<u8>,
    pub refusal: Option<Refusal>,
}

// What a file is: the project that it tells has this, or it is refused.
#[derive(Drop)]
enum Loaded {
    Accepted(Counts),
    Refused(Refusal),
}

// A refusal that is no want of memory.
fn refused_by(refusal: Refusal) -> Result<Loaded, AllocError>
    ensures { IfOk result (λ l. (l ≡ Loaded.Refused refusal) × IsSome (project_rule refusal)) }
{
    match refusal.rule() {
        Some(_) => Ok(Loaded::Refused(refusal)),
        None => Err(AllocError),
    }
}

// Loads a file, and counts what its project has.
fn load_file(alloc: Global, bytes: &[u8]) -> Result<Loaded, AllocError>
    requires { length bytes.now < 2 ^ 32 }
    ensures { IfOk result (IsLoaded bytes.now) }
{
    match load(alloc, bytes) {
        Ok(project) => Ok(Loaded::Accepted(count(alloc, &project)?)),
        Err(refusal) => refused_by(refusal),
    }
}

// The document of a file that is a JSON text.
fn document(alloc: Global, bytes: &[u8]) -> Result<Option<Json>, AllocError>
    requires { length bytes.now < 2 ^ 32 }
    ensures document { IfOk result (λ document. IsDocument bytes.now (option_map tree document)) }
    ensures small { IfOk result (λ document. IsSmallDocument (option_map tree document)) }
{
    match read(alloc, bytes) {
        Ok(document) => Ok(Some(document)),
        Err(JsonRefusal::NoMemory) => Err(AllocError),
        Err(JsonRefusal::NotUtf8 { .. }) => Ok(None),
        Err(JsonRefusal::Syntax { .. }) => Ok(None),
        Err(JsonRefusal::TooDeep { .. }) => Ok(None),
    }
}

// The document, lent.
fn lent(document: &Option<Json>) -> Option<&Json>
    ensures { option_map (λ j. tree j.now) result ≡ option_map tree document.now }
{
    match document {
        Some(document) => Some(document),
        None => None,
    }
}

// The opcodes of the blocks in scripts that are not known.
fn unknown_of(alloc: Global, document: &Option<Json>) -> Result<Texts, AllocError>
    requires { IsSmallDocument (option_map tree document.now) }
    ensures { IfOk result (AreUnknown (tables_in (option_map tree document.now))) }
{
    unknown_in(alloc, lent(document))
}

// Why a file is refused, what to change, and which blocks are not known.
fn refused_text(
    alloc: Global,
    document: &Option<Json>,
    refusal: &Refusal,
    names: &[Text],
) -> Result<Vec<u8>, AllocError>
    ensures { IfOk result (λ text. text.items ≡ refusal_text (option_map tree document.now) refusal.now ++ unknown_text names.now) }
{
    let mut text = Vec::new(alloc);
    push_refusal(&mut text, lent(document), refusal)?;
    push_unknown(alloc, &mut text, names)?;
    Ok(text)
}

// What is said of a file that is refused.
fn judge_refused(alloc: Global, bytes: &[u8], refusal: Refusal) -> Result<Judged, AllocError>
    requires few { length bytes.now < 2 ^ 32 }
    requires refused { IsRefusal bytes.now refusal }
    requires rule { IsSome (project_rule refusal) }
    ensures { IfOk result (IsJudged bytes.now) }
{
    let document = document(alloc, bytes)?;
    let names = unknown_of(alloc, &document)?;
    let text = refused_text(alloc, &document, &refusal, names.as_slice())?;
    Ok(Judged {
        text,
        refusal: Some(refusal),
    })
}

// What is said of a file that is accepted.
fn judge_accepted(alloc: Global, bytes: &[u8], counts: Counts) -> Result<Judged, AllocError>
    requires { IsCounted bytes.now counts }
    ensures { IfOk result (IsJudged bytes.now) }
{
    let text = accepted_text(alloc, counts)?;
    Ok(Judged {
        text,
        refusal: None,
    })
}

/// What is said of the bytes of a project file. The only error is want of memory.
pub(crate) fn judge(alloc: Global, bytes: &[u8]) -> Result<Judged, AllocError>
    requires { length bytes.now < 2 ^ 32 }
    ensures { IfOk result (IsJudged bytes.now) }
{
    let loaded = load_file(alloc, bytes)?;
    match loaded {
        Loaded::Accepted(counts) => judge_accepted(alloc, bytes, counts),
        Loaded::Refused(refusal) => judge_refused(alloc, bytes, refusal),
    }
}
