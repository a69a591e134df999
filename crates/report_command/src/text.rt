//! The text of a report.

ghost use Rattle.std.specs.Prelude.{◌≡◌, ◌++◌, [], codes, unwrap_or, OnOk, IfOk};
ghost use Rattle.std.specs.Option.{option_map};
ghost use Rattle.std.specs.Fmt.{decimal};
ghost use Rattle.project_json.specs.View.{tree};
ghost use Rattle.machine_spec.specs.FrameText.{quoted};
ghost use Rattle.project_spec.specs.RuleNames.{project_rule};
ghost use Rattle.report_command.specs.Lines.{line};
ghost use Rattle.report_command.specs.Text.{accepted_text, block_place, opcode_place, place, rule_line, place_line, advice_lines, refusal_text};

use crate::advice::{change, why};
use crate::counts::Counts;
use crate::pieces::{push_natural, push_text};
use crate::places::{block_at, id_of, kind_of, name_of, opcode_of, target_at};
use project_json::{Json, JsonRefusal};
use project_spec::{At, Refusal};
use quoted_text::push_quoted;
use std::alloc::{AllocError, Global};

// Appends a line that tells a number.
fn push_count(out: &mut Vec<u8>, begin: &str, number: u32) -> Result<(), AllocError>
    ensures { OnOk result (out.new.items ≡ out.old.items ++ line begin.now (decimal number)) }
{
    push_text(out, begin)?;
    push_natural(out, u64::from(number))?;
    out.push(b'\n')?;
    Ok(())
}

/// Appends a line that tells a text.
pub(crate) fn push_line(out: &mut Vec<u8>, begin: &str, end: &str) -> Result<(), AllocError>
    ensures { OnOk result (out.new.items ≡ out.old.items ++ line begin.now end.now) }
{
    push_text(out, begin)?;
    push_text(out, end)?;
    out.push(b'\n')?;
    Ok(())
}

/// What an accepted project has. The only error is want of memory.
pub(crate) fn accepted_text(alloc: Global, counts: Counts) -> Result<Vec<u8>, AllocError>
    ensures { IfOk result (λ text. text.items ≡ accepted_text counts) }
{
    let mut out = Vec::new(alloc);
    push_text(&mut out, "The project loads.\n")?;
    push_count(&mut out, "Stage and sprites: ", counts.targets)?;
    push_count(&mut out, "Scripts: ", counts.scripts)?;
    push_count(&mut out, "Blocks: ", counts.blocks)?;
    push_count(&mut out, "Loose blocks, in no script: ", counts.loose)?;
    Ok(out)
}

// Appends the sprite, and the id of a block of it.
fn push_block(out: &mut Vec<u8>, document: Option<&Json>, at: At) -> Result<(), AllocError>
    ensures { OnOk result (out.new.items ≡ out.old.items ++ block_place (option_map (λ j. tree j.now) document.entry) at) }
{
    let target = target_at(document, at.target);
    push_text(out, kind_of(target))?;
    out.push(b' ')?;
    push_quoted(out, name_of(target))?;
    push_text(out, ", block ")?;
    push_quoted(out, id_of(block_at(target, at.block)))
}

// Appends the sprite, the id of a block of it, and its opcode.
fn push_opcode(out: &mut Vec<u8>, document: Option<&Json>, at: At) -> Result<(), AllocError>
    ensures { OnOk result (out.new.items ≡ out.old.items ++ opcode_place (option_map (λ j. tree j.now) document.entry) at) }
{
    push_block(out, document, at)?;
    push_text(out, ", opcode ")?;
    push_quoted(
        out,
        opcode_of(block_at(target_at(document, at.target), at.block)),
    )
}

// Appends a word and what it tells in quotes.
fn push_told(out: &mut Vec<u8>, word: &str, told: &str) -> Result<(), AllocError>
    ensures { OnOk result (out.new.items ≡ out.old.items ++ (word.now ++ quoted told.now)) }
{
    push_text(out, word)?;
    push_quoted(out, told)
}

// Appends a block with its opcode, and a word with what it tells in quotes.
fn push_part(
    out: &mut Vec<u8>,
    document: Option<&Json>,
    at: At,
    word: &str,
    told: &str,
) -> Result<(), AllocError>
    ensures { OnOk result (out.new.items ≡ out.old.items ++ (opcode_place (option_map (λ j. tree j.now) document.entry) at ++ (word.now ++ quoted told.now))) }
{
    push_opcode(out, document, at)?;
    push_told(out, word, told)
}

// Appends the place of a byte.
fn push_byte(out: &mut Vec<u8>, at: u64) -> Result<(), AllocError>
    ensures { OnOk result (out.new.items ≡ out.old.items ++ (codes "byte " ++ decimal at)) }
{
    push_text(out, "byte ")?;
    push_natural(out, at)
}

// Appends a number of stages.
fn push_stages(out: &mut Vec<u8>, n: u32) -> Result<(), AllocError>
    ensures { OnOk result (out.new.items ≡ out.old.items ++ (codes "targets that are a stage, " ++ decimal n)) }
{
    push_text(out, "targets that are a stage, ")?;
    push_natural(out, u64::from(n))
}

// Appends a block, and an opcode that is told of it.
fn push_misfit(
    out: &mut Vec<u8>,
    document: Option<&Json>,
    at: At,
    name: &str,
) -> Result<(), AllocError>
    ensures { OnOk result (out.new.items ≡ out.old.items ++ (block_place (option_map (λ j. tree j.now) document.entry) at ++ (codes ", opcode " ++ quoted name.now))) }
{
    push_block(out, document, at)?;
    push_told(out, ", opcode ", name)
}

// Appends where a project is refused.
fn push_place(
    out: &mut Vec<u8>,
    document: Option<&Json>,
    refusal: &Refusal,
) -> Result<(), AllocError>
    ensures { OnOk result (out.new.items ≡ out.old.items ++ place (option_map (λ j. tree j.now) document.entry) refusal.now) }
{
    match refusal {
        Refusal::Json(JsonRefusal::NoMemory) => Ok(()),
        Refusal::Json(JsonRefusal::NotUtf8 { at }) => push_byte(out, *at as u64),
        Refusal::Json(JsonRefusal::Syntax { at }) => push_byte(out, *at as u64),
        Refusal::Json(JsonRefusal::TooDeep { at }) => push_byte(out, *at as u64),
        Refusal::Shape { path } => push_told(out, "path ", path.as_str()),
        Refusal::StageCount { n } => push_stages(out, *n),
        Refusal::TooMany { path } => push_told(out, "path ", path.as_str()),
        Refusal::Mutation(at, _) => push_opcode(out, document, *at),
        Refusal::Dangling { at, to } => push_part(out, document, *at, ", link to ", to.as_str()),
        Refusal::Cyclic { at } => push_opcode(out, document, *at),
        Refusal::Opcode { at, name } => push_misfit(out, document, *at, name.as_str()),
        Refusal::MissingInput { at, input } => {
            push_part(out, document, *at, ", input ", input.as_str())
        }
        Refusal::Field { at, field } => push_part(out, document, *at, ", field ", field.as_str()),
        Refusal::TooDeep { at } => push_opcode(out, document, *at),
        Refusal::NoMemory => Ok(()),
    }
}

// The number of the rule that is broken.
fn rule_name(refusal: &Refusal) -> &'static str
    ensures { result.now ≡ unwrap_or (project_rule refusal.now) [] }
{
    match refusal.rule() {
        Some(rule) => rule,
        None => "",
    }
}

// Appends the line of the rule that is broken.
fn push_rule(out: &mut Vec<u8>, refusal: &Refusal) -> Result<(), AllocError>
    ensures { OnOk result (out.new.items ≡ out.old.items ++ rule_line refusal.now) }
{
    push_line(
        out,
        "The project does not load, by rule ",
        rule_name(refusal),
    )
}

// Appends the line that tells where a project is refused.
fn push_place_line(
    out: &mut Vec<u8>,
    document: Option<&Json>,
    refusal: &Refusal,
) -> Result<(), AllocError>
    ensures { OnOk result (out.new.items ≡ out.old.items ++ place_line (option_map (λ j. tree j.now) document.entry) refusal.now) }
{
    push_text(out, "Where: ")?;
    push_place(out, document, refusal)?;
    push_text(out, "\n")
}

// Appends the lines that tell why a project is refused, and what to change.
fn push_advice(out: &mut Vec<u8>, refusal: &Refusal) -> Result<(), AllocError>
    ensures { OnOk result (out.new.items ≡ out.old.items ++ advice_lines refusal.now) }
{
    push_line(out, "Why: ", why(refusal))?;
    push_line(out, "What to change: ", change(refusal))
}

/// Appends the rule, where a project is refused, why, and what to change. The only error is want of memory.
pub(crate) fn push_refusal(
    out: &mut Vec<u8>,
    document: Option<&Json>,
    refusal: &Refusal,
) -> Result<(), AllocError>
    ensures { OnOk result (out.new.items ≡ out.old.items ++ refusal_text (option_map (λ j. tree j.now) document.entry) refusal.now) }
{
    push_rule(out, refusal)?;
    push_place_line(out, document, refusal)?;
    push_advice(out, refusal)
}
