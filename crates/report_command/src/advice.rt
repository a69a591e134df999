//! Why a project is refused, and what to change.

ghost use Rattle.std.specs.Prelude.{◌≡◌, option_map};
ghost use Rattle.opcode_table.specs.Table.{of_name};
ghost use Rattle.project_spec.specs.RuleNames.{project_rule};
ghost use Rattle.report_command.specs.Advice.{why, why_misfit, change, change_misfit};

use opcode_table::of_name;
use project_json::JsonRefusal;
use project_spec::{MutationRefusal, Refusal};

// Why a block that does not fit its place is refused.
fn why_misfit(name: &str) -> &'static str
    ensures { result.now ≡ why_misfit (of_name name.now) }
{
    match of_name(name) {
        None => "The player does not know the block.",
        Some(_) => "The block does not fit its place.",
    }
}

/// Why the project is refused, in one sentence.
pub(crate) fn why(refusal: &Refusal) -> &'static str
    ensures { result.now ≡ why refusal.now }
{
    match refusal {
        Refusal::Json(JsonRefusal::NotUtf8 { .. }) => "From that byte on the file is no UTF-8.",
        Refusal::Json(JsonRefusal::Syntax { .. }) => "From that byte on the file is no JSON text.",
        Refusal::Json(JsonRefusal::TooDeep { .. }) =>
            "The bracket at that byte opens a nesting of more than 256.",
        Refusal::Json(JsonRefusal::NoMemory) => "",
        Refusal::Shape { .. } =>
            "The value at that path has not the shape that a project file has there.",
        Refusal::StageCount { .. } => "A project has exactly one stage.",
        Refusal::TooMany { .. } => "A number or a length at that path is above its limit.",
        Refusal::Mutation(_, MutationRefusal::Missing) =>
            "The own block lacks its mutation or a text in it.",
        Refusal::Mutation(_, MutationRefusal::BadText) =>
            "A text in the mutation of the own block is not of its kind.",
        Refusal::Mutation(_, MutationRefusal::LengthsDiffer) =>
            "The mutation of the own block has not as many names and defaults as inputs.",
        Refusal::Mutation(_, MutationRefusal::NoMemory) => "",
        Refusal::Dangling { .. } => "The block leads to an id that no block there has.",
        Refusal::Cyclic { .. } => "The links from the block lead back to it.",
        Refusal::Opcode { name, .. } => why_misfit(name.as_str()),
        Refusal::MissingInput { .. } => "The block needs that input, and it is empty.",
        Refusal::Field { .. } =>
            "The block lacks that field, or has an entry in it that the player does not know.",
        Refusal::TooDeep { .. } =>
            "More than 256 blocks that give values nest in each other from there.",
        Refusal::NoMemory => "",
    }
}

// The same of a block that does not fit its place.
fn change_misfit(name: &str) -> &'static str
    ensures { result.now ≡ change_misfit (of_name name.now) }
{
    match of_name(name) {
        None => "Take the block out of the script; where it lies loose it does no harm.",
        Some(_) => "Take the block away, and put it where it belongs.",
    }
}

/// What to change, in one sentence.
pub(crate) fn change(refusal: &Refusal) -> &'static str
    ensures { result.now ≡ change refusal.now }
{
    match refusal {
        Refusal::Json(JsonRefusal::NotUtf8 { .. }) =>
            "Take project.json out of the archive, or save the file as UTF-8.",
        Refusal::Json(JsonRefusal::Syntax { .. }) =>
            "Take project.json out of the archive again, or mend the text at that byte.",
        Refusal::Json(JsonRefusal::TooDeep { .. }) => "Remove what nests so deep.",
        Refusal::Json(JsonRefusal::NoMemory) => "",
        Refusal::Shape { .. } =>
            "Save the project anew in the editor, or write that value as the editor writes it.",
        Refusal::StageCount { .. } =>
            "Let exactly one target have isStage true, as a rule the first.",
        Refusal::TooMany { .. } => "Make what stands at that path shorter.",
        Refusal::Mutation(_, MutationRefusal::Missing) =>
            "Make the own block and its calls anew in the editor.",
        Refusal::Mutation(_, MutationRefusal::BadText) =>
            "Make the own block and its calls anew in the editor.",
        Refusal::Mutation(_, MutationRefusal::LengthsDiffer) =>
            "Make the own block and its calls anew in the editor.",
        Refusal::Mutation(_, MutationRefusal::NoMemory) => "",
        Refusal::Dangling { .. } =>
            "Take away what stands below the block and in it, and put it there again.",
        Refusal::Cyclic { .. } => "Cut the link, and build the loop by a forever or a repeat.",
        Refusal::Opcode { name, .. } => change_misfit(name.as_str()),
        Refusal::MissingInput { .. } => "Write a value into that input.",
        Refusal::Field { .. } => "Choose another entry in that field, or another block.",
        Refusal::TooDeep { .. } => "Cut the expression in two, and keep one half in a variable.",
        Refusal::NoMemory => "",
    }
}
