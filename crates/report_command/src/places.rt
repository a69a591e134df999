//! Where a block stands in a project file, by the document of the file.

ghost use Rattle.std.specs.Prelude.{◌≡◌, ℕ, List, map, codes};
ghost use Rattle.std.specs.Option.{option_map};
ghost use Rattle.project_json.specs.View.{tree, field};
ghost use Rattle.report_command.specs.Places.{member_at, items_at, members_at, text_at, truth_at, targets_in, target_at, kind_of, name_of, block_at, id_of, opcode_of};

use project_json::{Json, Member, items_of, member, members_of, text_of, truth_of};

// A member of a value that may not be there.
fn member_at<'a>(json: Option<&'a Json>, name: &str) -> Option<&'a Json>
    ensures { option_map (λ j. tree j.now) result ≡ member_at name.now (option_map (λ j. tree j.now) json.entry) }
{
    match json {
        Some(json) => member(json, name),
        None => None,
    }
}

// The items of a list.
fn items_at(json: Option<&Json>) -> &[Json]
    ensures { map tree result.now ≡ items_at (option_map (λ j. tree j.now) json.entry) }
{
    match json {
        Some(json) => match items_of(json) {
            Some(items) => items,
            None => &[],
        },
        None => &[],
    }
}

// The members of an object.
fn members_at(json: Option<&Json>) -> &[Member]
    ensures { map field result.now ≡ members_at (option_map (λ j. tree j.now) json.entry) }
{
    match json {
        Some(json) => match members_of(json) {
            Some(members) => members,
            None => &[],
        },
        None => &[],
    }
}

// A text.
fn text_at(json: Option<&Json>) -> &str
    ensures { result.now ≡ text_at (option_map (λ j. tree j.now) json.entry) }
{
    match json {
        Some(json) => match text_of(json) {
            Some(text) => text.as_str(),
            None => "",
        },
        None => "",
    }
}

// A truth.
fn truth_at(json: Option<&Json>) -> bool
    ensures { result ≡ truth_at (option_map (λ j. tree j.now) json.entry) }
{
    match json {
        Some(json) => match truth_of(json) {
            Some(truth) => truth,
            None => false,
        },
        None => false,
    }
}

/// The targets of a document.
pub(crate) fn targets_in(document: Option<&Json>) -> &[Json]
    ensures { map tree result.now ≡ targets_in (option_map (λ j. tree j.now) document.entry) }
{
    items_at(member_at(document, "targets"))
}

/// A target by its number.
pub(crate) fn target_at(document: Option<&Json>, target: u32) -> Option<&Json>
    ensures { option_map (λ j. tree j.now) result ≡ target_at target (option_map (λ j. tree j.now) document.entry) }
{
    targets_in(document).get(target as usize)
}

/// The word for a target: the stage, or a sprite.
pub(crate) fn kind_of(target: Option<&Json>) -> &'static str
    ensures { result.now ≡ kind_of (option_map (λ j. tree j.now) target.entry) }
{
    if truth_at(member_at(target, "isStage")) {
        "stage"
    } else {
        "sprite"
    }
}

/// The name of a target.
pub(crate) fn name_of(target: Option<&Json>) -> &str
    ensures { result.now ≡ name_of (option_map (λ j. tree j.now) target.entry) }
{
    text_at(member_at(target, "name"))
}

/// A block of a target by its number.
pub(crate) fn block_at(target: Option<&Json>, block: u32) -> Option<&Member>
    ensures { option_map (λ m. field m.now) result ≡ block_at block (option_map (λ j. tree j.now) target.entry) }
{
    members_at(member_at(target, "blocks")).get(block as usize)
}

/// The id of a block.
pub(crate) fn id_of(block: Option<&Member>) -> &str
    ensures { result.now ≡ id_of (option_map (λ m. field m.now) block.entry) }
{
    match block {
        Some(block) => block.name().as_str(),
        None => "",
    }
}

/// The opcode of a block.
pub(crate) fn opcode_of(block: Option<&Member>) -> &str
    ensures { result.now ≡ opcode_of (option_map (λ m. field m.now) block.entry) }
{
    text_at(member_at(block.map(|block| block.value()), "opcode"))
}
