//! The defaults of a prototype's arguments, and whether it runs without screen refresh.

ghost use Rattle.std.specs.Prelude.{◌≡◌, map};
ghost use Rattle.std.specs.Option.{option_map};
ghost use Rattle.project_json.specs.View.{tree};
ghost use Rattle.project_spec.specs.FileValues.{value_in};
ghost use Rattle.project_spec.specs.Mutation.{or_refuse, all_some};
ghost use Rattle.project_spec.specs.Mutation as told;
ghost use Rattle.mutations.specs.Says.{Says};

use crate::parts::{copy, document, push};
use crate::prototype::FileValues;
use project_json::{Json, Text, items_of, text_of};
use project_spec::{FileValue, MutationRefusal};
use scratch_number::of_text;
use std::alloc::Global;

// The default that an item is: a text, a number or a truth.
fn default_of(alloc: Global, item: &Json) -> Result<FileValue, MutationRefusal>
    ensures { Says value_in result (or_refuse MutationRefusal.BadText (told.default_of (tree item.now))) }
{
    match item {
        Json::Null => Err(MutationRefusal::BadText),
        Json::Truth(truth) => Ok(FileValue::Truth(*truth)),
        Json::Number(number) => Ok(FileValue::Number(of_text(number.digits().as_str()))),
        Json::Text(text) => {
            let text = copy(alloc, text)?;
            Ok(FileValue::Text(text))
        }
        Json::List(_) => Err(MutationRefusal::BadText),
        Json::Object(_) => Err(MutationRefusal::BadText),
    }
}

// The defaults that the items are.
fn item_defaults(alloc: Global, items: &[Json]) -> Result<FileValues, MutationRefusal>
    ensures { Says (map value_in) result (or_refuse MutationRefusal.BadText (all_some (map told.default_of (map tree items.now)))) }
{
    let mut defaults = FileValues::new(alloc);
    for item in items {
        let default = default_of(alloc, item)?;
        push(&mut defaults, default)?;
    }
    Ok(defaults)
}

// The defaults of the list that a JSON text stands for.
fn listed_defaults(alloc: Global, text: &Text) -> Result<FileValues, MutationRefusal>
    ensures { Says (map value_in) result (or_refuse MutationRefusal.BadText (told.listed told.default_of text.now)) }
{
    let json = document(alloc, text)?;
    match items_of(&json) {
        Some(items) => item_defaults(alloc, items),
        None => Err(MutationRefusal::BadText),
    }
}

// As many empty texts.
fn empty_defaults(alloc: Global, count: usize) -> Result<FileValues, MutationRefusal>
    ensures { Says (map value_in) result (told.defaults_of count None) }
{
    let mut defaults = FileValues::new(alloc);
    for _place in 0..count {
        push(&mut defaults, FileValue::Text(Text::new(alloc)))?;
    }
    Ok(defaults)
}

// The defaults of so many arguments, which are empty texts where nothing is said.
pub(crate) fn defaults_of(
    alloc: Global,
    count: usize,
    said: Option<&Json>,
) -> Result<FileValues, MutationRefusal>
    ensures { Says (map value_in) result (told.defaults_of count (option_map (λ j. tree j.now) said.entry)) }
{
    match said {
        Some(said) => match text_of(said) {
            Some(text) => listed_defaults(alloc, text),
            None => Err(MutationRefusal::BadText),
        },
        None => empty_defaults(alloc, count),
    }
}

// Whether the text is that of a truth, or of null as false.
fn warp_text(text: &str) -> Result<bool, MutationRefusal>
    ensures { Says (λ b. b) result (told.warp_text text.now) }
{
    match text {
        "true" => Ok(true),
        "false" => Ok(false),
        "null" => Ok(false),
        _ => Err(MutationRefusal::BadText),
    }
}

// Whether the procedure runs without screen refresh: false where nothing is said.
pub(crate) fn warp_of(said: Option<&Json>) -> Result<bool, MutationRefusal>
    ensures { Says (λ b. b) result (told.warp_of (option_map (λ j. tree j.now) said.entry)) }
{
    match said {
        Some(Json::Truth(truth)) => Ok(*truth),
        Some(Json::Text(text)) => warp_text(text.as_str()),
        Some(_) => Err(MutationRefusal::BadText),
        None => Ok(false),
    }
}
