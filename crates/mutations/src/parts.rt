//! Parts of a `mutation`, and the JSON texts in it.

ghost use Rattle.std.specs.Prelude.{◌≡◌, [], ◌∷◌, ◌++◌, map, IfErr, OnOk};
ghost use Rattle.std.specs.Option.{option_map};
ghost use Rattle.project_json.specs.Parts.{member_of, text_in};
ghost use Rattle.project_json.specs.TextTree.{tree_of};
ghost use Rattle.project_json.specs.View.{tree};
ghost use Rattle.json_shapes.specs.Shapes as shape;
ghost use Rattle.project_spec.specs.Mutation.{or_refuse, all_some};
ghost use Rattle.project_spec.specs.Mutation as told;
ghost use Rattle.mutations.specs.Says.{Says, of_json};

use lists::ListOf;
use project_json::{Json, JsonRefusal, Text, Texts, is_null, items_of, member, read, text_of};
use project_spec::MutationRefusal;
use std::alloc::Global;

// A copy of a text.
pub(crate) fn copy(alloc: Global, text: &Text) -> Result<Text, MutationRefusal>
    ensures { Says (λ t. t) result (Ok text.now) }
{
    match Text::from_str(alloc, text.as_str()) {
        Ok(copy) => Ok(copy),
        Err(_) => Err(MutationRefusal::NoMemory),
    }
}

// The member, unless it is absent or null.
pub(crate) fn present<'a>(mutation: &'a Json, name: &str) -> Option<&'a Json>
    ensures { option_map (λ j. tree j.now) result ≡ shape.present (member_of (tree mutation.now) name.now) }
{
    match member(mutation, name) {
        Some(value) => { if is_null(value) { None } else { Some(value) } }
        None => None,
    }
}

// A text that has to be there.
pub(crate) fn text_named<'a>(mutation: &'a Json, name: &str) -> Result<&'a Text, MutationRefusal>
    ensures { Says (λ t. t.now) result (told.text_named name.now (tree mutation.now)) }
{
    match member(mutation, name) {
        Some(value) => match text_of(value) {
            Some(text) => Ok(text),
            None => Err(MutationRefusal::Missing),
        },
        None => Err(MutationRefusal::Missing),
    }
}

// A text that is not read is no JSON text, or memory ran out.
fn refusal_of(refusal: JsonRefusal) -> MutationRefusal
    ensures { result ≡ of_json refusal }
{
    match refusal {
        JsonRefusal::NotUtf8 { .. } => MutationRefusal::BadText,
        JsonRefusal::Syntax { .. } => MutationRefusal::BadText,
        JsonRefusal::TooDeep { .. } => MutationRefusal::BadText,
        JsonRefusal::NoMemory => MutationRefusal::NoMemory,
    }
}

// What a JSON text stands for.
pub(crate) fn document(alloc: Global, text: &Text) -> Result<Json, MutationRefusal>
    ensures { Says tree result (or_refuse MutationRefusal.BadText (tree_of text.now)) }
{
    match read(alloc, text.as_str().as_bytes()) {
        Ok(json) => Ok(json),
        Err(refusal) => Err(refusal_of(refusal)),
    }
}

// Appends an item.
pub(crate) fn push<T: Drop>(items: &mut ListOf<T>, item: T) -> Result<(), MutationRefusal>
    ensures ok { OnOk result (items.new ≡ items.old ++ item ∷ []) }
    ensures err { IfErr result (λ r. r ≡ MutationRefusal.NoMemory) }
{
    match items.push(item) {
        Ok(()) => Ok(()),
        Err(_) => Err(MutationRefusal::NoMemory),
    }
}

// The text that an item is.
fn item_text(alloc: Global, item: &Json) -> Result<Text, MutationRefusal>
    ensures { Says (λ t. t) result (or_refuse MutationRefusal.BadText (text_in (tree item.now))) }
{
    match text_of(item) {
        Some(text) => copy(alloc, text),
        None => Err(MutationRefusal::BadText),
    }
}

// The texts that the items are.
fn item_texts(alloc: Global, items: &[Json]) -> Result<Texts, MutationRefusal>
    ensures { Says (λ ts. ts) result (or_refuse MutationRefusal.BadText (all_some (map text_in (map tree items.now)))) }
{
    let mut texts = Texts::new(alloc);
    for item in items {
        let text = item_text(alloc, item)?;
        push(&mut texts, text)?;
    }
    Ok(texts)
}

// The texts of the list that a JSON text stands for.
pub(crate) fn texts_of(alloc: Global, text: &Text) -> Result<Texts, MutationRefusal>
    ensures { Says (λ ts. ts) result (told.texts_of text.now) }
{
    let json = document(alloc, text)?;
    match items_of(&json) {
        Some(items) => item_texts(alloc, items),
        None => Err(MutationRefusal::BadText),
    }
}
