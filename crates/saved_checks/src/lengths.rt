//! Texts and lists that are not too long.

ghost use Rattle.std.specs.Prelude.{◌≡◌, ◌&&◌, ◌||◌, filter, length, nat_le};
ghost use Rattle.std.specs.Fmt.{char_count, is_char_start};
ghost use Rattle.std.specs.List.{list_all};
ghost use Rattle.machine_spec.specs.BubbleText.{most_characters};
ghost use Rattle.saved_parts.specs.Telling.{value_of};
ghost use Rattle.saved_spec.specs.Rules as rules;

use machine_spec::MOST_ITEMS;
use project_json::Text;
use saved_parts::{ToldInstance, ToldQuestion, ToldValue, ToldValues};
use scratch_values::LONGEST;

const MOST_CHARACTERS: usize = 330;

// Whether a text is one that a value may be.
pub(crate) fn is_value_text(text: &Text) -> bool
    ensures { result ≡ rules.is_value_text text.now }
{
    text.as_str().len() <= LONGEST
}

// Whether a value is no text that is too long.
pub(crate) fn is_short(value: &ToldValue) -> bool
    ensures { result ≡ rules.is_short (value_of value.now) }
{
    match value {
        ToldValue::Number(_) => true,
        ToldValue::Truth(_) => true,
        ToldValue::Text(text) => is_value_text(text),
    }
}

// Whether none of the values is a text that is too long.
fn are_short(values: &ToldValues) -> bool
    ensures { result ≡ list_all (λ v. rules.is_short (value_of v)) values.now }
{
    values.iter().all(|value| is_short(value))
}

// The same of all lists.
fn all_short(lists: &[ToldValues]) -> bool
    ensures { result ≡ list_all (list_all (λ v. rules.is_short (value_of v))) lists.now }
{
    lists.iter().all(|items| are_short(items))
}

// Whether no variable and no item of an instance is a text that is too long.
fn has_short_texts(instance: &ToldInstance) -> bool
    ensures { result ≡ (list_all (λ v. rules.is_short (value_of v)) instance.now.values && list_all (list_all (λ v. rules.is_short (value_of v))) instance.now.lists) }
{
    are_short(&instance.values) && all_short(instance.lists.as_slice())
}

// The same of all instances.
fn have_short_texts(instances: &[ToldInstance]) -> bool
    ensures { result ≡ list_all (λ i. list_all (λ v. rules.is_short (value_of v)) i.values && list_all (list_all (λ v. rules.is_short (value_of v))) i.lists) instances.now }
{
    instances.iter().all(|instance| has_short_texts(instance))
}

// Whether the lists of an instance have no more items than lists may have.
fn has_short_lists(instance: &ToldInstance) -> bool
    ensures { result ≡ list_all (λ items. nat_le (length items) 200000) instance.now.lists }
{
    instance.lists.iter().all(|items| items.len() <= MOST_ITEMS)
}

// The same of all instances.
pub(crate) fn have_short_lists(instances: &[ToldInstance]) -> bool
    ensures { result ≡ list_all (λ i. list_all (λ items. nat_le (length items) 200000) i.lists) instances.now }
{
    instances.iter().all(|instance| has_short_lists(instance))
}

// Whether a character begins with the byte.
fn is_first(byte: u8) -> bool
    ensures { result ≡ is_char_start byte }
{
    byte < 0x80 || 0xC0 <= byte
}

// With how many of the bytes a character begins.
fn firsts(bytes: &[u8]) -> usize
    ensures { result ≡ length (filter is_char_start bytes.now) }
{
    bytes.iter().filter(|byte| is_first(**byte)).count()
}

// How many characters a text has.
fn characters(text: &str) -> usize
    ensures { result ≡ char_count text.now }
{
    firsts(text.as_bytes())
}

// Whether the bubble of an instance has no more characters than a bubble may have.
fn says_little(instance: &ToldInstance) -> bool
    ensures { result ≡ nat_le (char_count instance.now.bubble.text) most_characters }
{
    characters(instance.bubble.text.as_str()) <= MOST_CHARACTERS
}

// The same of all instances.
fn say_little(instances: &[ToldInstance]) -> bool
    ensures { result ≡ list_all (λ i. nat_le (char_count i.bubble.text) most_characters) instances.now }
{
    instances.iter().all(|instance| says_little(instance))
}

// Whether no bubble and no value of an instance has too long a text.
pub(crate) fn have_little_to_say(instances: &[ToldInstance]) -> bool
    ensures { result ≡ (list_all (λ i. nat_le (char_count i.bubble.text) most_characters) instances.now
        && list_all (λ i. list_all (λ v. rules.is_short (value_of v)) i.values && list_all (list_all (λ v. rules.is_short (value_of v))) i.lists) instances.now) }
{
    say_little(instances) && have_short_texts(instances)
}

// Whether the text of every question is one that a value may be.
pub(crate) fn ask_briefly(questions: &[ToldQuestion]) -> bool
    ensures { result ≡ list_all (λ q. rules.is_value_text q.text) questions.now }
{
    questions
        .iter()
        .all(|question| is_value_text(&question.text))
}
