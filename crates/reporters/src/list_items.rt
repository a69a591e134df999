//! What is told of lists.

ghost use Rattle.std.specs.Prelude.{◌≡◌, ◌≤◌, [], false, length, pos, slice_index_or, IfOk};
ghost use Rattle.scratch_values.specs.declared.value.Value.TheVariants as values;
ghost use Rattle.machine_spec.specs.DataRows.{most_items};
ghost use Rattle.machine_spec.specs.Numbers.{whole};
ghost use Rattle.machine_spec.specs.Outcome.{Goes, StopIs, then_do};
ghost use Rattle.machine_spec.specs.Random.{indexed};
ghost use Rattle.machine_spec.specs.Reporters as machine;
ghost use Rattle.machine_spec.specs.Words.{made_of, seen_words};

use operators::{empty_text, place_of};
use scratch_number::{Num, of_whole};
use scratch_values::{Index, Value, Values, list_index};
use script_words::{Counted, Rng, Stop};
use std::alloc::{AllocError, Global};

// The place of a list of this length that a value names. `Counter` exactly where a word is needed and none is left.
fn indexed<R: Rng + Drop>(value: &Value, length: u32, words: &mut Counted<R>) -> Result<Index, Stop>
    ensures ok { IfOk result (λ i. indexed value.now length false (seen_words R.stream words.old) ≡ Goes (record { value = i; words = seen_words R.stream words.new })) }
    ensures stop { StopIs result (indexed value.now length false (seen_words R.stream words.old)) }
{
    match list_index(value, length, false, words) {
        Ok(index) => Ok(index),
        Err(full) => Err(Stop::from(full)),
    }
}

// The item at a place; the empty text at no place. The only error is want of memory.
fn item_at(alloc: Global, index: Index, items: &Values) -> Result<Value, AllocError>
    ensures { IfOk result (λ v. v ≡ machine.item_at index items.now) }
{
    match index {
        Index::At(place) => item(alloc, place.saturating_sub(1), items),
        Index::All => empty_text(alloc),
        Index::Invalid => empty_text(alloc),
    }
}

// The item behind so many others; the empty text where there is none.
fn item(alloc: Global, others: u32, items: &Values) -> Result<Value, AllocError>
    ensures { IfOk result (λ v. v ≡ slice_index_or items.now others (values.Text [])) }
{
    match items.get(others as usize) {
        Some(item) => item.clone(),
        None => empty_text(alloc),
    }
}

// The item of a list at the place that a value names; the empty text at no place. `Counter` exactly where a word is
// needed and none is left; the only other error is want of memory.
pub(crate) fn item_of<R: Rng + Drop>(
    alloc: Global,
    value: &Value,
    items: &Values,
    words: &mut Counted<R>,
) -> Result<Value, Stop>
    requires { length items.now ≤ most_items }
    ensures ok { IfOk result (λ v. then_do (indexed value.now (length items.now) false (seen_words R.stream words.old)) (made_of (λ i. machine.item_at i items.now)) ≡ Goes (record { value = v; words = seen_words R.stream words.new })) }
    ensures stop { StopIs result (then_do (indexed value.now (length items.now) false (seen_words R.stream words.old)) (made_of (λ i. machine.item_at i items.now))) }
{
    match indexed(value, items.len() as u32, words) {
        Ok(index) => match item_at(alloc, index, items) {
            Ok(item) => Ok(item),
            Err(_) => Err(Stop::NoMemory),
        },
        Err(stop) => Err(stop),
    }
}

// The first place of an item that is equal to a value, from 1, and 0 where there is none.
pub(crate) fn item_number(value: &Value, items: &Values) -> Num
    requires { length items.now ≤ most_items }
    ensures { result ≡ machine.place_of_item value.now items.now }
{
    match place_of(value, items.as_slice()) {
        Some(place) => of_whole(place as i64 + 1),
        None => of_whole(0),
    }
}

// How many items there are.
pub(crate) fn item_count(items: &Values) -> Num
    requires { length items.now ≤ most_items }
    ensures { result ≡ whole (pos (length items.now)) }
{
    of_whole(items.len() as i64)
}
