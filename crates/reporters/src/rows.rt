//! What single reporters give, a function a row.

ghost use Rattle.std.specs.Prelude.{◌≡◌, ◌++◌, ◌&&◌, ◌||◌, false, chars, codes, length, pos, IfOk};
ghost use Rattle.std.specs.List.{list_any};
ghost use Rattle.std.specs.Ordering.{is_gt, is_lt};
ghost use Rattle.scratch_values.specs.Comparison as comparison;
ghost use Rattle.scratch_values.specs.Comparison.{folded_of};
ghost use Rattle.scratch_values.specs.Folding.{folded};
ghost use Rattle.scratch_values.specs.declared.value.Value.TheVariants as values;
ghost use Rattle.machine_spec.specs.Numbers.{whole};
ghost use Rattle.machine_spec.specs.Outcome.{Goes, StopIs, then_do};
ghost use Rattle.machine_spec.specs.Random as random;
ghost use Rattle.machine_spec.specs.Random.{indexed};
ghost use Rattle.machine_spec.specs.Reporters as machine;
ghost use Rattle.machine_spec.specs.Sensing as sensing;
ghost use Rattle.machine_spec.specs.Stores.{record_of};
ghost use Rattle.machine_spec.specs.Texts.{contents_text, has_part, text_value};
ghost use Rattle.machine_spec.specs.View.{field_at, number_at, text_at, truth_at, value_at};
ghost use Rattle.machine_spec.specs.Words.{made_of, seen_words};
ghost use Rattle.reporters.specs.Sight.{seen};

use crate::instances::{number_or_name, own, stage_of, volume};
use crate::keys::is_pressed;
use crate::list_items::{item_count, item_number, item_of};
use crate::properties::{distance_to, property_of};
use crate::sight::{Sight, contents, items, variable};
use block_arguments::{field, given, named, number, truth};
use operators::{Written, char_count, has_text, is_among, is_equal, joined, letter, pick_random};
use scratch_number::{Num, of_whole};
use scratch_values::{Args, Value, compare};
use script_words::{Counted, Rng, Stop};
use std::alloc::{AllocError, Global};
use std::cmp::Ordering;
use targets::target_of;

// Which of the two sides of a comparison is less. The only error is want of memory.
fn order(alloc: Global, args: &Args<'_>) -> Result<Ordering, AllocError>
    ensures { IfOk result (λ o. o ≡ comparison.compare (value_at (codes "OPERAND1") args.now) (value_at (codes "OPERAND2") args.now)) }
{
    let zero = Value::Number(of_whole(0));
    compare(
        alloc,
        given(args, "OPERAND1", &zero),
        given(args, "OPERAND2", &zero),
    )
}

// Whether the first side is greater. The only error is want of memory.
pub(crate) fn is_greater(alloc: Global, args: &Args<'_>) -> Result<bool, AllocError>
    ensures { IfOk result (λ b. b ≡ is_gt (comparison.compare (value_at (codes "OPERAND1") args.now) (value_at (codes "OPERAND2") args.now))) }
{
    let order = order(alloc, args)?;
    Ok(matches!(order, Ordering::Greater))
}

// Whether the first side is less. The only error is want of memory.
pub(crate) fn is_less(alloc: Global, args: &Args<'_>) -> Result<bool, AllocError>
    ensures { IfOk result (λ b. b ≡ is_lt (comparison.compare (value_at (codes "OPERAND1") args.now) (value_at (codes "OPERAND2") args.now))) }
{
    let order = order(alloc, args)?;
    Ok(matches!(order, Ordering::Less))
}

// Whether both sides are equal.
pub(crate) fn are_equal(args: &Args<'_>) -> bool
    ensures { result ≡ machine.is_equal (value_at (codes "OPERAND1") args.now) (value_at (codes "OPERAND2") args.now) }
{
    let zero = Value::Number(of_whole(0));
    is_equal(
        given(args, "OPERAND1", &zero),
        given(args, "OPERAND2", &zero),
    )
}

// Whether both sides hold. Each was evaluated before.
pub(crate) fn and(args: &Args<'_>) -> bool
    ensures { result ≡ (truth_at (codes "OPERAND1") args.now && truth_at (codes "OPERAND2") args.now) }
{
    truth(args, "OPERAND1") && truth(args, "OPERAND2")
}

// Whether a side holds. Each was evaluated before.
pub(crate) fn or(args: &Args<'_>) -> bool
    ensures { result ≡ (truth_at (codes "OPERAND1") args.now || truth_at (codes "OPERAND2") args.now) }
{
    truth(args, "OPERAND1") || truth(args, "OPERAND2")
}

// The two texts joined. `Text` exactly where they are too long for a value; the only other error is want of memory.
pub(crate) fn join(alloc: Global, args: &Args<'_>) -> Result<Value, Stop>
    ensures ok { IfOk result (λ v. text_value (text_at (codes "STRING1") args.now ++ text_at (codes "STRING2") args.now) ≡ Goes v) }
    ensures stop { StopIs result (text_value (text_at (codes "STRING1") args.now ++ text_at (codes "STRING2") args.now)) }
{
    let zero = Value::Number(of_whole(0));
    joined(
        alloc,
        given(args, "STRING1", &zero),
        given(args, "STRING2", &zero),
    )
}

// The letter of a text. The only error is want of memory.
pub(crate) fn letter_of(alloc: Global, args: &Args<'_>) -> Result<Value, AllocError>
    ensures { IfOk result (λ v. v ≡ machine.letter (text_at (codes "STRING") args.now) (number_at (codes "LETTER") args.now)) }
{
    let zero = Value::Number(of_whole(0));
    letter(alloc, given(args, "STRING", &zero), number(args, "LETTER"))
}

// How many characters a text has.
pub(crate) fn length_of(args: &Args<'_>) -> Num
    ensures { result ≡ whole (pos (length (chars (text_at (codes "STRING") args.now)))) }
{
    let zero = Value::Number(of_whole(0));
    char_count(given(args, "STRING", &zero))
}

// Whether the second text stands within the first. The only error is want of memory.
pub(crate) fn contains(alloc: Global, args: &Args<'_>) -> Result<bool, AllocError>
    ensures { IfOk result (λ b. b ≡ has_part (folded_of (value_at (codes "STRING1") args.now)) (folded_of (value_at (codes "STRING2") args.now))) }
{
    let zero = Value::Number(of_whole(0));
    has_text(
        alloc,
        given(args, "STRING1", &zero),
        given(args, "STRING2", &zero),
    )
}

// The function of a number. The only error is want of memory.
pub(crate) fn mathop(alloc: Global, args: &Args<'_>) -> Result<Num, AllocError>
    ensures { IfOk result (λ n. n ≡ machine.mathop (folded (field_at (codes "OPERATOR") args.now)) (number_at (codes "NUM") args.now)) }
{
    operators::mathop(alloc, field(args, "OPERATOR"), number(args, "NUM"))
}

// A random number. `Counter` exactly where a word is needed and none is left.
pub(crate) fn random<R: Rng + Drop>(args: &Args<'_>, words: &mut Counted<R>) -> Result<Num, Stop>
    ensures ok { IfOk result (λ n. random.pick_random (value_at (codes "FROM") args.entry.now) (value_at (codes "TO") args.entry.now) (seen_words R.stream words.old) ≡ Goes (record { value = n; words = seen_words R.stream words.new })) }
    ensures stop { StopIs result (random.pick_random (value_at (codes "FROM") args.entry.now) (value_at (codes "TO") args.entry.now) (seen_words R.stream words.old)) }
{
    let zero = Value::Number(of_whole(0));
    pick_random(given(args, "FROM", &zero), given(args, "TO", &zero), words)
}

// The value of the variable. The only error is want of memory.
pub(crate) fn variable_value(args: &Args<'_>, sight: &Sight<'_>) -> Result<Value, AllocError>
    ensures { IfOk result (λ v. v ≡ machine.variable (seen sight.now) args.now) }
{
    variable(sight, named(args, "VARIABLE")).clone()
}

// The contents of the list. `Text` exactly where they are too long for a value; the only other error is want of memory.
pub(crate) fn list_contents(
    alloc: Global,
    args: &Args<'_>,
    sight: &Sight<'_>,
) -> Result<Value, Stop>
    ensures ok { IfOk result (λ v. text_value (contents_text (machine.items (seen sight.now) args.now)) ≡ Goes v) }
    ensures stop { StopIs result (text_value (contents_text (machine.items (seen sight.now) args.now))) }
{
    contents(alloc, sight, named(args, "LIST"))
}

// An item of the list. `Counter` exactly where a word is needed and none is left; the only other error is want of memory.
pub(crate) fn item<R: Rng + Drop>(
    alloc: Global,
    args: &Args<'_>,
    sight: &Sight<'_>,
    words: &mut Counted<R>,
) -> Result<Value, Stop>
    ensures ok { IfOk result (λ v. then_do (indexed (value_at (codes "INDEX") args.entry.now) (length (machine.items (seen sight.entry.now) args.entry.now)) false (seen_words R.stream words.old)) (made_of (λ i. machine.item_at i (machine.items (seen sight.entry.now) args.entry.now))) ≡ Goes (record { value = v; words = seen_words R.stream words.new })) }
    ensures stop { StopIs result (then_do (indexed (value_at (codes "INDEX") args.entry.now) (length (machine.items (seen sight.entry.now) args.entry.now)) false (seen_words R.stream words.old)) (made_of (λ i. machine.item_at i (machine.items (seen sight.entry.now) args.entry.now)))) }
{
    let zero = Value::Number(of_whole(0));
    let items = items(sight, named(args, "LIST"));
    item_of(alloc, given(args, "INDEX", &zero), items, words)
}

// The first place of an equal item of the list, from 1, and 0 where there is none.
pub(crate) fn place_of_item(args: &Args<'_>, sight: &Sight<'_>) -> Num
    ensures { result ≡ machine.place_of_item (value_at (codes "ITEM") args.now) (machine.items (seen sight.now) args.now) }
{
    let zero = Value::Number(of_whole(0));
    item_number(
        given(args, "ITEM", &zero),
        items(sight, named(args, "LIST")),
    )
}

// How many items the list has.
pub(crate) fn length_of_list(args: &Args<'_>, sight: &Sight<'_>) -> Num
    ensures { result ≡ whole (pos (length (machine.items (seen sight.now) args.now))) }
{
    item_count(items(sight, named(args, "LIST")))
}

// Whether the list has an equal item.
pub(crate) fn contains_item(args: &Args<'_>, sight: &Sight<'_>) -> bool
    ensures { result ≡ list_any (λ i. machine.is_equal i (value_at (codes "ITEM") args.now)) (machine.items (seen sight.now) args.now) }
{
    let zero = Value::Number(of_whole(0));
    let items = items(sight, named(args, "LIST"));
    is_among(given(args, "ITEM", &zero), items.as_slice())
}

// The parameter of the name; 0 where there is none. The only error is want of memory.
pub(crate) fn parameter(args: &Args<'_>, sight: &Sight<'_>) -> Result<Value, AllocError>
    ensures { IfOk result (λ v. v ≡ machine.parameter args.now (seen sight.now)) }
{
    match sight.params {
        Some(params) => match params.value(field(args, "VALUE")) {
            Some(value) => value.clone(),
            None => Ok(Value::Number(of_whole(0))),
        },
        None => Ok(Value::Number(of_whole(0))),
    }
}

// The number or the name of the own costume. The only error is want of memory.
pub(crate) fn costume(
    alloc: Global,
    args: &Args<'_>,
    sight: &Sight<'_>,
) -> Result<Value, AllocError>
    ensures { IfOk result (λ v. v ≡ sensing.number_or_name (machine.is_number args.now) (seen sight.now).records (sensing.own (seen sight.now))) }
{
    let by_number = is_number(args);
    number_or_name(alloc, by_number, sight.records, own(sight))
}

// The number or the name of the backdrop. The only error is want of memory.
pub(crate) fn backdrop(
    alloc: Global,
    args: &Args<'_>,
    sight: &Sight<'_>,
) -> Result<Value, AllocError>
    ensures { IfOk result (λ v. v ≡ sensing.number_or_name (machine.is_number args.now) (seen sight.now).records (sensing.stage_of (seen sight.now))) }
{
    let by_number = is_number(args);
    number_or_name(alloc, by_number, sight.records, stage_of(sight))
}

// Whether the number is asked for.
fn is_number(args: &Args<'_>) -> bool
    ensures { result ≡ machine.is_number args.now }
{
    field(args, "NUMBER_NAME") == "number"
}

// The volume of the own target.
pub(crate) fn own_volume(sight: &Sight<'_>) -> Num
    ensures { result ≡ (record_of (sensing.own (seen sight.now)) (seen sight.now).records).volume }
{
    volume(sight.records, target_of(own(sight)))
}

// The last answer. The only error is want of memory.
pub(crate) fn answer(sight: &Sight<'_>) -> Result<Value, AllocError>
    ensures { IfOk result (λ v. v ≡ values.Text (seen sight.now).devices.answer) }
{
    let answer = sight.devices.last_answer().clone()?;
    Ok(Value::Text(answer))
}

// Whether the key is held.
pub(crate) fn key_pressed(args: &Args<'_>, sight: &Sight<'_>) -> bool
    ensures { result ≡ sensing.key_pressed (text_at (codes "KEY_OPTION") args.now) (seen sight.now).devices }
{
    let zero = Value::Number(of_whole(0));
    let text = Written::of(given(args, "KEY_OPTION", &zero));
    is_pressed(text.as_str(), sight.devices)
}

// The distance to a sprite or the mouse.
pub(crate) fn distance(args: &Args<'_>, sight: &Sight<'_>) -> Num
    ensures { result ≡ sensing.distance_to (text_at (codes "DISTANCETOMENU") args.now) (seen sight.now) }
{
    let zero = Value::Number(of_whole(0));
    let text = Written::of(given(args, "DISTANCETOMENU", &zero));
    distance_to(text.as_str(), sight)
}

// A property of a sprite or of the stage. The only error is want of memory.
pub(crate) fn property(
    alloc: Global,
    args: &Args<'_>,
    sight: &Sight<'_>,
) -> Result<Value, AllocError>
    ensures { IfOk result (λ v. v ≡ sensing.property_of (field_at (codes "PROPERTY") args.now) (text_at (codes "OBJECT") args.now) (seen sight.now)) }
{
    let zero = Value::Number(of_whole(0));
    let object = Written::of(given(args, "OBJECT", &zero));
    property_of(alloc, field(args, "PROPERTY"), object.as_str(), sight)
}
