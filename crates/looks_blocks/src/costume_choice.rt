//! The costume that is picked.

ghost use Rattle.std.specs.Prelude.{◌≡◌, ◌<◌, ◌≤◌, ◌+◌, ◌-◌, ◌*◌, ◌/◌, ◌^◌, option_map, pos, IfErr, IfOk};
ghost use Rattle.machine_spec.specs.Costume as machine;
ghost use Rattle.machine_spec.specs.Numbers.{whole};
ghost use Rattle.machine_spec.specs.Outcome.{Goes, StopIs};
ghost use Rattle.machine_spec.specs.Words.{seen_words};
ghost use Rattle.looks_blocks.specs.Choices.{choice_in, place_in};
ghost use Rattle.looks_blocks.specs.Stops.{IsOfCountersOrMemory};

use crate::choices::Choice;
use operators::next_word;
use scratch_number::{Num, of_whole};
use script_words::{Counted, Rng, Stop};

// A costume by its index, which is still to be rounded and wrapped to so many costumes.
#[derive(Clone, Copy, Debug)]
pub(crate) struct Pick {
    pub index: Num,
    pub costumes: u32,
}

// A place as an index.
pub(crate) fn index(place: u32) -> Num
    ensures { result ≡ whole (pos place) }
{
    of_whole(i64::from(place))
}

// The index behind a place.
pub(crate) fn index_behind(place: u32) -> Num
    ensures { result ≡ whole (pos (place + 1)) }
{
    of_whole(i64::from(place) + 1)
}

// The one of so many that a word picks, from 0.
fn picked(word: u32, count: u32) -> u32
    requires { 0 < count }
    ensures value { result ≡ word * count / 2 ^ 32 }
    ensures within { result < count }
{
    (u64::from(word) * u64::from(count) / 4_294_967_296) as u32
}

// A place among the others, as one among all.
fn skipping(now: u32, place: u32) -> u32
    requires { place + 1 < 2 ^ 32 }
    ensures value { result ≡ machine.skipping now place }
    ensures within { result ≤ place + 1 }
{
    if now <= place { place + 1 } else { place }
}

// The costume at a place among so many.
fn at_place(place: u32, costumes: u32) -> Pick
    requires { place < costumes }
    ensures { place_in result ≡ place }
{
    Pick {
        index: index(place),
        costumes,
    }
}

// The one of the others that a word picks.
fn other(word: u32, costumes: u32, now: u32) -> Pick
    requires { 1 < costumes }
    ensures { place_in result ≡ machine.skipping now (word * (costumes - 1) / 2 ^ 32) }
{
    at_place(skipping(now, picked(word, costumes - 1)), costumes)
}

// Another costume than the present one, where there is one.
#[tactic(auto, using(crate::proofs::Stopping::draw_stops))]
fn another<R: Rng + Drop>(
    costumes: u32,
    now: u32,
    words: &mut Counted<R>,
) -> Result<Option<Pick>, Stop>
    requires { 0 < costumes }
    ensures ok { IfOk result (λ pick. machine.another costumes now (seen_words R.stream words.old) ≡ Goes (record { value = option_map place_in pick; words = seen_words R.stream words.new })) }
    ensures stop { StopIs result (machine.another costumes now (seen_words R.stream words.old)) }
    ensures kind { IfErr result IsOfCountersOrMemory }
{
    if costumes == 1 {
        return Ok(None);
    }
    match next_word(words) {
        Ok(word) => Ok(Some(other(word, costumes, now))),
        Err(stop) => Err(stop),
    }
}

// The costume that a choice picks of so many, where the present one is `now`. The only stop is `Counter` of the words,
// exactly where a word is needed and none is left.
pub(crate) fn pick_for<R: Rng + Drop>(
    choice: Choice,
    costumes: u32,
    now: u32,
    words: &mut Counted<R>,
) -> Result<Option<Pick>, Stop>
    requires { 0 < costumes }
    ensures ok { IfOk result (λ pick. machine.chosen (choice_in choice) costumes now (seen_words R.stream words.old) ≡ Goes (record { value = option_map place_in pick; words = seen_words R.stream words.new })) }
    ensures stop { StopIs result (machine.chosen (choice_in choice) costumes now (seen_words R.stream words.old)) }
    ensures kind { IfErr result IsOfCountersOrMemory }
{
    match choice {
        Choice::Stays => Ok(None),
        Choice::To(index) => Ok(Some(Pick { index, costumes })),
        Choice::Another => another(costumes, now, words),
    }
}
