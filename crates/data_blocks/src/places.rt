//! The place of a list that an input names.

ghost use Rattle.std.specs.Prelude.{◌≡◌, codes, IfOk, IfErr};
ghost use Rattle.machine_spec.specs.Outcome.{Goes, StopIs};
ghost use Rattle.machine_spec.specs.Random.{indexed};
ghost use Rattle.machine_spec.specs.View.{value_at};
ghost use Rattle.machine_spec.specs.Words.{seen_words};
ghost use Rattle.block_arguments.specs.Stops.{IsOfWordsOrMemory};

use scratch_number::of_whole;
use scratch_values::{Args, Index, Value, list_index};
use script_words::{Counted, Rng, Stop};

// The place that a value names in a list of this length.
fn indexed<R: Rng + Drop>(
    value: &Value,
    length: u32,
    all: bool,
    words: &mut Counted<R>,
) -> Result<Index, Stop>
    ensures ok { IfOk result (λ i. indexed value.now length all (seen_words R.stream words.old) ≡ Goes (record { value = i; words = seen_words R.stream words.new })) }
    ensures stop { StopIs result (indexed value.now length all (seen_words R.stream words.old)) }
    ensures kind { IfErr result IsOfWordsOrMemory }
{
    match list_index(value, length, all, words) {
        Ok(index) => Ok(index),
        Err(full) => Err(Stop::from(full)),
    }
}

// The place that the input INDEX names in a list of this length.
pub(crate) fn place<R: Rng + Drop>(
    args: &Args<'_>,
    length: u32,
    all: bool,
    words: &mut Counted<R>,
) -> Result<Index, Stop>
    ensures ok { IfOk result (λ i. indexed (value_at (codes "INDEX") args.entry.now) length all (seen_words R.stream words.old) ≡ Goes (record { value = i; words = seen_words R.stream words.new })) }
    ensures stop { StopIs result (indexed (value_at (codes "INDEX") args.entry.now) length all (seen_words R.stream words.old)) }
    ensures kind { IfErr result IsOfWordsOrMemory }
{
    match args.value("INDEX") {
        Some(value) => indexed(value, length, all, words),
        None => indexed(&Value::Number(of_whole(0)), length, all, words),
    }
}
