//! The value of an edge hat.

ghost use Rattle.std.specs.Prelude.{◌≡◌, ◌<◌, codes, length, Some, IfOk};
ghost use Rattle.machine_spec.specs.Outcome.{Goes, StopIs};
ghost use Rattle.machine_spec.specs.Script.{Statement, Script, Then};
ghost use Rattle.machine_spec.specs.Starting.{same_folded};
ghost use Rattle.machine_spec.specs.Words.{seen_words};
ghost use Rattle.project_check.specs.Loaded.{tables_of, blocks_at};
ghost use Rattle.project_spec.specs.Trees.{script};
ghost use Rattle.evaluate.specs.Seen.{seen, sheet_of};
ghost use Rattle.frames.specs.EdgeValues as values;
ghost use Rattle.frames.specs.EdgeValues.{valued};

use block_arguments::{field, number};
use caseless::default_caseless_match_str;
use devices::Devices;
use evaluate::{View, inputs};
use machine_spec::BlockId;
use scratch_number::is_less;
use scratch_values::Args;
use script_words::{Counted, Rng, Stop};
use std::alloc::Global;

// Whether a text folds to that of the timer.
fn names_timer(text: &str) -> bool
    ensures { result ≡ same_folded text.now (codes "timer") }
{
    default_caseless_match_str(text, "timer")
}

// Whether the arguments of an edge hat make it true: it is of the timer, which is above VALUE.
fn is_above(args: &Args<'_>, devices: &Devices) -> bool
    ensures { result ≡ values.is_above args.now devices.now }
{
    let is_of_timer = names_timer(field(args, "WHENGREATERTHANMENU"));
    let is_passed = is_less(number(args, "VALUE"), devices.timer());
    is_of_timer && is_passed
}

// The value of an edge hat, whose inputs are evaluated whatever its field.
pub(crate) fn evaluate_hat<R: Rng + Drop>(
    alloc: Global,
    view: &View<'_, '_>,
    hat: BlockId,
    words: &mut Counted<R>,
) -> Result<bool, Stop>
    requires held { view.now.target < length (tables_of view.now.project.now) }
    requires member { hat < length (blocks_at view.now.target view.now.project.now) }
    ensures ok { IfOk result (λ value. (s : Statement) → (rest : Script) → script (sheet_of view.now) (Some hat) ≡ Then s rest → valued (seen view.now) s (seen_words R.stream words.old) ≡ Goes (record { value = value; words = seen_words R.stream words.new })) }
    ensures stop { (s : Statement) → (rest : Script) → script (sheet_of view.now) (Some hat) ≡ Then s rest → StopIs result (valued (seen view.now) s (seen_words R.stream words.old)) }
{
    match inputs(alloc, view, hat, words) {
        Ok(args) => Ok(is_above(&args, view.devices)),
        Err(stop) => Err(stop),
    }
}
