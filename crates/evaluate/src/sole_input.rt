//! The inputs of blocks that have one, or none.

ghost use Rattle.std.specs.Prelude.{◌≡◌, ◌<◌, [], ◌∷◌, length, IfOk, IfErr, Some};
ghost use Rattle.project_check.specs.Loaded.{tables_of, blocks_at};
ghost use Rattle.project_spec.specs.Trees.{script};
ghost use Rattle.scratch_values.specs.Args.{arguments as arguments_of};
ghost use Rattle.scratch_values.specs.Held.{pair_of};
ghost use Rattle.machine_spec.specs.Evaluate.{evaluated};
ghost use Rattle.machine_spec.specs.Outcome.{Goes, StopIs};
ghost use Rattle.machine_spec.specs.Script.{Statement, Script, Then};
ghost use Rattle.machine_spec.specs.Words.{Words, seen_words};
ghost use Rattle.evaluate.specs.Seen.{seen, sheet_of, arguments_at, fields_at, inputs_at};
ghost use Rattle.evaluate.specs.Stops.{IsOfValuesOrMemory};

use crate::block_links::linked;
use crate::input_values::argument;
use crate::view::View;
use cached_blocks::a_script_is_told;
use machine_spec::BlockId;
use scratch_values::{Arg, Args};
use script_words::{Counted, Rng, Stop};
use std::alloc::Global;

/// The arguments of a block that has no input: what `inputs` gives, and no word is drawn. It takes no memory.
#[inline(always)]
pub fn no_inputs<'p>(view: &View<'p, '_>, block: BlockId) -> Args<'p>
    requires held { view.now.target < length (tables_of view.now.project.now) }
    requires member { block < length (blocks_at view.now.target view.now.project.now) }
    requires none { length (inputs_at view.now block) ≡ 0 }
    ensures { (s : Statement) → (rest : Script) → (w : Words) → script (sheet_of view.now) (Some block) ≡ Then s rest → evaluated (seen view.now) s w ≡ Goes (record { value = result; words = w }) }
{
    let cached = linked(view, block);
    a_script_is_told();
    Args::none(cached.fields.as_slice())
}

// The argument of a block of the target that has one input.
#[inline(always)]
fn sole<'p, R: Rng + Drop>(
    alloc: Global,
    view: &View<'p, '_>,
    k: BlockId,
    words: &mut Counted<R>,
) -> Result<Arg<'p>, Stop>
    requires held { view.now.target < length (tables_of view.now.project.now) }
    requires member { k < length (blocks_at view.now.target view.now.project.now) }
    requires one { length (inputs_at view.now k) ≡ 1 }
    ensures ok { IfOk result (λ a. arguments_at view.now k (seen_words R.stream words.old) ≡ Goes (record { value = arguments_of (pair_of a ∷ []) (fields_at view.now k); words = seen_words R.stream words.new })) }
    ensures stop { StopIs result (arguments_at view.now k (seen_words R.stream words.old)) }
{
    let block = linked(view, k);
    match block.inputs.as_slice() {
        [x] => match argument(alloc, view, k, x, words) {
            Ok(a) => Ok(a),
            Err(stop) => Err(stop),
        },
        [] => unreachable!(),
        [_, _, ..] => unreachable!(),
    }
}

/// The value of the only input of a block, with its name: what `inputs` gives is this one argument with the fields. It takes
/// no memory of its own. The errors are those of `inputs`.
#[inline(always)]
pub fn only_input<'p, R: Rng + Drop>(
    alloc: Global,
    view: &View<'p, '_>,
    block: BlockId,
    words: &mut Counted<R>,
) -> Result<Arg<'p>, Stop>
    requires held { view.now.target < length (tables_of view.now.project.now) }
    requires member { block < length (blocks_at view.now.target view.now.project.now) }
    requires one { length (inputs_at view.now block) ≡ 1 }
    ensures ok { IfOk result (λ a. (s : Statement) → (rest : Script) → script (sheet_of view.now) (Some block) ≡ Then s rest → evaluated (seen view.now) s (seen_words R.stream words.old) ≡ Goes (record { value = arguments_of (pair_of a ∷ []) (fields_at view.now block); words = seen_words R.stream words.new })) }
    ensures stop { (s : Statement) → (rest : Script) → script (sheet_of view.now) (Some block) ≡ Then s rest → StopIs result (evaluated (seen view.now) s (seen_words R.stream words.old)) }
    ensures kind { IfErr result IsOfValuesOrMemory }
{
    let _cached = linked(view, block);
    a_script_is_told();
    sole(alloc, view, block, words)
}
