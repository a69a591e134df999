//! The parts of a level, made of what a text tells.

ghost use Rattle.std.specs.Prelude.{◌≡◌, true, map, IfOk, OnOk, ◌++◌, ◌∷◌, []};
ghost use Rattle.std.specs.List.{list_all};
ghost use Rattle.saved_parts.specs.Telling.{kept_of, param_of, value_of};
ghost use Rattle.saved_spec.specs.Rules.{is_short, values_kept};
ghost use Rattle.saved_levels.specs.Making.{level_made};

use machine_spec::{BlockId, Boxed, Context, Serial, Serials};
use saved_parts::{ToldKept, ToldParam, ToldParams, ToldSerials, value};
use scratch_values::Params;
use std::alloc::{AllocError, Global};
use thread_frames::Level;

// One parameter more.
fn push(alloc: Global, params: &mut Params, told: ToldParam) -> Result<(), AllocError>
    requires { is_short (value_of told.value) ≡ true }
    ensures { OnOk result (params.new ≡ params.old ++ param_of told ∷ []) }
{
    let ToldParam { name, value: told } = told;
    let value = value(alloc, told)?;
    params.push(name, value)
}

// Parameters whose texts are not too long.
fn params(alloc: Global, told: ToldParams) -> Result<Params, AllocError>
    requires { list_all is_short (map (λ p. p.1) (map param_of told)) ≡ true }
    ensures { IfOk result (λ ps. ps ≡ map param_of told) }
{
    let mut params = Params::new(alloc);
    for param in told.into_vec() {
        push(alloc, &mut params, param)?;
    }
    Ok(params)
}

fn serials(alloc: Global, told: ToldSerials) -> Result<Serials, AllocError>
    ensures { IfOk result (λ ns. ns ≡ told) }
{
    let mut serials = Serials::new(alloc);
    for serial in told.into_vec() {
        serials.push(Serial(serial))?;
    }
    Ok(serials)
}

// A level that keeps nothing but a context.
fn plain(block: Option<BlockId>, is_loop: bool, warp: bool, context: Context) -> Level
    ensures { result ≡ record { block = block; is_loop = is_loop; warp = warp; context = context; params = None } }
{
    Level {
        block,
        is_loop,
        warp,
        context,
        params: None,
    }
}

// The level of a block at a flag, which keeps this. The only error is want of memory.
pub(crate) fn level(
    alloc: Global,
    block: Option<BlockId>,
    warp: bool,
    kept: ToldKept,
) -> Result<Level, AllocError>
    requires { list_all is_short (values_kept (kept_of kept)) ≡ true }
    ensures { IfOk result (λ l. l ≡ level_made block warp (kept_of kept)) }
{
    match kept {
        ToldKept::Nothing => Ok(plain(block, false, warp, Context::Fresh)),
        ToldKept::Loop => Ok(plain(block, true, warp, Context::Fresh)),
        ToldKept::Repeat(turns) => Ok(plain(block, true, warp, Context::Repeat(turns))),
        ToldKept::Wait(state) => {
            let state = Boxed::new(alloc, state)?;
            Ok(plain(block, false, warp, Context::Wait(state)))
        }
        ToldKept::Glide(state) => {
            let state = Boxed::new(alloc, state)?;
            Ok(plain(block, false, warp, Context::Glide(state)))
        }
        ToldKept::Started(told) => {
            let serials = Boxed::new(alloc, serials(alloc, told)?)?;
            Ok(plain(block, false, warp, Context::Started(serials)))
        }
        ToldKept::Asked => Ok(plain(block, false, warp, Context::Asked)),
        ToldKept::Spoken => Ok(plain(block, false, warp, Context::Spoken)),
        ToldKept::Call(told) => {
            let params = Boxed::new(alloc, params(alloc, told)?)?;
            Ok(Level {
                block,
                is_loop: false,
                warp,
                context: Context::Called,
                params: Some(params),
            })
        }
    }
}
