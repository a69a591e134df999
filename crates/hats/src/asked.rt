//! What a filter asks of an index of hats: an opcode, and the folded text of the field.

ghost use Rattle.std.specs.Prelude.{◌≡◌, option_map, IfOk};
ghost use Rattle.hat_index.specs.ByIndex.{first_asked, second_asked};

use machine_spec::Filter;
use opcode_table::Opcode;
use project_json::Text;
use scratch_values::fold;
use std::alloc::{AllocError, Global};

// The opcode of the hats of a filter; of a click that of the hats that are not the stage's.
pub(crate) fn first_opcode(filter: &Filter) -> Opcode
    ensures { result ≡ (first_asked filter.now).opcode }
{
    match filter {
        Filter::Broadcast(_) => Opcode::EventWhenBroadcastReceived,
        Filter::Backdrop(_) => Opcode::EventWhenBackdropSwitchesTo,
        Filter::Key(_) => Opcode::EventWhenKeyPressed,
        Filter::Flag => Opcode::EventWhenFlagClicked,
        Filter::CloneStart(_) => Opcode::ControlStartAsClone,
        Filter::Clicked(_) => Opcode::EventWhenThisSpriteClicked,
    }
}

// The opcode of the stage's hats for a click.
pub(crate) fn second_opcode(filter: &Filter) -> Option<Opcode>
    ensures { result ≡ option_map (λ a. a.opcode) (second_asked filter.now) }
{
    match filter {
        Filter::Clicked(_) => Some(Opcode::EventWhenStageClicked),
        Filter::Broadcast(_) => None,
        Filter::Backdrop(_) => None,
        Filter::Key(_) => None,
        Filter::Flag => None,
        Filter::CloneStart(_) => None,
    }
}

// The folded text that the field of the hats has; empty where they have no field.
pub(crate) fn folded_text(alloc: Global, filter: &Filter) -> Result<Text, AllocError>
    ensures { IfOk result (λ text. text ≡ (first_asked filter.now).folded) }
{
    match filter {
        Filter::Broadcast(message) => fold(alloc, message.as_str()),
        Filter::Backdrop(costume) => fold(alloc, costume.as_str()),
        Filter::Key(name) => fold(alloc, name.as_str()),
        Filter::Flag => Ok(Text::new(alloc)),
        Filter::CloneStart(_) => Ok(Text::new(alloc)),
        Filter::Clicked(_) => Ok(Text::new(alloc)),
    }
}
