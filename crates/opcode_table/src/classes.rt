//! What an opcode does, by kinds.

ghost use Rattle.std.specs.Prelude.{◌≡◌};
ghost use Rattle.opcode_table.specs.Kinds.{group, hat_kind, kind};

use crate::groups::Group;
use crate::hats::HatKind;
use crate::kinds::Kind;
use crate::opcode::Opcode;

/// The group of a command. An opcode that is no command is of Control.
pub fn group(op: Opcode) -> Group
    ensures { result ≡ group op }
{
    match op {
        Opcode::MotionMoveSteps
        | Opcode::MotionTurnRight
        | Opcode::MotionTurnLeft
        | Opcode::MotionGoTo
        | Opcode::MotionGoToXY
        | Opcode::MotionGlideSecsToXY
        | Opcode::MotionGlideTo
        | Opcode::MotionPointInDirection
        | Opcode::MotionPointTowards
        | Opcode::MotionChangeXBy
        | Opcode::MotionSetX
        | Opcode::MotionChangeYBy
        | Opcode::MotionSetY
        | Opcode::MotionSetRotationStyle => Group::Motion,
        Opcode::LooksSay
        | Opcode::LooksThink
        | Opcode::LooksSayForSecs
        | Opcode::LooksThinkForSecs
        | Opcode::LooksSwitchCostumeTo
        | Opcode::LooksNextCostume
        | Opcode::LooksSwitchBackdropTo
        | Opcode::LooksSwitchBackdropToAndWait
        | Opcode::LooksNextBackdrop
        | Opcode::LooksChangeSizeBy
        | Opcode::LooksSetSizeTo
        | Opcode::LooksChangeEffectBy
        | Opcode::LooksSetEffectTo
        | Opcode::LooksClearGraphicEffects
        | Opcode::LooksShow
        | Opcode::LooksHide
        | Opcode::LooksGoToFrontBack
        | Opcode::LooksGoForwardBackwardLayers
        | Opcode::SoundPlay
        | Opcode::SoundPlayUntilDone
        | Opcode::SoundStopAllSounds
        | Opcode::SoundChangeEffectBy
        | Opcode::SoundSetEffectTo
        | Opcode::SoundClearEffects
        | Opcode::SoundChangeVolumeBy
        | Opcode::SoundSetVolumeTo => Group::Looks,
        Opcode::DataSetVariableTo
        | Opcode::DataChangeVariableBy
        | Opcode::DataShowVariable
        | Opcode::DataHideVariable
        | Opcode::DataAddToList
        | Opcode::DataDeleteOfList
        | Opcode::DataDeleteAllOfList
        | Opcode::DataInsertAtList
        | Opcode::DataReplaceItemOfList
        | Opcode::DataShowList
        | Opcode::DataHideList => Group::Data,
        _ => Group::Control,
    }
}

/// The kind of a hat. An opcode that is no hat is NoHat, a definition too.
pub fn hat_kind(op: Opcode) -> HatKind
    ensures { result ≡ hat_kind op }
{
    match op {
        Opcode::EventWhenFlagClicked => HatKind::FlagHat,
        Opcode::EventWhenThisSpriteClicked => HatKind::SpriteHat,
        Opcode::EventWhenStageClicked => HatKind::StageHat,
        Opcode::EventWhenBroadcastReceived => HatKind::MessageHat,
        Opcode::EventWhenBackdropSwitchesTo => HatKind::BackdropHat,
        Opcode::EventWhenKeyPressed => HatKind::KeyHat,
        Opcode::ControlStartAsClone => HatKind::CloneHat,
        Opcode::EventWhenGreaterThan => HatKind::EdgeHat,
        _ => HatKind::NoHat,
    }
}

/// The kind of a command. An opcode that is no command is Plain.
pub fn kind(op: Opcode) -> Kind
    ensures { result ≡ kind op }
{
    match op {
        Opcode::ControlIf | Opcode::ControlIfElse => Kind::Choice,
        Opcode::ControlForever | Opcode::ControlRepeatUntil => Kind::Endless,
        Opcode::ControlRepeat => Kind::Counted,
        Opcode::ProceduresCall => Kind::Calls,
        Opcode::ControlWait => Kind::Waits,
        Opcode::MotionGlideSecsToXY | Opcode::MotionGlideTo => Kind::Glides,
        Opcode::EventBroadcastAndWait | Opcode::LooksSwitchBackdropToAndWait => Kind::Starts,
        Opcode::SensingAskAndWait => Kind::Asks,
        Opcode::LooksSayForSecs | Opcode::LooksThinkForSecs => Kind::Speaks,
        _ => Kind::Plain,
    }
}
