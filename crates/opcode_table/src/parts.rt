//! What a block of each opcode has.

ghost use Rattle.std.specs.Prelude.{◌≡◌, map};
ghost use Rattle.opcode_table.specs.Table.{row};
ghost use Rattle.opcode_table.specs.Views.{field_of, input_of};

use crate::opcode::Opcode;
use crate::shape::{InputSpec, Role, Spec};

// An input that a block has to have.
macro_rules! needs {
    ($name:literal) => {
        InputSpec {
            name: $name,
            required: true,
        }
    };
}

// An input of a truth, which may be absent.
macro_rules! may {
    ($name:literal) => {
        InputSpec {
            name: $name,
            required: false,
        }
    };
}

/// What a block of an opcode has: its role, its inputs, its fields, and how many branches.
pub fn spec(op: Opcode) -> Spec
    ensures role { result.role ≡ (row op).role }
    ensures inputs { map input_of result.inputs.now ≡ (row op).inputs }
    ensures fields { map field_of result.fields.now ≡ (row op).fields }
    ensures branches { result.branches ≡ (row op).branches }
{
    Spec {
        role: role(op),
        inputs: inputs(op),
        fields: fields(op),
        branches: branches(op),
    }
}

// Where a block stands.
fn role(op: Opcode) -> Role
    ensures { result ≡ (row op).role }
{
    match op {
        Opcode::EventWhenFlagClicked
        | Opcode::EventWhenThisSpriteClicked
        | Opcode::EventWhenStageClicked
        | Opcode::EventWhenBroadcastReceived
        | Opcode::EventWhenBackdropSwitchesTo
        | Opcode::EventWhenKeyPressed
        | Opcode::ControlStartAsClone
        | Opcode::EventWhenGreaterThan => Role::Hat,
        Opcode::ProceduresDefinition => Role::Definition,
        Opcode::ProceduresPrototype => Role::Prototype,
        Opcode::MotionXPosition
        | Opcode::MotionYPosition
        | Opcode::MotionDirection
        | Opcode::LooksCostumeNumberName
        | Opcode::LooksBackdropNumberName
        | Opcode::LooksSize
        | Opcode::SoundVolume
        | Opcode::SensingTimer
        | Opcode::SensingMouseX
        | Opcode::SensingMouseY
        | Opcode::SensingMouseDown
        | Opcode::SensingAnswer
        | Opcode::SensingKeyPressed
        | Opcode::SensingDistanceTo
        | Opcode::SensingOf => Role::Reporter,
        Opcode::OperatorAdd
        | Opcode::OperatorSubtract
        | Opcode::OperatorMultiply
        | Opcode::OperatorDivide
        | Opcode::OperatorMod
        | Opcode::OperatorRandom
        | Opcode::OperatorGt
        | Opcode::OperatorLt
        | Opcode::OperatorEquals
        | Opcode::OperatorAnd
        | Opcode::OperatorOr
        | Opcode::OperatorNot
        | Opcode::OperatorJoin
        | Opcode::OperatorLetterOf
        | Opcode::OperatorLength
        | Opcode::OperatorContains
        | Opcode::OperatorRound
        | Opcode::OperatorMathOp => Role::Reporter,
        Opcode::DataVariable
        | Opcode::DataListContents
        | Opcode::DataItemOfList
        | Opcode::DataItemNumOfList
        | Opcode::DataLengthOfList
        | Opcode::DataListContainsItem
        | Opcode::ArgumentReporterStringNumber
        | Opcode::ArgumentReporterBoolean => Role::Reporter,
        _ => Role::Command,
    }
}

// The inputs that are no branches.
fn inputs(op: Opcode) -> &'static [InputSpec]
    ensures { map input_of result.now ≡ (row op).inputs }
{
    match op {
        Opcode::EventWhenGreaterThan
        | Opcode::LooksSetEffectTo
        | Opcode::SoundChangeEffectBy
        | Opcode::SoundSetEffectTo
        | Opcode::DataSetVariableTo
        | Opcode::DataChangeVariableBy => &[needs!("VALUE")],
        Opcode::ProceduresDefinition => &[needs!("custom_block")],
        Opcode::ControlRepeat => &[needs!("TIMES")],
        Opcode::ControlRepeatUntil
        | Opcode::ControlIf
        | Opcode::ControlIfElse
        | Opcode::ControlWaitUntil => &[may!("CONDITION")],
        Opcode::ControlWait => &[needs!("DURATION")],
        Opcode::ControlCreateCloneOf => &[needs!("CLONE_OPTION")],
        Opcode::EventBroadcast | Opcode::EventBroadcastAndWait => &[needs!("BROADCAST_INPUT")],
        Opcode::MotionMoveSteps => &[needs!("STEPS")],
        Opcode::MotionTurnRight | Opcode::MotionTurnLeft => &[needs!("DEGREES")],
        Opcode::MotionGoTo => &[needs!("TO")],
        Opcode::MotionGoToXY => &[needs!("X"), needs!("Y")],
        Opcode::MotionGlideSecsToXY => &[needs!("SECS"), needs!("X"), needs!("Y")],
        Opcode::MotionGlideTo => &[needs!("SECS"), needs!("TO")],
        Opcode::MotionPointInDirection => &[needs!("DIRECTION")],
        Opcode::MotionPointTowards => &[needs!("TOWARDS")],
        Opcode::MotionChangeXBy => &[needs!("DX")],
        Opcode::MotionSetX => &[needs!("X")],
        Opcode::MotionChangeYBy => &[needs!("DY")],
        Opcode::MotionSetY => &[needs!("Y")],
        Opcode::LooksSay | Opcode::LooksThink => &[needs!("MESSAGE")],
        Opcode::LooksSayForSecs | Opcode::LooksThinkForSecs => &[needs!("MESSAGE"), needs!("SECS")],
        Opcode::LooksSwitchCostumeTo => &[needs!("COSTUME")],
        Opcode::LooksSwitchBackdropTo => &[needs!("BACKDROP")],
        Opcode::LooksSwitchBackdropToAndWait => &[needs!("BACKDROP")],
        Opcode::LooksChangeSizeBy | Opcode::LooksChangeEffectBy => &[needs!("CHANGE")],
        Opcode::LooksSetSizeTo => &[needs!("SIZE")],
        Opcode::LooksGoForwardBackwardLayers | Opcode::OperatorRound | Opcode::OperatorMathOp => &[
            needs!("NUM"),
        ],
        Opcode::SoundPlay | Opcode::SoundPlayUntilDone => &[needs!("SOUND_MENU")],
        Opcode::SoundChangeVolumeBy | Opcode::SoundSetVolumeTo => &[needs!("VOLUME")],
        Opcode::SensingAskAndWait => &[needs!("QUESTION")],
        Opcode::SensingKeyPressed => &[needs!("KEY_OPTION")],
        Opcode::SensingDistanceTo => &[needs!("DISTANCETOMENU")],
        Opcode::SensingOf => &[needs!("OBJECT")],
        Opcode::OperatorAdd
        | Opcode::OperatorSubtract
        | Opcode::OperatorMultiply
        | Opcode::OperatorDivide
        | Opcode::OperatorMod => &[needs!("NUM1"), needs!("NUM2")],
        Opcode::OperatorRandom => &[needs!("FROM"), needs!("TO")],
        Opcode::OperatorGt | Opcode::OperatorLt | Opcode::OperatorEquals => &[
            needs!("OPERAND1"),
            needs!("OPERAND2"),
        ],
        Opcode::OperatorAnd | Opcode::OperatorOr => &[may!("OPERAND1"), may!("OPERAND2")],
        Opcode::OperatorNot => &[may!("OPERAND")],
        Opcode::OperatorJoin | Opcode::OperatorContains => &[needs!("STRING1"), needs!("STRING2")],
        Opcode::OperatorLetterOf => &[needs!("LETTER"), needs!("STRING")],
        Opcode::OperatorLength => &[needs!("STRING")],
        Opcode::DataAddToList | Opcode::DataItemNumOfList | Opcode::DataListContainsItem => &[
            needs!("ITEM"),
        ],
        Opcode::DataDeleteOfList | Opcode::DataItemOfList => &[needs!("INDEX")],
        Opcode::DataInsertAtList | Opcode::DataReplaceItemOfList => &[
            needs!("INDEX"),
            needs!("ITEM"),
        ],
        _ => &[],
    }
}

// The fields.
fn fields(op: Opcode) -> &'static [&'static str]
    ensures { map field_of result.now ≡ (row op).fields }
{
    match op {
        Opcode::EventWhenBroadcastReceived => &["BROADCAST_OPTION"],
        Opcode::EventWhenBackdropSwitchesTo => &["BACKDROP"],
        Opcode::EventWhenKeyPressed => &["KEY_OPTION"],
        Opcode::EventWhenGreaterThan => &["WHENGREATERTHANMENU"],
        Opcode::ControlStop => &["STOP_OPTION"],
        Opcode::MotionSetRotationStyle => &["STYLE"],
        Opcode::LooksChangeEffectBy
        | Opcode::LooksSetEffectTo
        | Opcode::SoundChangeEffectBy
        | Opcode::SoundSetEffectTo => &["EFFECT"],
        Opcode::LooksGoToFrontBack => &["FRONT_BACK"],
        Opcode::LooksGoForwardBackwardLayers => &["FORWARD_BACKWARD"],
        Opcode::LooksCostumeNumberName | Opcode::LooksBackdropNumberName => &["NUMBER_NAME"],
        Opcode::SensingOf => &["PROPERTY"],
        Opcode::OperatorMathOp => &["OPERATOR"],
        Opcode::DataVariable
        | Opcode::DataSetVariableTo
        | Opcode::DataChangeVariableBy
        | Opcode::DataShowVariable
        | Opcode::DataHideVariable => &["VARIABLE"],
        Opcode::DataListContents
        | Opcode::DataAddToList
        | Opcode::DataDeleteOfList
        | Opcode::DataDeleteAllOfList
        | Opcode::DataInsertAtList
        | Opcode::DataReplaceItemOfList
        | Opcode::DataItemOfList
        | Opcode::DataItemNumOfList
        | Opcode::DataLengthOfList
        | Opcode::DataListContainsItem
        | Opcode::DataShowList
        | Opcode::DataHideList => &["LIST"],
        Opcode::ArgumentReporterStringNumber | Opcode::ArgumentReporterBoolean => &["VALUE"],
        _ => &[],
    }
}

// How many branches.
fn branches(op: Opcode) -> u8
    ensures { result ≡ (row op).branches }
{
    match op {
        Opcode::ControlForever
        | Opcode::ControlRepeat
        | Opcode::ControlRepeatUntil
        | Opcode::ControlIf => 1,
        Opcode::ControlIfElse => 2,
        _ => 0,
    }
}
