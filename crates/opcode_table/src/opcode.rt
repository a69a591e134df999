//! The opcodes of blocks.

/// What a block does, as the file names it: an opcode of the table, in the table's order. Every
/// opcode of the Scratch 3 project file that this player knows is one of them.
#[derive(Clone, Copy, PartialEq, Eq, Debug)]
pub enum Opcode {
    /// `event_whenflagclicked`.
    EventWhenFlagClicked,
    /// `event_whenthisspriteclicked`.
    EventWhenThisSpriteClicked,
    /// `event_whenstageclicked`.
    EventWhenStageClicked,
    /// `event_whenbroadcastreceived`.
    EventWhenBroadcastReceived,
    /// `event_whenbackdropswitchesto`.
    EventWhenBackdropSwitchesTo,
    /// `event_whenkeypressed`.
    EventWhenKeyPressed,
    /// `control_start_as_clone`.
    ControlStartAsClone,
    /// `event_whengreaterthan`.
    EventWhenGreaterThan,
    /// `procedures_definition`.
    ProceduresDefinition,
    /// `procedures_prototype`.
    ProceduresPrototype,
    /// `control_forever`.
    ControlForever,
    /// `control_repeat`.
    ControlRepeat,
    /// `control_repeat_until`.
    ControlRepeatUntil,
    /// `control_if`.
    ControlIf,
    /// `control_if_else`.
    ControlIfElse,
    /// `control_wait`.
    ControlWait,
    /// `control_wait_until`.
    ControlWaitUntil,
    /// `control_stop`.
    ControlStop,
    /// `control_create_clone_of`.
    ControlCreateCloneOf,
    /// `control_delete_this_clone`.
    ControlDeleteThisClone,
    /// `event_broadcast`.
    EventBroadcast,
    /// `event_broadcastandwait`.
    EventBroadcastAndWait,
    /// `procedures_call`.
    ProceduresCall,
    /// `motion_movesteps`.
    MotionMoveSteps,
    /// `motion_turnright`.
    MotionTurnRight,
    /// `motion_turnleft`.
    MotionTurnLeft,
    /// `motion_goto`.
    MotionGoTo,
    /// `motion_gotoxy`.
    MotionGoToXY,
    /// `motion_glidesecstoxy`.
    MotionGlideSecsToXY,
    /// `motion_glideto`.
    MotionGlideTo,
    /// `motion_pointindirection`.
    MotionPointInDirection,
    /// `motion_pointtowards`.
    MotionPointTowards,
    /// `motion_changexby`.
    MotionChangeXBy,
    /// `motion_setx`.
    MotionSetX,
    /// `motion_changeyby`.
    MotionChangeYBy,
    /// `motion_sety`.
    MotionSetY,
    /// `motion_setrotationstyle`.
    MotionSetRotationStyle,
    /// `motion_xposition`.
    MotionXPosition,
    /// `motion_yposition`.
    MotionYPosition,
    /// `motion_direction`.
    MotionDirection,
    /// `looks_say`.
    LooksSay,
    /// `looks_think`.
    LooksThink,
    /// `looks_sayforsecs`.
    LooksSayForSecs,
    /// `looks_thinkforsecs`.
    LooksThinkForSecs,
    /// `looks_switchcostumeto`.
    LooksSwitchCostumeTo,
    /// `looks_nextcostume`.
    LooksNextCostume,
    /// `looks_switchbackdropto`.
    LooksSwitchBackdropTo,
    /// `looks_switchbackdroptoandwait`.
    LooksSwitchBackdropToAndWait,
    /// `looks_nextbackdrop`.
    LooksNextBackdrop,
    /// `looks_changesizeby`.
    LooksChangeSizeBy,
    /// `looks_setsizeto`.
    LooksSetSizeTo,
    /// `looks_changeeffectby`.
    LooksChangeEffectBy,
    /// `looks_seteffectto`.
    LooksSetEffectTo,
    /// `looks_cleargraphiceffects`.
    LooksClearGraphicEffects,
    /// `looks_show`.
    LooksShow,
    /// `looks_hide`.
    LooksHide,
    /// `looks_gotofrontback`.
    LooksGoToFrontBack,
    /// `looks_goforwardbackwardlayers`.
    LooksGoForwardBackwardLayers,
    /// `looks_costumenumbername`.
    LooksCostumeNumberName,
    /// `looks_backdropnumbername`.
    LooksBackdropNumberName,
    /// `looks_size`.
    LooksSize,
    /// `sound_play`.
    SoundPlay,
    /// `sound_playuntildone`.
    SoundPlayUntilDone,
    /// `sound_stopallsounds`.
    SoundStopAllSounds,
    /// `sound_changeeffectby`.
    SoundChangeEffectBy,
    /// `sound_seteffectto`.
    SoundSetEffectTo,
    /// `sound_cleareffects`.
    SoundClearEffects,
    /// `sound_changevolumeby`.
    SoundChangeVolumeBy,
    /// `sound_setvolumeto`.
    SoundSetVolumeTo,
    /// `sound_volume`.
    SoundVolume,
    /// `sensing_askandwait`.
    SensingAskAndWait,
    /// `sensing_resettimer`.
    SensingResetTimer,
    /// `sensing_timer`.
    SensingTimer,
    /// `sensing_mousex`.
    SensingMouseX,
    /// `sensing_mousey`.
    SensingMouseY,
    /// `sensing_mousedown`.
    SensingMouseDown,
    /// `sensing_answer`.
    SensingAnswer,
    /// `sensing_keypressed`.
    SensingKeyPressed,
    /// `sensing_distanceto`.
    SensingDistanceTo,
    /// `sensing_of`.
    SensingOf,
    /// `operator_add`.
    OperatorAdd,
    /// `operator_subtract`.
    OperatorSubtract,
    /// `operator_multiply`.
    OperatorMultiply,
    /// `operator_divide`.
    OperatorDivide,
    /// `operator_mod`.
    OperatorMod,
    /// `operator_random`.
    OperatorRandom,
    /// `operator_gt`.
    OperatorGt,
    /// `operator_lt`.
    OperatorLt,
    /// `operator_equals`.
    OperatorEquals,
    /// `operator_and`.
    OperatorAnd,
    /// `operator_or`.
    OperatorOr,
    /// `operator_not`.
    OperatorNot,
    /// `operator_join`.
    OperatorJoin,
    /// `operator_letter_of`.
    OperatorLetterOf,
    /// `operator_length`.
    OperatorLength,
    /// `operator_contains`.
    OperatorContains,
    /// `operator_round`.
    OperatorRound,
    /// `operator_mathop`.
    OperatorMathOp,
    /// `data_variable`.
    DataVariable,
    /// `data_setvariableto`.
    DataSetVariableTo,
    /// `data_changevariableby`.
    DataChangeVariableBy,
    /// `data_showvariable`.
    DataShowVariable,
    /// `data_hidevariable`.
    DataHideVariable,
    /// `data_listcontents`.
    DataListContents,
    /// `data_addtolist`.
    DataAddToList,
    /// `data_deleteoflist`.
    DataDeleteOfList,
    /// `data_deletealloflist`.
    DataDeleteAllOfList,
    /// `data_insertatlist`.
    DataInsertAtList,
    /// `data_replaceitemoflist`.
    DataReplaceItemOfList,
    /// `data_itemoflist`.
    DataItemOfList,
    /// `data_itemnumoflist`.
    DataItemNumOfList,
    /// `data_lengthoflist`.
    DataLengthOfList,
    /// `data_listcontainsitem`.
    DataListContainsItem,
    /// `data_showlist`.
    DataShowList,
    /// `data_hidelist`.
    DataHideList,
    /// `argument_reporter_string_number`.
    ArgumentReporterStringNumber,
    /// `argument_reporter_boolean`.
    ArgumentReporterBoolean,
}
