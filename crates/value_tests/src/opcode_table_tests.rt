//! Tests of the table, against names and rows that are written here once more.

use opcode_table::{
    Group, HatKind, InputSpec, Kind, Opcode, Role, Spec, each_name_is_found,
    every_hat_is_of_a_kind, found_by_its_name, group, groups_are_of_commands, hat_kind, kind,
    kinds_are_of_commands, name, names_are_distinct, of_name, spec,
};

// Names of the file, of each part of the table, with their places in it.
static NAMES: [(usize, &str); 40] = [
    (0, "event_whenflagclicked"),
    (3, "event_whenbroadcastreceived"),
    (6, "control_start_as_clone"),
    (7, "event_whengreaterthan"),
    (8, "procedures_definition"),
    (9, "procedures_prototype"),
    (10, "control_forever"),
    (14, "control_if_else"),
    (18, "control_create_clone_of"),
    (21, "event_broadcastandwait"),
    (22, "procedures_call"),
    (23, "motion_movesteps"),
    (28, "motion_glidesecstoxy"),
    (35, "motion_sety"),
    (36, "motion_setrotationstyle"),
    (39, "motion_direction"),
    (40, "looks_say"),
    (47, "looks_switchbackdroptoandwait"),
    (57, "looks_goforwardbackwardlayers"),
    (60, "looks_size"),
    (61, "sound_play"),
    (63, "sound_stopallsounds"),
    (69, "sound_volume"),
    (70, "sensing_askandwait"),
    (76, "sensing_answer"),
    (79, "sensing_of"),
    (80, "operator_add"),
    (85, "operator_random"),
    (91, "operator_not"),
    (93, "operator_letter_of"),
    (97, "operator_mathop"),
    (98, "data_variable"),
    (103, "data_listcontents"),
    (106, "data_deletealloflist"),
    (110, "data_itemnumoflist"),
    (112, "data_listcontainsitem"),
    (113, "data_showlist"),
    (114, "data_hidelist"),
    (115, "argument_reporter_string_number"),
    (116, "argument_reporter_boolean"),
];

#[test]
fn each_name_is_of_the_opcode_at_its_place(rt: HostRuntime) {
    for (place, word) in &NAMES {
        let op = of_name(word);
        assert_eq!(rt; op.map(|found| found as usize), Some(*place));
        assert_eq!(rt; op.map(|found| name(found)), Some(*word));
    }
}

#[test]
fn the_table_ends_with_the_arguments(rt: HostRuntime) {
    assert_eq!(rt; Opcode::ArgumentReporterBoolean as usize + 1, 117);
}

#[test]
fn other_names_are_not_found(rt: HostRuntime) {
    let unknown = [
        "",
        "event_whenflagclicked ",
        "event_whenflagclicke",
        "Event_whenflagclicked",
        "pen_clear",
        "control_while",
        "control_for_each",
        "sensing_loudness",
        "motion_goto_menu",
        "data_itemoflist\0",
    ];
    for word in unknown {
        assert_eq!(rt; of_name(word), None);
    }
}

macro_rules! must {
    ($name:literal) => {
        InputSpec {
            name: $name,
            required: true,
        }
    };
}

macro_rules! truth {
    ($name:literal) => {
        InputSpec {
            name: $name,
            required: false,
        }
    };
}

macro_rules! row {
    ($role:ident, [$($input:expr),*], [$($field:literal),*], $branches:literal) => {
        Spec {
            role: Role::$role,
            inputs: &[$($input),*],
            fields: &[$($field),*],
            branches: $branches,
        }
    };
}

static ROWS: [(&str, Spec); 20] = [
    ("event_whenflagclicked", row!(Hat, [], [], 0)),
    ("event_whenkeypressed", row!(Hat, [], ["KEY_OPTION"], 0)),
    (
        "event_whengreaterthan",
        row!(Hat, [must!("VALUE")], ["WHENGREATERTHANMENU"], 0),
    ),
    (
        "procedures_definition",
        row!(Definition, [must!("custom_block")], [], 0),
    ),
    ("procedures_prototype", row!(Prototype, [], [], 0)),
    ("procedures_call", row!(Command, [], [], 0)),
    ("control_forever", row!(Command, [], [], 1)),
    ("control_repeat", row!(Command, [must!("TIMES")], [], 1)),
    (
        "control_if_else",
        row!(Command, [truth!("CONDITION")], [], 2),
    ),
    (
        "control_wait_until",
        row!(Command, [truth!("CONDITION")], [], 0),
    ),
    ("control_stop", row!(Command, [], ["STOP_OPTION"], 0)),
    (
        "motion_glidesecstoxy",
        row!(Command, [must!("SECS"), must!("X"), must!("Y")], [], 0),
    ),
    ("motion_direction", row!(Reporter, [], [], 0)),
    (
        "looks_goforwardbackwardlayers",
        row!(Command, [must!("NUM")], ["FORWARD_BACKWARD"], 0),
    ),
    (
        "looks_costumenumbername",
        row!(Reporter, [], ["NUMBER_NAME"], 0),
    ),
    (
        "sound_seteffectto",
        row!(Command, [must!("VALUE")], ["EFFECT"], 0),
    ),
    (
        "sensing_of",
        row!(Reporter, [must!("OBJECT")], ["PROPERTY"], 0),
    ),
    (
        "operator_and",
        row!(Reporter, [truth!("OPERAND1"), truth!("OPERAND2")], [], 0),
    ),
    (
        "data_replaceitemoflist",
        row!(Command, [must!("INDEX"), must!("ITEM")], ["LIST"], 0),
    ),
    (
        "argument_reporter_boolean",
        row!(Reporter, [], ["VALUE"], 0),
    ),
];

#[test]
fn rows_are_those_of_the_table(rt: HostRuntime) {
    for (word, row) in &ROWS {
        assert_eq!(rt; of_name(word).map(|op| spec(op)), Some(*row));
    }
}

#[test]
fn commands_are_of_groups(rt: HostRuntime) {
    assert_eq!(rt; group(Opcode::MotionTurnLeft), Group::Motion);
    assert_eq!(rt; group(Opcode::LooksHide), Group::Looks);
    assert_eq!(rt; group(Opcode::SoundPlay), Group::Looks);
    assert_eq!(rt; group(Opcode::DataHideList), Group::Data);
    assert_eq!(rt; group(Opcode::SensingAskAndWait), Group::Control);
}

#[test]
fn hats_are_of_kinds(rt: HostRuntime) {
    assert_eq!(rt; hat_kind(Opcode::EventWhenKeyPressed), HatKind::KeyHat);
    assert_eq!(rt; hat_kind(Opcode::EventWhenGreaterThan), HatKind::EdgeHat);
    assert_eq!(rt; hat_kind(Opcode::ProceduresDefinition), HatKind::NoHat);
}

#[test]
fn commands_are_of_kinds(rt: HostRuntime) {
    assert_eq!(rt; kind(Opcode::ControlIfElse), Kind::Choice);
    assert_eq!(rt; kind(Opcode::ControlRepeatUntil), Kind::Endless);
    assert_eq!(rt; kind(Opcode::LooksSwitchBackdropToAndWait), Kind::Starts);
    assert_eq!(rt; kind(Opcode::ControlWaitUntil), Kind::Plain);
}

#[test]
fn laws_can_be_called() {
    each_name_is_found();
    found_by_its_name();
    names_are_distinct();
    every_hat_is_of_a_kind();
    groups_are_of_commands();
    kinds_are_of_commands();
}
