//! Stopping, clones, and calls of procedures.

use super::Given::{Of, Text};
use super::{ANN, BEN, STAGE, World, executed, opened, said, word};
use machine_spec::{BlockId, Context, Control, InstanceId};
use opcode_table::Opcode;
use scratch_number::{Num, of_whole};
use scratch_values::{Params, to_number};
use std::process::Abort;

// The options of `stop`; another one stops nothing.
static OPTIONS: [(&str, &str); 6] = [
    ("all", "all"),
    ("this script", "this"),
    ("other scripts in sprite", "others"),
    ("other scripts in stage", "others"),
    ("ALL", "next"),
    ("", "next"),
];

#[test]
fn an_option_tells_what_is_stopped(rt: HostRuntime) {
    let mut world = opened(&rt);
    for (option, want) in &OPTIONS {
        let input = ("OTHER", Text(option));
        let told = said(&rt, &mut world, Opcode::ControlStop, ANN, input);
        assert_eq!(rt; told, *want, "{option}");
    }
    drop(world);
}

// Names of what is cloned, by Ben; the stage is no sprite, and names are exact.
static CLONES: [(&str, &str); 5] = [
    ("_myself_", "clone Ben"),
    ("Ann", "clone Ann"),
    ("Stage", "next"),
    ("ann", "next"),
    ("Eve", "next"),
];

#[test]
fn a_clone_is_made_of_a_sprite_by_name(rt: HostRuntime) {
    let mut world = opened(&rt);
    for (name, want) in &CLONES {
        let input = ("CLONE_OPTION", Text(name));
        let told = said(&rt, &mut world, Opcode::ControlCreateCloneOf, BEN, input);
        assert_eq!(rt; told, *want, "{name}");
    }
    let input = ("OTHER", Of(0));
    let told = said(&rt, &mut world, Opcode::ControlDeleteThisClone, BEN, input);
    assert_eq!(rt; told, "delete");
    drop(world);
}

// The number of the first parameter with a name.
fn parameter(rt: &impl Abort, params: &Params, name: &str) -> Num {
    to_number(params.value(name).expect(rt, "a parameter"))
}

fn called(
    rt: &(impl Abort + AllocGlobal),
    world: &mut World,
    here: InstanceId,
    context: &mut Context,
) -> Control {
    let input = ("i", Of(5_000_000));
    let (control, redraw) = executed(rt, world, Opcode::ProceduresCall, here, input, context);
    assert!(rt; !redraw);
    control
}

#[test]
fn a_call_enters_the_procedure_of_its_target(rt: HostRuntime) {
    let mut world = opened(&rt);
    let mut context = Context::Fresh;
    match called(&rt, &mut world, ANN, &mut context) {
        Control::Call { definition, params } => {
            assert_eq!(rt; definition, BlockId(1));
            assert_eq!(rt; params.get().pairs().len(), 2);
            assert_eq!(rt; parameter(&rt, params.get(), "height"), of_whole(5));
            assert_eq!(rt; parameter(&rt, params.get(), "times"), of_whole(2));
        }
        _ => panic!(rt; "no procedure is entered"),
    }
    assert!(rt; matches!(context, Context::Called));
    let back = called(&rt, &mut world, ANN, &mut context);
    assert_eq!(rt; word(&back), "next");
    assert!(rt; matches!(context, Context::Fresh));
    drop(world);
}

#[test]
fn a_call_of_no_procedure_goes_on(rt: HostRuntime) {
    let mut world = opened(&rt);
    for here in [STAGE, BEN] {
        let mut context = Context::Fresh;
        let control = called(&rt, &mut world, here, &mut context);
        assert_eq!(rt; word(&control), "next");
        assert!(rt; matches!(context, Context::Fresh));
    }
    drop(world);
}
