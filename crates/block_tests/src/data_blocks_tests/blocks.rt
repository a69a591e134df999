//! Every block of data once.

use super::Given::{Of, Text, Truth};
use super::{ANN, BEN, Given, STAGE, World, executed, has_items, opened, run};
use machine_spec::{Made, Shown, TargetId};
use opcode_table::Opcode;
use scratch_number::{of_millionths, of_whole};
use scratch_values::{Value, VarRef, to_number, to_text};
use script_words::{CounterKind, Stop, pcg};
use std::process::Abort;

const N: VarRef = VarRef::Stage(0);

const OWN: VarRef = VarRef::Own(0);

// Set and change, with the number of the variable behind each.
static CHANGES: [(Opcode, Given, i64); 8] = [
    (Opcode::DataSetVariableTo, Text("cat"), 0),
    (Opcode::DataChangeVariableBy, Of(2_000_000), 2_000_000),
    (Opcode::DataSetVariableTo, Text(" 010 "), 10_000_000),
    (Opcode::DataChangeVariableBy, Text("1e0"), 11_000_000),
    (Opcode::DataChangeVariableBy, Truth(true), 12_000_000),
    (Opcode::DataChangeVariableBy, Text("dog"), 12_000_000),
    (Opcode::DataSetVariableTo, Truth(true), 1_000_000),
    (Opcode::DataChangeVariableBy, Of(-1_500_000), -500_000),
];

#[test]
fn a_variable_is_set_and_changed(rt: HostRuntime) {
    let mut world = opened(&rt);
    let mut words = pcg(0, 0);
    for (op, given, want) in &CHANGES {
        run(&rt, &mut world, &mut words, *op, (ANN, N), (Of(0), *given));
        let number = to_number(world.variables.value(STAGE, 0));
        assert_eq!(rt; number, of_millionths(*want as i128), "{op:?} {given:?}");
    }
    run(
        &rt,
        &mut world,
        &mut words,
        Opcode::DataSetVariableTo,
        (ANN, OWN),
        (Of(0), Of(7_000_000)),
    );
    assert_eq!(rt; to_number(world.variables.value(ANN, 0)), of_whole(7));
    assert_eq!(rt;
        to_number(world.variables.value(STAGE, 0)),
        of_millionths(-500_000)
    );
    drop(world);
}

// Two sprites each add their own name.
#[test]
fn names_are_added_in_order(rt: HostRuntime) {
    let mut world = opened(&rt);
    let mut words = pcg(0, 0);
    for (sprite, name) in [(BEN, "Ben"), (ANN, "Ann")] {
        let inputs = (Of(0), Text(name));
        run(
            &rt,
            &mut world,
            &mut words,
            Opcode::DataAddToList,
            (sprite, N),
            inputs,
        );
    }
    let items = world.variables.items(STAGE, 0);
    assert_eq!(rt; items.len(), 2);
    for (item, name) in items.iter().zip(["Ben", "Ann"]) {
        assert_eq!(rt;
            to_text(rt.alloc(), item).expect(&rt, "memory").as_str(),
            name
        );
    }
    drop(world);
}

// Shows and hides, with whether the monitor of the file is visible and what was added behind each.
#[test]
fn monitors_are_shown_hidden_and_added(rt: HostRuntime) {
    let mut world = opened(&rt);
    let mut words = pcg(0, 0);
    let rows = [
        (Opcode::DataHideVariable, N, false, 0),
        (Opcode::DataHideList, N, false, 0),
        (Opcode::DataShowList, N, false, 1),
        (Opcode::DataShowVariable, OWN, false, 2),
        (Opcode::DataShowVariable, N, true, 2),
        (Opcode::DataHideList, N, true, 2),
    ];
    for (op, what, visible, made) in rows {
        run(&rt, &mut world, &mut words, op, (ANN, what), (Of(0), Of(0)));
        assert_eq!(rt;
            world.variables.file_monitors().get(0).copied(),
            Some(visible)
        );
        assert_eq!(rt; world.variables.made().len(), made);
    }
    let made = [
        Made {
            what: Shown::List(TargetId(0), 0),
            visible: false,
        },
        Made {
            what: Shown::Variable(TargetId(1), 0),
            visible: true,
        },
    ];
    assert_eq!(rt; world.variables.made().as_slice(), made.as_slice());
    drop(world);
}

// The blocks of lists, with the items behind each.
static EDITS: [(Opcode, Given, i64, &[i64]); 10] = [
    (Opcode::DataAddToList, Of(0), 1, &[1]),
    (Opcode::DataAddToList, Of(0), 2, &[1, 2]),
    (Opcode::DataInsertAtList, Text("last"), 3, &[1, 2, 3]),
    (Opcode::DataInsertAtList, Of(4_000_000), 4, &[1, 2, 3, 4]),
    (Opcode::DataInsertAtList, Of(6_000_000), 5, &[1, 2, 3, 4]),
    (Opcode::DataInsertAtList, Of(1_900_000), 6, &[6, 1, 2, 3, 4]),
    (
        Opcode::DataReplaceItemOfList,
        Text("last"),
        7,
        &[6, 1, 2, 3, 7],
    ),
    (
        Opcode::DataReplaceItemOfList,
        Of(6_000_000),
        8,
        &[6, 1, 2, 3, 7],
    ),
    (Opcode::DataDeleteOfList, Of(2_000_000), 0, &[6, 2, 3, 7]),
    (Opcode::DataDeleteOfList, Of(0), 0, &[6, 2, 3, 7]),
];

#[test]
fn a_list_takes_and_loses_items(rt: HostRuntime) {
    let mut world = opened(&rt);
    let mut words = pcg(0, 0);
    for (op, index, item, want) in &EDITS {
        let item = Of(*item * 1_000_000);
        run(&rt, &mut world, &mut words, *op, (ANN, OWN), (*index, item));
        has_items(&rt, &world, want);
    }
    for op in [Opcode::DataDeleteAllOfList, Opcode::DataAddToList] {
        run(
            &rt,
            &mut world,
            &mut words,
            op,
            (ANN, OWN),
            (Of(0), Of(1_000_000)),
        );
    }
    has_items(&rt, &world, &[1]);
    let all = (Text("all"), Of(0));
    run(
        &rt,
        &mut world,
        &mut words,
        Opcode::DataDeleteOfList,
        (ANN, OWN),
        all,
    );
    has_items(&rt, &world, &[]);
    drop(world);
}

fn filled(rt: &(impl Abort + AllocGlobal), world: &mut World) {
    for _ in 0..200_000 {
        let pushed = world.variables.push(ANN, 0, Value::Truth(false));
        pushed.expect(rt, "memory");
    }
}

// At 200,000 items nothing is added, and an insertion drops the last.
#[test]
fn a_full_list_grows_no_more(rt: HostRuntime) {
    let mut world = opened(&rt);
    let mut words = pcg(0, 0);
    filled(&rt, &mut world);
    let rows = [
        (Opcode::DataAddToList, Of(0), 0),
        (Opcode::DataInsertAtList, Text("last"), 0),
        (Opcode::DataInsertAtList, Of(1_000_000), 1),
        (Opcode::DataInsertAtList, Of(200_000_000_000), 2),
    ];
    for (op, index, truths) in rows {
        run(
            &rt,
            &mut world,
            &mut words,
            op,
            (ANN, OWN),
            (index, Truth(true)),
        );
        let items = world.variables.items(ANN, 0);
        assert_eq!(rt; items.len(), 200_000);
        let counted = items.iter().filter(|item| **item == Value::Truth(true));
        assert_eq!(rt; counted.count(), truths);
    }
    drop(world);
}

#[test]
fn what_is_not_held_stays_so(rt: HostRuntime) {
    let mut world = opened(&rt);
    let mut words = pcg(0, 0);
    for op in [
        Opcode::DataSetVariableTo,
        Opcode::DataChangeVariableBy,
        Opcode::DataAddToList,
        Opcode::DataInsertAtList,
        Opcode::DataReplaceItemOfList,
        Opcode::DataDeleteOfList,
        Opcode::DataDeleteAllOfList,
        Opcode::MotionMoveSteps,
    ] {
        let inputs = (Of(1_000_000), Of(1_000_000));
        run(&rt, &mut world, &mut words, op, (BEN, OWN), inputs);
        assert!(rt; !world.variables.has_value(BEN, 0));
        assert!(rt; !world.variables.has_items(BEN, 0));
        assert_eq!(rt; to_number(world.variables.value(ANN, 0)), of_whole(0));
        has_items(&rt, &world, &[]);
    }
    drop(world);
}

#[test]
fn no_word_is_left(rt: HostRuntime) {
    let mut world = opened(&rt);
    let mut words = pcg(0, (1 << 62) - 1);
    let random = (Text("random"), Of(0));
    let block = (ANN, OWN);
    run(
        &rt,
        &mut world,
        &mut words,
        Opcode::DataDeleteOfList,
        block,
        random,
    );
    run(
        &rt,
        &mut world,
        &mut words,
        Opcode::DataAddToList,
        block,
        random,
    );
    let full = Stop::Counter {
        which: CounterKind::Words,
    };
    for op in [
        Opcode::DataDeleteOfList,
        Opcode::DataInsertAtList,
        Opcode::DataReplaceItemOfList,
    ] {
        let row = executed(&rt, &mut world, &mut words, op, block, random);
        assert!(rt; matches!(row, Err(stop) if stop == full));
        has_items(&rt, &world, &[0]);
    }
    drop(world);
}
