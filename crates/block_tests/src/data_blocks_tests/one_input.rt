//! Blocks of data with one input.

use super::Given::{Of, Text};
use super::{ANN, Given, executed_by_one, has_items, opened};
use opcode_table::Opcode;
use scratch_number::of_millionths;
use scratch_values::to_number;

// Set and change, with the number of the variable behind each. An input of another name is not theirs.
static CHANGES: [(Opcode, &str, Given, i64); 4] = [
    (Opcode::DataSetVariableTo, "VALUE", Text("5"), 5_000_000),
    (
        Opcode::DataChangeVariableBy,
        "VALUE",
        Of(2_500_000),
        7_500_000,
    ),
    (
        Opcode::DataChangeVariableBy,
        "ITEM",
        Of(1_000_000),
        7_500_000,
    ),
    (Opcode::DataSetVariableTo, "ITEM", Text("5"), 0),
];

#[test]
fn one_input_is_enough(rt: HostRuntime) {
    let mut world = opened(&rt);
    for (op, name, given, want) in &CHANGES {
        executed_by_one(&rt, &mut world, *op, (*name, *given)).expect(&rt, "no stop");
        let number = to_number(world.variables.value(ANN, 0));
        assert_eq!(rt; number, of_millionths(*want as i128));
    }
    executed_by_one(
        &rt,
        &mut world,
        Opcode::DataAddToList,
        ("ITEM", Of(3_000_000)),
    )
    .expect(&rt, "no stop");
    has_items(&rt, &world, &[3]);
    drop(world);
}
