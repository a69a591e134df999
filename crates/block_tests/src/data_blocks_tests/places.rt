//! The place that an input names, as two programs outside found it.

use super::Given::{Of, Text, Truth};
use super::{ANN, Given, World, has_items, opened, run};
use opcode_table::Opcode;
use scratch_number::of_whole;
use scratch_values::Index::{self, All, At, Invalid};
use scratch_values::{Value, VarRef};
use script_words::pcg;
use std::alloc::{AllocError, Global};
use std::process::Abort;

const OWN: VarRef = VarRef::Own(0);

// A value, the length of a list, a seed and how many of its words were drawn before, the place that the value names, and how
// many words were drawn then: where `all` may be named, and where not.
type Row = (Given, u32, u64, u64, Index, u64);

static WITH_ALL: [Row; 32] = [
    (Truth(true), 2, 0, 0, At(1), 0),
    (Truth(true), 10, 42, 0, At(1), 0),
    (Of(1_000_000), 1, 42, 7, At(1), 7),
    (Text("random"), 0, 612_055_352_358_010_610, 1, Invalid, 1),
    (Text("any"), 10, 2, 1000, At(7), 1001),
    (Text("1e0"), 2, 1_845_078_843_633_187_194, 0, At(1), 0),
    (Text("last"), 2, 1, 0, At(2), 0),
    (Of(7_000_000), 10, 0, 0, At(7), 0),
    (Of(4_000_000), 10, 14_849_814_379_008_535_105, 0, At(4), 0),
    (Of(3_000_000), 10, 740_627_014_866_233_779, 0, At(3), 0),
    (Text("all"), 3, 0, 0, All, 0),
    (Text("1"), 2, 0, 1, At(1), 1),
    (Text("1e0"), 2, 2, 7, At(1), 7),
    (Text("1"), 3, 0, 0, At(1), 0),
    (Of(1_000_000), 1, 42, 0, At(1), 0),
    (Text("any"), 0, 0, 0, Invalid, 0),
    (Text("1e0"), 10, 1, 7, At(1), 7),
    (Truth(true), 2, 42, 1000, At(1), 1000),
    (Text("1e0"), 2, 1, 0, At(1), 0),
    (Text("all"), 3, 2, 7, All, 7),
    (Text("random"), 2, 1, 0, At(1), 1),
    (Text("2.999999"), 3, 2, 0, At(2), 0),
    (Truth(false), 0, 1, 0, Invalid, 0),
    (Of(0), 1, 42, 1, Invalid, 1),
    (Of(-1_126_383), 2, 42, 0, Invalid, 0),
    (Of(10_885_423), 3, 8_539_868_925_971_459_832, 0, Invalid, 0),
    (Of(4_372_425), 3, 11_839_141_123_640_147_108, 0, Invalid, 0),
    (Of(7_339_815), 3, 2, 1, Invalid, 1),
    (Of(6_000_000), 1, 772_905_819_596_739_847, 7, Invalid, 7),
    (Of(3_535_063), 2, 2, 7, Invalid, 7),
    (Text("Infinity"), 0, 2, 1, Invalid, 1),
    (Truth(true), 0, 2, 1, Invalid, 1),
];

static WITHOUT_ALL: [Row; 26] = [
    (Of(2_860_942), 3, 4_841_961_452_785_366_655, 0, At(2), 0),
    (Text("all"), 0, 1, 1000, Invalid, 1000),
    (Text("1"), 3, 1_928_200_221_283_299_795, 7, At(1), 7),
    (Text("all"), 3, 2, 0, Invalid, 0),
    (
        Text("all"),
        3,
        11_149_062_467_770_722_160,
        1000,
        Invalid,
        1000,
    ),
    (Text("1"), 2, 42, 0, At(1), 0),
    (
        Text("all"),
        3,
        17_122_740_586_443_045_840,
        1000,
        Invalid,
        1000,
    ),
    (Truth(true), 3, 2, 0, At(1), 0),
    (Text("random"), 2, 42, 0, At(2), 1),
    (Of(1_407_237), 1, 11_104_171_418_101_684_274, 7, At(1), 7),
    (Of(1_000_000), 3, 42, 1000, At(1), 1000),
    (Text("1"), 1, 17_505_290_920_152_394_461, 0, At(1), 0),
    (Of(3_383_005), 10, 0, 0, At(3), 0),
    (Text("any"), 10, 964_068_889_434_554_793, 0, At(7), 1),
    (Of(5_000_000), 3, 16_932_550_538_403_524_664, 1, Invalid, 1),
    (Of(8_000_000), 2, 2, 0, Invalid, 0),
    (
        Of(-9_000_000_000_000_000_000),
        0,
        11_843_820_382_128_674_449,
        0,
        Invalid,
        0,
    ),
    (Text("-Infinity"), 2, 0, 1, Invalid, 1),
    (
        Of(-837_802),
        1,
        15_491_094_336_415_060_167,
        1000,
        Invalid,
        1000,
    ),
    (Of(11_577_515), 2, 1, 1000, Invalid, 1000),
    (Of(950_965), 3, 42, 7, Invalid, 7),
    (Text("0"), 0, 3_816_608_591_971_431_581, 1, Invalid, 1),
    (Text("abc"), 0, 0, 0, Invalid, 0),
    (Of(-4_257_388_914), 3, 0, 7, Invalid, 7),
    (Text("1e0"), 0, 2, 0, Invalid, 0),
    (Of(10_000_000), 2, 3_736_768_023_539_980_607, 1, Invalid, 1),
];

// The numbers from 1 on, so many of them, in the list of a sprite.
fn counted(rt: &(impl Abort + AllocGlobal), length: u32) -> World {
    let mut world = opened(rt);
    for number in 1..=length {
        let item = Value::Number(of_whole(i64::from(number)));
        let pushed = world.variables.push(ANN, 0, item);
        pushed.expect(rt, "memory");
    }
    world
}

// The numbers without the one at a place, or without any.
fn deleted(alloc: Global, length: u32, index: Index) -> Result<Vec<i64>, AllocError> {
    let mut left = Vec::new(alloc);
    for number in 1..=length {
        if index != All && index != At(number) {
            left.push(i64::from(number))?;
        }
    }
    Ok(left)
}

// The numbers with a 0 in place of the one at a place.
fn replaced(alloc: Global, length: u32, index: Index) -> Result<Vec<i64>, AllocError> {
    let mut numbers = Vec::new(alloc);
    for number in 1..=length {
        let put = index == At(number);
        numbers.push(if put { 0 } else { i64::from(number) })?;
    }
    Ok(numbers)
}

// One number less than the length, with a 0 inserted at a place.
fn inserted(alloc: Global, length: u32, index: Index) -> Result<Vec<i64>, AllocError> {
    let mut numbers = Vec::new(alloc);
    for number in 1..=length {
        if index == At(number) {
            numbers.push(0)?;
        }
        if number < length {
            numbers.push(i64::from(number))?;
        }
    }
    Ok(numbers)
}

// The list of so many numbers after a block that names a place of it.
fn is_changed_to(
    rt: &(impl Abort + AllocGlobal),
    op: Opcode,
    length: u32,
    (given, _, seed, before, _, after): &Row,
    want: &[i64],
) {
    let mut world = counted(rt, length);
    assert!(rt; *before < 1 << 62);
    let mut words = pcg(*seed, *before);
    run(rt, &mut world, &mut words, op, (ANN, OWN), (*given, Of(0)));
    has_items(rt, &world, want);
    assert_eq!(rt; words.drawn(), *after, "{op:?} {given:?} {length}");
}

#[test]
fn an_item_is_deleted(rt: HostRuntime) {
    for row in &WITH_ALL {
        let want = deleted(rt.alloc(), row.1, row.4).expect(&rt, "memory");
        is_changed_to(&rt, Opcode::DataDeleteOfList, row.1, row, want.as_slice());
    }
}

#[test]
fn an_item_is_replaced(rt: HostRuntime) {
    for row in &WITHOUT_ALL {
        let want = replaced(rt.alloc(), row.1, row.4).expect(&rt, "memory");
        is_changed_to(
            &rt,
            Opcode::DataReplaceItemOfList,
            row.1,
            row,
            want.as_slice(),
        );
    }
}

#[test]
fn an_item_is_inserted(rt: HostRuntime) {
    for row in &WITHOUT_ALL {
        if row.1 > 0 {
            let want = inserted(rt.alloc(), row.1, row.4).expect(&rt, "memory");
            is_changed_to(
                &rt,
                Opcode::DataInsertAtList,
                row.1 - 1,
                row,
                want.as_slice(),
            );
        }
    }
}
