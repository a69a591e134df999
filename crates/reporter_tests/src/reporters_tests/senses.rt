//! Sprites, the stage and the devices.

use super::Given::{Inf, Nan, NegInf, Of, Text, Truth};
use super::{
    ANN, BEN, Given, NO_FIELD, NO_INPUT, World, gives, gives_in, hold, number, of_one, opened,
};
use machine_spec::InstanceId;
use opcode_table::Opcode;
use std::process::Abort;

// Where one sprite stands, where another does, and how far they are apart.
type Distance = (Given, Given, Given, Given, Given);

// Distances of two sprites.
static DISTANCES: [Distance; 36] = [
    (
        Of(58000000),
        Of(-207000000),
        Of(-162000000),
        Of(-3845461234),
        Of(3645106329),
    ),
    (
        Of(0),
        Of(27754165),
        Of(62818692),
        Of(-46000000),
        Of(96880673),
    ),
    (Of(65837978), Of(148000000), Of(10000000), Inf, Inf),
    (
        Of(2000000),
        Of(59000000),
        Of(-3188512196),
        Of(-125809181),
        Of(3195860213),
    ),
    (Of(-156781430), NegInf, Of(6717241), Of(69000000), Inf),
    (
        Of(-1666027880),
        Of(-7167496),
        Of(-1666027880),
        Of(-7167496),
        Of(0),
    ),
    (
        Of(-93000000),
        Of(2000000),
        Of(-189000000),
        Of(-6040449937113329736),
        Inf,
    ),
    (
        Of(-155000000),
        Of(301000000),
        Of(185890598),
        Of(313000000),
        Of(341101744),
    ),
    (Of(12000000), Of(1695093), NegInf, Of(177000000), Inf),
    (
        Of(-37429179),
        Of(145000000),
        Of(127087932),
        Of(-49000000),
        Of(254365641),
    ),
    (
        Of(138228643),
        Of(-112000000),
        Of(-6469650970779128145),
        Of(-79000000),
        Inf,
    ),
    (
        Of(181063402),
        Of(-220000000),
        Of(4000000),
        Of(-6836011804780111520),
        Inf,
    ),
    (
        Of(194837665),
        Of(169000000),
        Of(-231341525),
        Of(-222000000),
        Of(578368137),
    ),
    (
        Of(-71505294),
        Of(-183012776),
        Of(218102995),
        Of(204146002),
        Of(483492378),
    ),
    (
        Of(69000000),
        Of(231000000),
        Of(-142020849),
        Of(-249298438),
        Of(524610701),
    ),
    (
        Of(-268350318),
        Of(8999999999999999999),
        Of(33775366),
        Of(0),
        Inf,
    ),
    (Of(0), Of(129693161), Of(0), Of(129693161), Of(0)),
    (Of(212000000), Of(-91000000), NegInf, Of(68639145), Inf),
    (
        Of(177000000),
        Of(150000000),
        Of(150762442),
        Of(186323131),
        Of(44808250),
    ),
    (NegInf, Of(-105000000), Of(1000000), Of(51000000), Inf),
    (
        Of(1000000),
        Of(-31000000),
        Of(-74000000),
        Of(153000000),
        Of(198698263),
    ),
    (NegInf, NegInf, Of(30611705), Of(-43000000), Inf),
    (
        Of(218000000),
        Of(249762368),
        Of(60000000),
        Of(-131443225),
        Of(412652037),
    ),
    (
        Of(-8067466927862629886),
        Of(-185639124),
        Of(-127000000),
        Of(40558447),
        Inf,
    ),
    (
        Of(227000000),
        Of(-2047884492765295215),
        Of(-157932591),
        Of(-202000000),
        Inf,
    ),
    (Of(219000000), Of(-1), Of(219000000), Of(-1), Of(0)),
    (Of(-89000000), NegInf, Of(121000000), Of(-187000000), Inf),
    (Of(-39773467), Of(36000000), NegInf, Of(-15000000), Inf),
    (
        Of(-129856148),
        Of(2111357002419912860),
        Of(4000000),
        Of(-55000000),
        Inf,
    ),
    (Of(178465003), Of(206197998), Of(-170000000), NegInf, Inf),
    (
        Of(-1058694),
        Of(-1),
        Of(85000000),
        Of(-51128737),
        Of(100101181),
    ),
    (
        Of(-38000000),
        Of(1000000),
        Of(-227000000),
        Of(-2718719094038713393),
        Inf,
    ),
    (Of(-66641413), Inf, Of(-66641413), Inf, Nan),
    (
        Of(-128000000),
        Of(500000),
        Of(220057654),
        Of(-17116173),
        Of(348503170),
    ),
    (
        Of(0),
        Of(4000000),
        Of(-173000000),
        Of(239000000),
        Of(291811583),
    ),
    (
        Of(40000000),
        Of(-78000000),
        Of(-38000000),
        Of(263229528),
        Of(350030842),
    ),
];

// A property, the object that is asked for it, and what is told.
static PROPERTIES: [(&'static str, &'static str, Given); 36] = [
    ("x position", "Ann", Of(10500000)),
    ("y position", "Ann", Of(-20000000)),
    ("direction", "Ann", Of(45000000)),
    ("size", "Ann", Of(33400000)),
    ("volume", "Ann", Of(55000000)),
    ("costume #", "Ann", Of(3000000)),
    ("costume name", "Ann", Text("c3")),
    ("n", "Ann", Of(7000000)),
    ("word", "Ann", Text("a b")),
    ("x position", "Ben", Of(40000000)),
    ("y position", "Ben", Of(20000000)),
    ("direction", "Ben", Of(90000000)),
    ("size", "Ben", Of(100000000)),
    ("costume #", "Ben", Of(1000000)),
    ("costume name", "Ben", Text("b")),
    ("volume", "Ben", Of(100000000)),
    ("n", "Ben", Of(0)),
    ("z", "_stage_", Of(5000000)),
    ("score", "_stage_", Text("a")),
    ("volume", "_stage_", Of(70000000)),
    ("backdrop #", "_stage_", Of(2000000)),
    ("background #", "_stage_", Of(2000000)),
    ("backdrop name", "_stage_", Text("b2")),
    ("x position", "_stage_", Of(0)),
    ("costume #", "_stage_", Of(0)),
    ("size", "_stage_", Of(0)),
    ("z", "Ann", Of(0)),
    ("backdrop #", "Ann", Of(0)),
    ("backdrop name", "Ann", Of(0)),
    ("N", "Ann", Of(0)),
    ("", "Ann", Of(0)),
    ("volume", "Stage", Of(0)),
    ("z", "Stage", Of(0)),
    ("x position", "ann", Of(0)),
    ("x position", "", Of(0)),
    ("x position", "Cat", Of(0)),
];

// What is told without an input, of Ann.
static TOLD: [(Opcode, Given); 9] = [
    (Opcode::MotionXPosition, Of(10500000)),
    (Opcode::MotionYPosition, Of(-20000000)),
    (Opcode::MotionDirection, Of(45000000)),
    (Opcode::LooksSize, Of(33000000)),
    (Opcode::SoundVolume, Of(55000000)),
    (Opcode::SensingTimer, Of(2500000)),
    (Opcode::SensingMouseX, Of(-7000000)),
    (Opcode::SensingMouseY, Of(9000000)),
    (Opcode::SensingMouseDown, Truth(true)),
];

fn place(rt: &impl Abort, world: &mut World, of: InstanceId, x: Given, y: Given) {
    assert!(rt; world.targets.is_live(of));
    world.targets.set_xy(of, number(x), number(y));
}

// The distance of Ann at a place to somebody, where Ben is at another.
fn is_distance(
    rt: &(impl Abort + AllocGlobal),
    at: (Given, Given),
    other: (Given, Given),
    to: &'static str,
    wanted: Given,
) -> bool {
    let mut world = opened(rt);
    place(rt, &mut world, ANN, at.0, at.1);
    place(rt, &mut world, BEN, other.0, other.1);
    let input = ("DISTANCETOMENU", Text(to));
    let asked = of_one(Opcode::SensingDistanceTo, NO_FIELD, input);
    let is_given = gives_in(rt, &world, asked, wanted);
    drop(world);
    is_given
}

#[test]
fn distances_are_told(rt: HostRuntime) {
    for (at, (x, y, other_x, other_y, wanted)) in DISTANCES.iter().enumerate() {
        let other = (*other_x, *other_y);
        let told = is_distance(&rt, (*x, *y), other, "Ben", *wanted);
        hold(&rt, told, at);
    }
}

#[test]
fn the_mouse_is_at_a_distance(rt: HostRuntime) {
    let (at, other) = ((Of(-10_000_000), Of(5_000_000)), (Of(0), Of(0)));
    let mouse = is_distance(&rt, at, other, "_mouse_", Of(5_000_000));
    hold(&rt, mouse, 0);
    let nobody = is_distance(&rt, at, other, "Stage", Of(10_000_000_000));
    hold(&rt, nobody, 1);
}

#[test]
fn properties_are_told(rt: HostRuntime) {
    for (at, (property, object, wanted)) in PROPERTIES.iter().enumerate() {
        let field = ("PROPERTY", *property, None);
        let asked = of_one(Opcode::SensingOf, field, ("OBJECT", Text(object)));
        hold(&rt, gives(&rt, asked, *wanted), at);
    }
}

#[test]
fn instances_and_devices_are_told(rt: HostRuntime) {
    for (at, (op, wanted)) in TOLD.iter().enumerate() {
        let asked = of_one(*op, NO_FIELD, NO_INPUT);
        hold(&rt, gives(&rt, asked, *wanted), at);
    }
}
