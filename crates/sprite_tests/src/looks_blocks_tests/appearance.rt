//! Sizes, effects, visibility and layers, and the commands of sound.

use super::Given::{Of, Text};
use super::{
    ANN, BEN, Given, INFINITY, MINUS_INFINITY, NO_FIELD, NO_INPUT, PROJECT, STAGE, World, number,
    opened, run,
};
use machine_spec::{Effect, InstanceId};
use opcode_table::Opcode;
use scratch_number::Num;
use std::process::Abort;

fn size_of(rt: &impl Abort, world: &World, of: InstanceId) -> Num {
    world.targets.get(of).expect(rt, "an instance").size
}

// A size that is set, a change of it, and the size then.
static SIZES: [(i64, i64, i64); 5] = [
    (1_250_000_000, 5_000_000, 1_255_000_000),
    (16_166_000_000, 0, 10_000_000_000),
    (-1_000_000, 0, 0),
    (10_000_000_001, -500_000, 9_999_500_000),
    (5_000_000, MINUS_INFINITY, 0),
];

#[test]
fn a_size_is_kept_in_its_range(rt: HostRuntime) {
    for (at, (size, change, want)) in SIZES.iter().enumerate() {
        let mut world = opened(&rt, PROJECT);
        let set = (NO_FIELD, [("SIZE", Of(*size)), NO_INPUT]);
        let changed = (NO_FIELD, [("CHANGE", Of(*change)), NO_INPUT]);
        assert!(rt;
            run(&rt, &mut world, Opcode::LooksSetSizeTo, ANN, set),
            "row {at}"
        );
        assert!(rt;
            run(&rt, &mut world, Opcode::LooksChangeSizeBy, ANN, changed),
            "row {at}"
        );
        assert!(rt; size_of(&rt, &world, ANN) == number(*want), "row {at}");
        assert!(rt;
            !run(&rt, &mut world, Opcode::LooksSetSizeTo, STAGE, set),
            "row {at}"
        );
        assert!(rt;
            size_of(&rt, &world, STAGE) == number(100_000_000),
            "row {at}"
        );
        drop(world);
    }
}

// The name of an effect, its number, whether it is set then or changed, by which number, and the number then, as two
// programs outside found it.
type EffectRow = (&'static str, Effect, i64, bool, i64, i64);

static EFFECTS: [EffectRow; 10] = [
    (
        "whirl",
        Effect::Whirl,
        -100_000_000,
        false,
        -341_000_000,
        -441_000_000,
    ),
    (
        "Brightness",
        Effect::Brightness,
        10_000_000,
        false,
        611_101,
        10_611_101,
    ),
    (
        "brightness",
        Effect::Brightness,
        -100_000_000,
        false,
        -1_988_672,
        -100_000_000,
    ),
    (
        "PIXELATE",
        Effect::Pixelate,
        100_000_000,
        false,
        INFINITY,
        INFINITY,
    ),
    (
        "ghost",
        Effect::Ghost,
        10_000_000,
        false,
        2_713_264_938,
        100_000_000,
    ),
    ("Ghost", Effect::Ghost, 100_000_000, true, -190_000_000, 0),
    (
        "color",
        Effect::Color,
        100_000_000,
        true,
        1_221_844,
        1_221_844,
    ),
    (
        "mosaic",
        Effect::Mosaic,
        100_000_000,
        false,
        -1_000_000,
        99_000_000,
    ),
    (
        "fisheye",
        Effect::Fisheye,
        -100_000_000,
        true,
        -3_371_689_497,
        -3_371_689_497,
    ),
    (
        "brightness",
        Effect::Brightness,
        0,
        true,
        -1_142_442,
        -1_142_442,
    ),
];

#[test]
fn an_effect_is_named_without_case(rt: HostRuntime) {
    for (at, (name, effect, before, is_set, by, want)) in EFFECTS.iter().enumerate() {
        let mut world = opened(&rt, PROJECT);
        let field = ("EFFECT", *name);
        let first = (field, [("VALUE", Of(*before)), NO_INPUT]);
        assert!(rt;
            run(&rt, &mut world, Opcode::LooksSetEffectTo, ANN, first),
            "row {at}"
        );
        let (op, input) = match is_set {
            true => (Opcode::LooksSetEffectTo, "VALUE"),
            false => (Opcode::LooksChangeEffectBy, "CHANGE"),
        };
        let given = (field, [(input, Of(*by)), NO_INPUT]);
        assert!(rt; run(&rt, &mut world, op, ANN, given), "row {at}");
        let own = world.targets.get(ANN).expect(&rt, "a sprite");
        assert!(rt; own.effects.get(*effect) == number(*want), "row {at}");
        drop(world);
    }
}

#[test]
fn an_effect_of_another_name_is_none(rt: HostRuntime) {
    let mut world = opened(&rt, PROJECT);
    let faded = (("EFFECT", "ghost"), [("VALUE", Of(5_000_000)), NO_INPUT]);
    assert!(rt; run(&rt, &mut world, Opcode::LooksSetEffectTo, STAGE, faded));
    let other = (("EFFECT", "ghosts"), [("VALUE", Of(7_000_000)), NO_INPUT]);
    assert!(rt; !run(&rt, &mut world, Opcode::LooksSetEffectTo, STAGE, other));
    let stage = world.targets.get(STAGE).expect(&rt, "the stage");
    assert!(rt; stage.effects.get(Effect::Ghost) == number(5_000_000));
    let none = (NO_FIELD, [NO_INPUT, NO_INPUT]);
    assert!(rt;
        run(
            &rt,
            &mut world,
            Opcode::LooksClearGraphicEffects,
            STAGE,
            none
        )
    );
    let stage = world.targets.get(STAGE).expect(&rt, "the stage");
    assert!(rt; stage.effects.get(Effect::Ghost) == number(0));
    drop(world);
}

#[test]
fn a_sprite_is_shown_and_hidden(rt: HostRuntime) {
    let mut world = opened(&rt, PROJECT);
    let none = (NO_FIELD, [NO_INPUT, NO_INPUT]);
    for (op, visible) in [(Opcode::LooksShow, true), (Opcode::LooksHide, false)] {
        assert!(rt; run(&rt, &mut world, op, BEN, none));
        assert_eq!(rt;
            world.targets.get(BEN).expect(&rt, "a sprite").visible,
            visible
        );
        assert!(rt; !run(&rt, &mut world, op, STAGE, none));
    }
    drop(world);
}

// The sprites in the order of their layers, once a block is executed.
fn layered(
    rt: &(impl Abort + AllocGlobal),
    op: Opcode,
    here: InstanceId,
    given: ((&str, &str), Given),
) -> [u64; 3] {
    let mut world = opened(rt, PROJECT);
    let redraw = run(
        rt,
        &mut world,
        op,
        here,
        (given.0, [("NUM", given.1), NO_INPUT]),
    );
    assert!(rt; redraw == (here != STAGE));
    let order = world.targets.order();
    let place = |at: usize| order.get(at).expect(rt, "a sprite").0;
    let places = [place(1), place(2), place(3)];
    drop(world);
    places
}

// The number of an instance, the way and how far, and the order then: the sprites 1, 2 and 3 stand in these layers, and 0 is
// the stage.
static LAYERS: [(u64, &str, Given, [u64; 3]); 10] = [
    (1, "forward", Of(1_000_000), [2, 1, 3]),
    (1, "forward", Of(1_999_999), [2, 1, 3]),
    (1, "backward", Of(-1_193_962), [2, 1, 3]),
    (1, "forward", Of(7_000_000), [2, 3, 1]),
    (1, "backward", Of(-84_538), [1, 2, 3]),
    (3, "backward", Of(1_319_470), [1, 3, 2]),
    (3, "Forward", Of(2_000_000), [3, 1, 2]),
    (1, "backward", Of(MINUS_INFINITY), [2, 3, 1]),
    (3, "forward", Of(MINUS_INFINITY), [3, 1, 2]),
    (0, "forward", Of(1_000_000), [1, 2, 3]),
];

#[test]
fn a_sprite_goes_through_the_layers(rt: HostRuntime) {
    for (at, (here, way, steps, want)) in LAYERS.iter().enumerate() {
        let field = ("FORWARD_BACKWARD", *way);
        let op = Opcode::LooksGoForwardBackwardLayers;
        assert!(rt;
            layered(&rt, op, InstanceId(*here), (field, *steps)) == *want,
            "row {at}"
        );
    }
}

#[test]
fn a_sprite_goes_to_the_front_or_the_back(rt: HostRuntime) {
    let op = Opcode::LooksGoToFrontBack;
    assert!(rt; layered(&rt, op, BEN, (("FRONT_BACK", "front"), Of(0))) == [1, 3, 2]);
    assert!(rt; layered(&rt, op, BEN, (("FRONT_BACK", "back"), Of(0))) == [2, 1, 3]);
    assert!(rt; layered(&rt, op, BEN, (("FRONT_BACK", "Front"), Of(0))) == [2, 1, 3]);
}

#[test]
fn commands_of_sound_do_nothing(rt: HostRuntime) {
    let mut world = opened(&rt, PROJECT);
    let given = (
        ("EFFECT", "PITCH"),
        [("SOUND_MENU", Text("pop")), ("VOLUME", Of(0))],
    );
    for op in [
        Opcode::SoundPlayUntilDone,
        Opcode::SoundSetVolumeTo,
        Opcode::SoundClearEffects,
    ] {
        assert!(rt; !run(&rt, &mut world, op, ANN, given));
    }
    drop(world);
}
