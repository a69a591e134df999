//! Sprites, clones, effects, bubbles and questions.

use super::{World, bound, has, opened, text_value, told};
use devices::Question;
use machine_spec::{BubbleText, Effect, InstanceId, Say, Serial};
use scratch_number::of_whole;
use std::process::Abort;

// A stage, a sprite that does not turn, and one with clones.
static PROJECT: &str =
    r#"{"targets":[{"isStage":false,"name":"Cat","currentCostume":5,"costumes":[{"name":"c1"},{"name":"c2"},{"name":"next costume"},{"name":"1.5"}],"layerOrder":0,"x":-33.3333333,"y":10.0,"size":20000,"direction":-90,"rotationStyle":"don't rotate"},{"isStage":true,"name":"Stage","variables":{"v":["n",0]},"lists":{"k":["l",["B","Stage","r","s","t"]]},"costumes":[{"name":"b1"}]},{"isStage":false,"name":"Dog","costumes":[{"name":""},{"name":"0"}],"layerOrder":2,"x":9000000000000.0,"y":10.0,"size":33.3333335,"direction":45.5,"rotationStyle":"x"}],"monitors":[{"id":"v","opcode":"data_variable","spriteName":null,"visible":true},{"id":"k","opcode":"data_listcontents","spriteName":null,"visible":true},{"id":"v","opcode":"data_variable","visible":true}]}"#;

static PLAYED: &str = "frame 1 clock 0 words 0
stage 1 \"b1\"
sprite 1 \"Cat\" original shown -33.333333 10 -90 10000 2 \"c2\" \"don't rotate\"
sprite 2 \"Dog\" clone shown 9000000000000 10 45.5 33.333334 1 \"\" \"all around\"
effect brightness 100
say \"qc\"
sprite 3 \"Dog\" original shown 9000000000000 10 45.5 33.333334 1 \"\" \"all around\"
ask \"\"
monitor \"n\" \"01234567890123456789\"
list \"l\" 5
item \"B\"
item \"Stage\"
item \"r\"
item \"s\"
item \"t\"
monitor \"n\" \"01234567890123456789\"
end
";

static HIDDEN: &str = "
sprite 1 \"Cat\" original hidden -33.333333 10 -90 10000 2 \"c2\" \"don't rotate\"
effect color 3
effect ghost 7
sprite 2 ";

static ASKED: &str = "
ask \"a\\\\b\\\"c\\nd\\re\"
";

const CAT: InstanceId = InstanceId(0);

const DOG: InstanceId = InstanceId(2);

const CLONE: InstanceId = InstanceId(3);

fn ask(rt: &(impl Abort + AllocGlobal), world: &mut World, words: &str, bubble: bool) {
    let question = Question {
        of: DOG,
        thread: Serial(1),
        text: bound(rt, words),
        bubble,
    };
    world.devices.ask(question).expect(rt, "memory");
}

// A clone of the dog stands behind it.
fn clone_dog(rt: &(impl Abort + AllocGlobal), world: &mut World) {
    assert!(rt; world.targets.is_live(DOG));
    world.targets.add_clone(DOG, CLONE).expect(rt, "memory");
    assert!(rt; world.targets.is_live(CLONE));
    world.targets.place_behind(CLONE, DOG);
}

fn say(rt: &(impl Abort + AllocGlobal), world: &mut World, of: InstanceId, words: &str) {
    let text = BubbleText::cut(rt.alloc(), words).expect(rt, "memory");
    world.targets.set_bubble(of, Say::Say, text, 1);
}

#[test]
fn a_clone_speaks_and_asks(rt: HostRuntime) {
    let mut world = opened(&rt, PROJECT);
    clone_dog(&rt, &mut world);
    world
        .targets
        .set_effect(CLONE, Effect::Brightness, of_whole(100));
    say(&rt, &mut world, CLONE, "qc");
    ask(&rt, &mut world, "qc", true);
    let value = text_value(&rt, "01234567890123456789");
    world.variables.set(InstanceId(1), 0, value);
    assert_eq!(rt; told(&rt, &world).as_slice(), PLAYED.as_bytes());
    drop(world);
}

#[test]
fn a_hidden_sprite_has_effects_and_no_bubble(rt: HostRuntime) {
    let mut world = opened(&rt, PROJECT);
    world.targets.set_visible(CAT, false);
    world.targets.set_effect(CAT, Effect::Ghost, of_whole(7));
    world.targets.set_effect(CAT, Effect::Color, of_whole(3));
    say(&rt, &mut world, CAT, "qc");
    let text = told(&rt, &world);
    assert!(rt; has(text.as_slice(), HIDDEN.as_bytes()));
    drop(world);
}

#[test]
fn the_first_question_is_told(rt: HostRuntime) {
    let mut world = opened(&rt, PROJECT);
    ask(&rt, &mut world, "a\\b\"c\nd\re", false);
    ask(&rt, &mut world, "later", false);
    let text = told(&rt, &world);
    assert!(rt; has(text.as_slice(), ASKED.as_bytes()));
    drop(world);
}
