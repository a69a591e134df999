//! Each public function once: effects are seven numbers apart, and a new bubble has no text.

use machine_spec::{BubbleText, Effect, Effects};
use scratch_number::of_whole;

static EFFECTS: [Effect; 7] = [
    Effect::Color,
    Effect::Fisheye,
    Effect::Whirl,
    Effect::Pixelate,
    Effect::Mosaic,
    Effect::Brightness,
    Effect::Ghost,
];

#[test]
fn every_effect_begins_with_0(rt: HostRuntime) {
    let effects = Effects::none();
    for effect in EFFECTS {
        assert_eq!(rt; effects.get(effect), of_whole(0));
    }
}

#[test]
fn an_effect_is_set_and_the_others_stay(rt: HostRuntime) {
    let mut effects = Effects::none();
    effects.set(Effect::Whirl, of_whole(90));
    effects.set(Effect::Ghost, of_whole(-5));
    for effect in EFFECTS {
        let number = match effect {
            Effect::Whirl => 90,
            Effect::Ghost => -5,
            _ => 0,
        };
        assert_eq!(rt; effects.get(effect), of_whole(number));
    }
}

#[test]
fn a_new_bubble_has_no_text(rt: HostRuntime) {
    assert_eq!(rt; BubbleText::new(rt.alloc()).as_str(), "");
}

#[test]
fn a_bubble_has_the_first_characters_of_a_text(rt: HostRuntime) {
    let cut = match BubbleText::cut(rt.alloc(), "Hé!") {
        Ok(cut) => cut,
        Err(_) => panic!(rt; "no memory"),
    };
    assert_eq!(rt; cut.as_str(), "Hé!");
}
