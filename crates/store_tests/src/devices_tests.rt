//! Each public function once: keys, questions, timers and the clock.

use devices::{
    BubbleTimer, BubbleTimers, DeviceParts, Devices, Key, Keys, Question, Questions, seconds,
};
use machine_spec::{InstanceId, Serial};
use scratch_number::{Num, of_whole};
use scratch_values::BoundText;
use std::alloc::Global;
use std::process::Abort;

fn made(rt: &(impl Abort + AllocGlobal)) -> Devices {
    Devices::new(rt.alloc()).expect(rt, "memory")
}

fn text(rt: &(impl Abort + AllocGlobal), words: &str) -> BoundText {
    let text = BoundText::from_str(rt.alloc(), words).expect(rt, "memory");
    text.expect(rt, "a short text")
}

fn asked(rt: &(impl Abort + AllocGlobal), devices: &mut Devices, of: u64) -> bool {
    let question = Question {
        of: InstanceId(of),
        thread: Serial(of),
        text: text(rt, "name?"),
        bubble: false,
    };
    devices.ask(question).expect(rt, "memory")
}

fn spoken(rt: &(impl Abort + AllocGlobal), devices: &mut Devices, due: i64, usage: u64) {
    let timer = BubbleTimer {
        due: of_whole(due),
        of: InstanceId(usage),
        thread: Serial(usage),
        usage,
    };
    devices.speak_until(timer).expect(rt, "memory");
}

fn at(rt: &impl Abort, devices: &mut Devices, ms: u64) {
    assert!(rt; devices.clock() <= ms);
    devices.set_clock(ms);
}

fn usage_taken(devices: &mut Devices) -> Option<u64> {
    match devices.take_due() {
        Some(timer) => Some(timer.usage),
        None => None,
    }
}

#[test]
fn the_timer_counts_from_its_reset(rt: HostRuntime) {
    let mut devices = made(&rt);
    at(&rt, &mut devices, 250);
    devices.reset_timer();
    at(&rt, &mut devices, 1250);
    assert_eq!(rt; devices.timer_start(), 250);
    assert_eq!(rt; devices.timer(), of_whole(1));
    assert_eq!(rt; seconds(u64::MAX), Num::Inf);
}

#[test]
fn the_mouse_and_turbo_are_as_they_were_set(rt: HostRuntime) {
    let mut devices = made(&rt);
    devices.set_mouse(-240, 180);
    devices.set_button(true);
    devices.set_turbo(true);
    assert_eq!(rt; devices.mouse_x(), -240);
    assert_eq!(rt; devices.mouse_y(), 180);
    assert!(rt; devices.button());
    assert!(rt; devices.turbo());
}

#[test]
fn a_key_is_held_once_until_it_is_released(rt: HostRuntime) {
    let mut devices = made(&rt);
    devices.key_down(Key::Space).expect(&rt, "memory");
    devices.key_down(Key::One('A')).expect(&rt, "memory");
    devices.key_down(Key::Space).expect(&rt, "memory");
    assert_eq!(rt; devices.keys().len(), 2);
    devices.key_up(&Key::Space);
    assert!(rt; !devices.is_down(&Key::Space));
    assert!(rt; devices.is_down(&Key::One('A')));
}

#[test]
fn the_first_question_is_answered(rt: HostRuntime) {
    let mut devices = made(&rt);
    assert!(rt; asked(&rt, &mut devices, 2));
    assert!(rt; !asked(&rt, &mut devices, 1));
    let first = devices.answer(text(&rt, "7")).expect(&rt, "a question");
    assert_eq!(rt; first.thread, Serial(2));
    assert_eq!(rt; devices.last_answer().as_str(), "7");
    assert!(rt; devices.drop_questions(InstanceId(1)));
    assert!(rt; devices.questions().is_empty());
    devices.set_answer(text(&rt, ""));
    assert_eq!(rt; devices.last_answer().as_str(), "");
}

#[test]
fn the_due_timer_that_ends_first_is_taken(rt: HostRuntime) {
    let mut devices = made(&rt);
    spoken(&rt, &mut devices, 3, 1);
    spoken(&rt, &mut devices, 2, 2);
    spoken(&rt, &mut devices, 2, 3);
    spoken(&rt, &mut devices, 9, 4);
    at(&rt, &mut devices, 2000);
    assert_eq!(rt; usage_taken(&mut devices), Some(2));
    assert_eq!(rt; usage_taken(&mut devices), Some(3));
    assert_eq!(rt; usage_taken(&mut devices), None);
    devices.drop_timers(InstanceId(4));
    assert_eq!(rt; devices.timers().len(), 1);
    devices.stop_all();
    assert!(rt; devices.timers().is_empty());
}

#[test]
fn bubble_updates_are_numbered_from_1(rt: HostRuntime) {
    let mut devices = made(&rt);
    assert_eq!(rt; devices.next_usage(), Ok(1));
    assert_eq!(rt; devices.usage(), 2);
    assert_eq!(rt; devices.clock(), 0);
}

#[test]
fn devices_are_made_again_from_their_parts(rt: HostRuntime) {
    let mut keys = Keys::new(rt.alloc());
    keys.push(Key::Space).expect(&rt, "memory");
    let parts = DeviceParts {
        answer: text(&rt, "7"),
        clock: 900,
        timer: 250,
        keys,
        mouse_x: -240,
        mouse_y: 180,
        button: true,
        questions: Questions::new(rt.alloc()),
        timers: BubbleTimers::new(rt.alloc()),
        turbo: true,
        usage: 5,
    };
    let devices = Devices::rebuild(rt.alloc(), parts);
    assert_eq!(rt; devices.last_answer().as_str(), "7");
    assert_eq!(rt; devices.clock(), 900);
    assert_eq!(rt; devices.timer_start(), 250);
    assert_eq!(rt; devices.keys().len(), 1);
    assert_eq!(rt; devices.mouse_x(), -240);
    assert_eq!(rt; devices.usage(), 5);
}
