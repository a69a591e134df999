//! Room for 65,536 levels, which is given back.

use super::{CAT, DOG, FIRST, FLAG, INNER, NEXT, SPRITE, serial_at, top_of, two};
use machine_spec::{Serial, Status, Which};
use std::process::Abort;
use thread_frames::{PushStop, Threads};

const CAT_PLACE: Which = Which::Slot(0);

const DOG_PLACE: Which = Which::Slot(1);

const FULL: Result<(), PushStop> = Err(PushStop::Full);

// Opens levels of a thread until 65,536 are open, and no more are opened then.
fn fill(threads: &mut Threads, which: Which, rt: &impl Abort) {
    for _ in threads.levels()..65_536 {
        threads.push(which, INNER, false).expect(rt, "room");
    }
    assert_eq!(rt; threads.levels(), 65_536);
    assert_eq!(rt; threads.push(which, INNER, false), FULL);
    assert_eq!(rt; threads.levels(), 65_536);
}

#[test]
fn at_most_65536_levels_are_open(rt: HostRuntime) {
    let mut threads = two(&rt);
    fill(&mut threads, CAT_PLACE, &rt);
    assert_eq!(rt; threads.push(DOG_PLACE, INNER, false), FULL);
    assert_eq!(rt; threads.append(Serial(12), DOG, SPRITE, FLAG, FIRST), FULL);
    assert_eq!(rt; threads.replace(0, Serial(12), SPRITE, FIRST, true), FULL);
    assert_eq!(rt; threads.replace(1, Serial(12), SPRITE, FIRST, true), FULL);
    assert_eq!(rt; threads.len(), 2);
    assert_eq!(rt; serial_at(&threads, CAT_PLACE), Some(Serial(10)));
}

#[test]
fn a_level_that_is_given_up_makes_room(rt: HostRuntime) {
    let mut threads = two(&rt);
    fill(&mut threads, CAT_PLACE, &rt);
    assert_eq!(rt; threads.depth(CAT_PLACE), 65_535);
    assert_eq!(rt; top_of(&threads.levels_at(CAT_PLACE).below(65_533)), INNER);
    assert_eq!(rt; top_of(&threads.levels_at(CAT_PLACE).below(65_534)), FIRST);
    assert!(rt; threads.pop(CAT_PLACE));
    assert_eq!(rt; threads.levels(), 65_535);
    assert_eq!(rt; threads.push(DOG_PLACE, NEXT, false), Ok(()));
    assert_eq!(rt; threads.push(CAT_PLACE, NEXT, false), FULL);
    assert_eq!(rt; top_of(&threads.levels_at(DOG_PLACE)), NEXT);
    assert_eq!(rt; top_of(&threads.levels_at(CAT_PLACE)), INNER);
}

#[test]
fn at_most_65536_threads_have_a_level(rt: HostRuntime) {
    let mut threads = Threads::new(rt.alloc()).expect(&rt, "memory");
    for number in 0..65_536 {
        threads
            .append(Serial(number), CAT, SPRITE, FLAG, FIRST)
            .expect(&rt, "room");
    }
    assert_eq!(rt; threads.levels(), 65_536);
    let next = Serial(65_536);
    assert_eq!(rt; threads.append(next, CAT, SPRITE, FLAG, FIRST), FULL);
    assert_eq!(rt; threads.push(DOG_PLACE, INNER, false), FULL);
    assert_eq!(rt; threads.len(), 65_536);
    threads.finish(Which::Slot(9));
    assert_eq!(rt; threads.levels(), 65_535);
    assert_eq!(rt; threads.append(next, CAT, SPRITE, FLAG, FIRST), Ok(()));
    assert_eq!(rt; threads.append(next, CAT, SPRITE, FLAG, FIRST), FULL);
    assert_eq!(rt; threads.len(), 65_537);
    threads.remove_done();
    assert_eq!(rt; threads.len(), 65_536);
    assert_eq!(rt; threads.levels(), 65_536);
}

// A detached thread keeps its levels until it is dropped.
#[test]
fn a_detached_thread_gives_its_levels_back(rt: HostRuntime) {
    let mut threads = two(&rt);
    fill(&mut threads, CAT_PLACE, &rt);
    assert!(rt; threads.pop(CAT_PLACE));
    assert_eq!(rt; threads.replace(0, Serial(12), SPRITE, FIRST, true), Ok(()));
    assert_eq!(rt; threads.levels(), 65_536);
    assert_eq!(rt; threads.depth(Which::Detached), 65_534);
    threads.drop_detached();
    assert_eq!(rt; threads.levels(), 2);
    fill(&mut threads, CAT_PLACE, &rt);
}

// One that is restarted gives them back first, so that there is room even where all are open.
#[test]
fn a_restart_gives_levels_back(rt: HostRuntime) {
    let mut threads = two(&rt);
    fill(&mut threads, CAT_PLACE, &rt);
    assert_eq!(rt;
        threads.replace(0, Serial(12), SPRITE, FIRST, false),
        Ok(())
    );
    assert_eq!(rt; threads.levels(), 2);
    assert_eq!(rt; serial_at(&threads, CAT_PLACE), Some(Serial(12)));
    fill(&mut threads, CAT_PLACE, &rt);
}

#[test]
fn a_thread_that_is_finished_gives_its_levels_back(rt: HostRuntime) {
    let mut threads = two(&rt);
    fill(&mut threads, CAT_PLACE, &rt);
    threads.finish(CAT_PLACE);
    assert_eq!(rt; threads.levels(), 1);
    fill(&mut threads, DOG_PLACE, &rt);
}

#[test]
fn threads_that_are_stopped_give_their_levels_back(rt: HostRuntime) {
    let mut threads = two(&rt);
    fill(&mut threads, CAT_PLACE, &rt);
    threads.stop_of(CAT, None);
    assert_eq!(rt; threads.levels(), 1);
    fill(&mut threads, DOG_PLACE, &rt);
}

// A thread that was told to be done still has its levels until it is taken out of the list.
#[test]
fn a_thread_that_is_removed_gives_its_levels_back(rt: HostRuntime) {
    let mut threads = two(&rt);
    fill(&mut threads, CAT_PLACE, &rt);
    threads.set_status(CAT_PLACE, Status::Done);
    assert_eq!(rt; threads.levels(), 65_536);
    threads.remove_done();
    assert_eq!(rt; threads.len(), 1);
    assert_eq!(rt; threads.levels(), 1);
    assert_eq!(rt; serial_at(&threads, CAT_PLACE), Some(Serial(11)));
    fill(&mut threads, CAT_PLACE, &rt);
}

#[test]
fn all_levels_are_given_back_at_once(rt: HostRuntime) {
    let mut threads = two(&rt);
    fill(&mut threads, CAT_PLACE, &rt);
    threads.clear();
    assert_eq!(rt; threads.levels(), 0);
    assert_eq!(rt;
        threads.append(Serial(12), DOG, SPRITE, FLAG, FIRST),
        Ok(())
    );
    fill(&mut threads, CAT_PLACE, &rt);
    assert_eq!(rt; threads.depth(CAT_PLACE), 65_536);
}
