//! Threads that are made again.

use super::{CAT, DOG, FIRST, FLAG, INNER, KEY, SPRITE, block_at, serial_at, status_at};
use machine_spec::{BlockId, Context, Serial, Status, Which};
use thread_frames::{Level, ThreadPart, Threads};

// A level that was just opened.
fn level_of(block: Option<BlockId>) -> Level {
    Level {
        block,
        is_loop: false,
        warp: true,
        context: Context::Fresh,
        params: None,
    }
}

// A thread of the dog that waits for the next pass, with two levels, the last of which is the top one, and then one of the cat that is done.
#[test]
fn threads_are_made_from_their_parts(rt: HostRuntime) {
    let mut levels = Vec::new(rt.alloc());
    levels.push(level_of(FIRST)).expect(&rt, "memory");
    levels.push(level_of(INNER)).expect(&rt, "memory");
    let dog = ThreadPart {
        serial: Serial(11),
        of: DOG,
        target: SPRITE,
        hat: KEY,
        status: Status::YieldTick,
        levels,
    };
    let cat = ThreadPart {
        serial: Serial(10),
        of: CAT,
        target: SPRITE,
        hat: FLAG,
        status: Status::Done,
        levels: Vec::new(rt.alloc()),
    };
    let mut parts = Vec::new(rt.alloc());
    parts.push(dog).expect(&rt, "memory");
    parts.push(cat).expect(&rt, "memory");
    let threads = Threads::rebuild(rt.alloc(), parts).expect(&rt, "memory");
    assert_eq!(rt; threads.len(), 2);
    assert_eq!(rt; threads.levels(), 2);
    assert_eq!(rt; threads.slot_of_hat(CAT, FLAG), Some(1));
    assert_eq!(rt; serial_at(&threads, Which::Slot(0)), Some(Serial(11)));
    assert_eq!(rt;
        status_at(&threads, Which::Slot(0)),
        Some(Status::YieldTick)
    );
    assert_eq!(rt; block_at(&threads, Which::Slot(0), 0), INNER);
    assert_eq!(rt; block_at(&threads, Which::Slot(0), 1), FIRST);
    assert!(rt; threads.top(Which::Slot(0)).is_some_and(|level| level.warp));
    assert_eq!(rt; threads.depth(Which::Slot(1)), 0);
    drop(threads);
}
