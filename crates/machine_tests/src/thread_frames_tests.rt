//! Each public function once, on a few threads.

use machine_spec::{
    BlockId, Boxed, Context, Control, Count, InstanceId, Serial, Status, TargetId, Which,
};
use project_json::Text;
use scratch_values::{Params, Value};
use std::process::Abort;
use thread_frames::{Levels, Threads};

mod parts;
mod room;

const CAT: InstanceId = InstanceId(1);

const DOG: InstanceId = InstanceId(7);

const SPRITE: TargetId = TargetId(1);

const FLAG: BlockId = BlockId(0);

const KEY: BlockId = BlockId(4);

const FIRST: Option<BlockId> = Some(BlockId(1));

const NEXT: Option<BlockId> = Some(BlockId(2));

const INNER: Option<BlockId> = Some(BlockId(3));

// One parameter, `n`, which is true.
fn params(rt: &(impl Abort + AllocGlobal)) -> Boxed<Params> {
    let mut params = Params::new(rt.alloc());
    let name = Text::from_str(rt.alloc(), "n").expect(rt, "memory");
    params.push(name, Value::Truth(true)).expect(rt, "memory");
    Boxed::new(rt.alloc(), params).expect(rt, "memory")
}

// A thread of the cat in slot 0, and one of the dog in slot 1.
fn two(rt: &(impl Abort + AllocGlobal)) -> Threads {
    let mut threads = Threads::new(rt.alloc()).expect(rt, "memory");
    threads
        .append(Serial(10), CAT, SPRITE, FLAG, FIRST)
        .expect(rt, "room");
    threads
        .append(Serial(11), DOG, SPRITE, KEY, FIRST)
        .expect(rt, "room");
    threads
}

fn status_at(threads: &Threads, which: Which) -> Option<Status> {
    match threads.thread(which) {
        Some(thread) => Some(thread.status()),
        None => None,
    }
}

fn serial_at(threads: &Threads, which: Which) -> Option<Serial> {
    match threads.thread(which) {
        Some(thread) => Some(thread.serial()),
        None => None,
    }
}

fn block_at(threads: &Threads, which: Which, from_top: u32) -> Option<BlockId> {
    match threads.level(which, from_top) {
        Some(level) => level.block,
        None => None,
    }
}

fn top_of(levels: &Levels<'_>) -> Option<BlockId> {
    match levels.top() {
        Some(level) => level.block,
        None => None,
    }
}

// The levels of one thread are opened and given up, and those of another stay.
#[test]
fn levels_are_opened_and_given_up(rt: HostRuntime) {
    let mut threads = two(&rt);
    let cat = Which::Slot(0);
    threads.push(cat, INNER, true).expect(&rt, "room");
    assert_eq!(rt; threads.depth(cat), 2);
    assert!(rt;
        threads
            .level(cat, 1)
            .is_some_and(|level| level.block == FIRST && !level.warp)
    );
    assert!(rt; threads.level(cat, 2).is_none());
    threads.go_next(cat, NEXT);
    assert!(rt;
        threads
            .top(cat)
            .is_some_and(|level| level.block == NEXT && level.warp)
    );
    assert!(rt; threads.pop(cat));
    assert!(rt; threads.top(cat).is_some_and(|level| level.block == FIRST));
    assert!(rt; !threads.pop(cat));
    assert_eq!(rt; threads.depth(cat), 0);
    assert!(rt; threads.top(cat).is_none());
    assert!(rt; !threads.pop(cat));
    assert_eq!(rt; threads.depth(Which::Slot(1)), 1);
    threads.push(cat, INNER, false).expect(&rt, "room");
    assert!(rt; threads.top(cat).is_some_and(|level| level.block == INNER));
    assert_eq!(rt; threads.levels(), 2);
}

// The levels of two threads that were opened in turn are each read from the top.
#[test]
fn levels_are_read_from_the_top(rt: HostRuntime) {
    let mut threads = two(&rt);
    let cat = Which::Slot(0);
    let dog = Which::Slot(1);
    threads.push(cat, INNER, false).expect(&rt, "room");
    threads.push(dog, INNER, false).expect(&rt, "room");
    threads.push(cat, NEXT, false).expect(&rt, "room");
    let levels = threads.levels_at(cat);
    assert_eq!(rt; levels.depth(), 3);
    assert_eq!(rt; top_of(&levels), NEXT);
    assert_eq!(rt; levels.under().depth(), 2);
    assert_eq!(rt; top_of(&levels.under()), INNER);
    assert_eq!(rt; top_of(&levels.under().under()), FIRST);
    assert_eq!(rt; levels.below(0).depth(), 3);
    assert_eq!(rt; top_of(&levels.below(2)), FIRST);
    assert_eq!(rt; levels.below(3).depth(), 0);
    assert!(rt; levels.below(3).top().is_none());
    assert_eq!(rt; levels.below(9).depth(), 0);
    assert_eq!(rt; levels.below(9).under().depth(), 0);
    assert_eq!(rt; threads.levels_at(dog).depth(), 2);
    assert_eq!(rt; top_of(&threads.levels_at(dog)), INNER);
    assert_eq!(rt; threads.levels_at(Which::Slot(2)).depth(), 0);
    assert_eq!(rt; threads.levels_at(Which::Detached).depth(), 0);
}

#[test]
fn a_level_keeps_what_it_is_given(rt: HostRuntime) {
    let mut threads = two(&rt);
    let cat = Which::Slot(0);
    threads.set_loop(cat, true);
    threads.set_context(cat, Context::Repeat(Count::Whole(3)));
    assert!(rt; threads.top(cat).is_some_and(|level| level.is_loop));
    let context = threads.take_context(cat);
    assert!(rt; matches!(context, Context::Repeat(Count::Whole(3))));
    let left = threads.take_context(cat);
    assert!(rt; matches!(left, Context::Fresh));
}

#[test]
fn parameters_are_seen_from_above(rt: HostRuntime) {
    let mut threads = two(&rt);
    let cat = Which::Slot(0);
    assert!(rt; threads.params(cat).is_none());
    threads.set_params(cat, params(&rt));
    threads.push(cat, INNER, false).expect(&rt, "room");
    assert!(rt;
        threads
            .params(cat)
            .is_some_and(|params| params.value("n").is_some())
    );
    assert!(rt; threads.params(Which::Slot(1)).is_none());
}

#[test]
fn threads_are_appended_and_found(rt: HostRuntime) {
    let threads = two(&rt);
    assert_eq!(rt; threads.len(), 2);
    assert_eq!(rt; threads.levels(), 2);
    assert_eq!(rt; threads.slot_of(Serial(11)), Some(1));
    assert_eq!(rt; threads.slot_of(Serial(12)), None);
    assert_eq!(rt; threads.slot_of_hat(DOG, KEY), Some(1));
    assert_eq!(rt; threads.slot_of_hat(DOG, FLAG), None);
    assert!(rt; threads.is_any_alive(CAT, FLAG));
    let thread = threads.thread(Which::Slot(1)).expect(&rt, "a thread");
    assert_eq!(rt; thread.of(), DOG);
    assert_eq!(rt; thread.target(), SPRITE);
    assert_eq!(rt; thread.hat(), KEY);
    assert!(rt; !thread.is_done());
    assert_eq!(rt; threads.depth(Which::Slot(1)), 1);
    assert!(rt; threads.thread(Which::Slot(2)).is_none());
}

// A running thread that is replaced goes on as the detached one, and its successor has its slot.
#[test]
fn a_running_thread_is_replaced_in_its_slot(rt: HostRuntime) {
    let mut threads = two(&rt);
    assert_eq!(rt; threads.place(0), Which::Slot(0));
    threads
        .replace(0, Serial(12), SPRITE, FIRST, true)
        .expect(&rt, "room");
    assert_eq!(rt; threads.len(), 2);
    assert_eq!(rt; threads.place(0), Which::Detached);
    assert_eq!(rt; serial_at(&threads, Which::Slot(0)), Some(Serial(12)));
    assert_eq!(rt; serial_at(&threads, Which::Detached), Some(Serial(10)));
    assert_eq!(rt; threads.levels(), 3);
    threads.drop_detached();
    assert_eq!(rt; threads.levels(), 2);
    assert_eq!(rt; threads.place(0), Which::Slot(0));
}

// Any other thread gives up its levels.
#[test]
fn another_thread_is_replaced_with_one_level(rt: HostRuntime) {
    let mut threads = two(&rt);
    threads
        .push(Which::Slot(1), INNER, false)
        .expect(&rt, "room");
    assert_eq!(rt; threads.levels(), 3);
    threads
        .replace(1, Serial(12), SPRITE, FIRST, false)
        .expect(&rt, "room");
    assert_eq!(rt; threads.levels(), 2);
    assert_eq!(rt; serial_at(&threads, Which::Slot(1)), Some(Serial(12)));
    assert!(rt; threads.thread(Which::Detached).is_none());
}

#[test]
fn a_thread_is_moved(rt: HostRuntime) {
    let mut threads = two(&rt);
    let cat = Which::Slot(0);
    threads.set_loop(cat, true);
    threads.set_context(cat, Context::Called);
    threads.set_params(cat, params(&rt));
    threads.push(cat, INNER, true).expect(&rt, "room");
    assert_eq!(rt; threads.depth(cat), 2);
    assert_eq!(rt; block_at(&threads, cat, 1), FIRST);
    assert!(rt; threads.params(cat).is_some());
    threads.go_next(cat, None);
    assert_eq!(rt; block_at(&threads, cat, 0), None);
    assert!(rt; threads.pop(cat));
    assert!(rt; matches!(threads.take_context(cat), Context::Called));
    assert!(rt; !threads.pop(cat));
    assert_eq!(rt; threads.levels(), 1);
}

#[test]
fn a_script_is_stopped_up_to_its_call(rt: HostRuntime) {
    let mut threads = two(&rt);
    let cat = Which::Slot(0);
    threads.set_context(cat, Context::Called);
    threads.push(cat, INNER, false).expect(&rt, "room");
    threads.push(cat, NEXT, false).expect(&rt, "room");
    assert!(rt; threads.stop_this_script(cat));
    assert_eq!(rt; threads.levels(), 2);
    assert_eq!(rt; block_at(&threads, cat, 0), FIRST);
    assert!(rt; !threads.stop_this_script(cat));
    assert_eq!(rt; threads.levels(), 1);
}

#[test]
fn threads_end(rt: HostRuntime) {
    let mut threads = two(&rt);
    threads.finish(Which::Slot(0));
    assert_eq!(rt; status_at(&threads, Which::Slot(0)), Some(Status::Done));
    assert_eq!(rt; threads.levels(), 1);
    assert!(rt; !threads.is_any_alive(CAT, FLAG));
    threads.remove_done();
    assert_eq!(rt; threads.len(), 1);
    assert_eq!(rt; threads.slot_of(Serial(11)), Some(0));
    threads.clear();
    assert_eq!(rt; threads.len(), 0);
    assert_eq!(rt; threads.levels(), 0);
}

// The first slots of the cat's flag hat, of its key hat, of the dog's flag hat and of its key hat.
fn slots(threads: &Threads) -> [Option<u64>; 4] {
    [
        threads.slot_of_hat(CAT, FLAG),
        threads.slot_of_hat(CAT, KEY),
        threads.slot_of_hat(DOG, FLAG),
        threads.slot_of_hat(DOG, KEY),
    ]
}

// The first thread of a hat is found, whether its slot is kept or looked for.
#[test]
fn the_first_thread_of_a_hat_is_found(rt: HostRuntime) {
    let mut threads = two(&rt);
    threads
        .append(Serial(12), CAT, SPRITE, FLAG, FIRST)
        .expect(&rt, "room");
    assert_eq!(rt; slots(&threads), [Some(0), None, None, Some(1)]);
    threads
        .replace(0, Serial(13), SPRITE, FIRST, true)
        .expect(&rt, "room");
    assert_eq!(rt; slots(&threads), [Some(0), None, None, Some(1)]);
    threads.finish(Which::Slot(0));
    assert_eq!(rt; slots(&threads), [Some(0), None, None, Some(1)]);
    assert!(rt; threads.is_any_alive(CAT, FLAG));
    assert!(rt; !threads.is_any_alive(CAT, KEY));
    threads.remove_done();
    assert_eq!(rt; slots(&threads), [Some(1), None, None, Some(0)]);
    threads
        .append(Serial(14), DOG, SPRITE, FLAG, FIRST)
        .expect(&rt, "room");
    assert_eq!(rt; slots(&threads), [Some(1), None, Some(2), Some(0)]);
    for _ in 0..20 {
        threads.prepare_search();
    }
    assert_eq!(rt; slots(&threads), [Some(1), None, Some(2), Some(0)]);
    threads
        .append(Serial(15), CAT, SPRITE, KEY, FIRST)
        .expect(&rt, "room");
    assert_eq!(rt; slots(&threads), [Some(1), Some(3), Some(2), Some(0)]);
    threads.clear();
    assert_eq!(rt; slots(&threads), [None, None, None, None]);
}

#[test]
fn the_threads_of_an_instance_end_but_for_one(rt: HostRuntime) {
    let mut threads = two(&rt);
    threads
        .append(Serial(12), CAT, SPRITE, KEY, FIRST)
        .expect(&rt, "room");
    threads.stop_of(CAT, Some(Which::Slot(2)));
    assert_eq!(rt; status_at(&threads, Which::Slot(0)), Some(Status::Done));
    assert_eq!(rt; status_at(&threads, Which::Slot(1)), Some(Status::Running));
    assert_eq!(rt; status_at(&threads, Which::Slot(2)), Some(Status::Running));
    threads.stop_of(CAT, None);
    assert_eq!(rt; status_at(&threads, Which::Slot(2)), Some(Status::Done));
    assert_eq!(rt; threads.levels(), 1);
}

// Waiting goes on until no started thread is listed, and ticks while none of them can run.
#[test]
fn a_block_waits_for_threads(rt: HostRuntime) {
    let mut threads = two(&rt);
    let serials = [Serial(10), Serial(11)];
    assert_eq!(rt; threads.status_of(Serial(10)), Some(Status::Running));
    assert!(rt; matches!(threads.wait_for(&serials), Control::Yield));
    threads.set_status(Which::Slot(0), Status::PromiseWait);
    threads.set_status(Which::Slot(1), Status::YieldTick);
    assert!(rt; matches!(threads.wait_for(&serials), Control::YieldTick));
    threads.clear();
    assert!(rt; matches!(threads.wait_for(&serials), Control::Next));
}
