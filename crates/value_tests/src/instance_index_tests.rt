//! Worked lists: the instance of each slot, and the slots of an instance from the last down.

use instance_index::InstanceIndex;
use std::alloc::{AllocError, Global};
use std::process::Abort;

fn append_all(index: &mut InstanceIndex, ofs: &[u64]) {
    for of in ofs {
        index.append(*of);
    }
}

// The slots of an instance, of no more than eight.
fn slots(
    rt: &impl Abort,
    alloc: Global,
    index: &InstanceIndex,
    of: u64,
) -> Result<Vec<usize>, AllocError> {
    assert!(rt; index.is_fresh());
    let mut slots = Vec::new(alloc);
    let mut next = index.last(of);
    for _ in 0..8 {
        let Some(slot) = next else { break };
        slots.push(slot)?;
        next = index.earlier(slot);
    }
    Ok(slots)
}

#[test]
fn the_slots_of_each_instance_are_visited_from_the_last_down(rt: HostRuntime) {
    let mut index = InstanceIndex::new(rt.alloc());
    append_all(&mut index, &[7, 9, 7, 7, 9, 0]);
    let rows: [(u64, &[usize]); 4] = [(7, &[3, 2, 0]), (9, &[4, 1]), (0, &[5]), (1, &[])];
    for (of, want) in rows {
        let slots = slots(&rt, rt.alloc(), &index, of).expect(&rt, "memory");
        assert_eq!(rt; slots.as_slice(), want, "of {of}");
    }
}

#[test]
fn a_list_is_looked_through_again_after_sixteen_searches(rt: HostRuntime) {
    let mut index = InstanceIndex::new(rt.alloc());
    append_all(&mut index, &[7, 9, 7]);
    assert!(rt; !index.wants_renewal());
    index.forget();
    append_all(&mut index, &[9]);
    assert!(rt; !index.is_fresh());
    for _ in 0..15 {
        index.note_search();
    }
    assert!(rt; !index.wants_renewal());
    index.note_search();
    assert!(rt; index.wants_renewal());
    index.clear();
    append_all(&mut index, &[9, 7, 9]);
    let slots = slots(&rt, rt.alloc(), &index, 9).expect(&rt, "memory");
    assert_eq!(rt; slots.as_slice(), [2, 0].as_slice());
    assert!(rt; !index.wants_renewal());
}
