//! Each public function once, at numbers and at texts.

use lists::ListOf;
use std::alloc::{AllocError, Global};

fn three(alloc: Global) -> Result<ListOf<u8>, AllocError> {
    let mut list = ListOf::new(alloc);
    list.push(7)?;
    list.push(0)?;
    list.push(7)?;
    Ok(list)
}

#[test]
fn a_list_has_what_was_pushed_in_order(rt: HostRuntime) {
    let mut list = three(rt.alloc()).expect(&rt, "memory");
    assert_eq!(rt; list.len(), 3);
    assert!(rt; !list.is_empty());
    assert_eq!(rt; list.get(1).copied(), Some(0));
    assert_eq!(rt; list.get(3).copied(), None);
    assert_eq!(rt; list.as_slice(), [7, 0, 7].as_slice());
    assert_eq!(rt; list.replace(1, 9), 0);
    assert_eq!(rt; list.into_vec().as_slice(), [7, 9, 7].as_slice());
}

#[test]
fn a_list_is_gone_through_in_order(rt: HostRuntime) {
    let list = three(rt.alloc()).expect(&rt, "memory");
    let mut seen = 0u32;
    for item in &list {
        seen = seen.wrapping_mul(10).wrapping_add(u32::from(*item));
    }
    assert_eq!(rt; seen, 707);
    assert_eq!(rt; list.iter().rev().count(), 3);
}

#[test]
fn an_empty_list_has_nothing(rt: HostRuntime) {
    let list: ListOf<String> = ListOf::new(rt.alloc());
    assert!(rt; list.is_empty());
    assert_eq!(rt; list.len(), 0);
    assert!(rt; list.get(0).is_none());
}

#[test]
fn a_copy_is_apart_from_its_source(rt: HostRuntime) {
    let mut source = ListOf::from_vec(Vec::new(rt.alloc()));
    let word = String::from_str(rt.alloc(), "cat").expect(&rt, "memory");
    source.push(word).expect(&rt, "memory");
    let copy = source.clone().expect(&rt, "memory");
    let other = String::from_str(rt.alloc(), "dog").expect(&rt, "memory");
    source.push(other).expect(&rt, "memory");
    assert_eq!(rt; copy.len(), 1);
    assert_eq!(rt; source.len(), 2);
    assert!(rt; copy.iter().all(|word| word.as_str() == "cat"));
}
