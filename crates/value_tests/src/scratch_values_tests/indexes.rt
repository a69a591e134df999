//! The place of a list that a value names.

use super::Given::{Inf, Nan, NegInf, Of, Text, Truth};
use super::{Given, value};
use scratch_values::Index::{All, At, Invalid};
use scratch_values::{Index, list_index};
use script_words::{CounterFull, pcg};
use std::alloc::{AllocError, Global};
use std::process::Abort;

// A value, the length, whether `all` may be named, and what is named.
static PLACES: [(Given, u32, bool, Index); 20] = [
    (Text("last"), 3, false, At(3)),
    (Text("last"), 0, false, Invalid),
    (Of(1_900_000), 3, false, At(1)),
    (Of(0), 3, false, Invalid),
    (Of(3_000_000), 3, false, At(3)),
    (Of(4_000_000), 3, false, Invalid),
    (Of(-1_000_000), 3, false, Invalid),
    (Text("all"), 3, true, All),
    (Text("all"), 3, false, Invalid),
    (Text("all"), 0, true, All),
    (Text("ALL"), 3, true, Invalid),
    (Text("random"), 0, false, Invalid),
    (Text("any"), 0, true, Invalid),
    (Text(" 2 "), 3, false, At(2)),
    (Truth(true), 3, false, At(1)),
    (Truth(false), 3, false, Invalid),
    (Inf, 3, false, Invalid),
    (NegInf, 3, false, Invalid),
    (Nan, 3, false, Invalid),
    (
        Of(4_294_967_295_000_000),
        4294967295,
        false,
        At(4_294_967_295),
    ),
];

fn each_place(rt: &impl Abort, alloc: Global) -> Result<(), AllocError> {
    let mut words = pcg(0, 0);
    for (given, length, all, want) in &PLACES {
        let value = value(rt, alloc, *given)?;
        let index = list_index(&value, *length, *all, &mut words);
        assert_eq!(rt; index, Ok(*want), "{given:?} {length}");
        assert_eq!(rt; words.drawn(), 0, "{given:?} {length}");
    }
    Ok(())
}

#[test]
fn places(rt: HostRuntime) {
    each_place(&rt, rt.alloc()).expect(&rt, "memory");
}

// The first words of seed 0 at length 10.
#[test]
fn random_places(rt: HostRuntime) {
    let random = value(&rt, rt.alloc(), Text("random")).expect(&rt, "memory");
    let any = value(&rt, rt.alloc(), Text("any")).expect(&rt, "memory");
    let mut words = pcg(0, 0);
    for place in [1, 10, 1, 3, 3] {
        assert_eq!(rt; list_index(&random, 10, false, &mut words), Ok(At(place)));
    }
    assert_eq!(rt; list_index(&any, 10, true, &mut words), Ok(At(4)));
    assert_eq!(rt; words.drawn(), 6);
}

#[test]
fn no_word_is_left(rt: HostRuntime) {
    let random = value(&rt, rt.alloc(), Text("random")).expect(&rt, "memory");
    let mut words = pcg(0, (1 << 62) - 1);
    assert_eq!(rt; list_index(&random, 3, false, &mut words), Err(CounterFull));
    assert_eq!(rt; list_index(&random, 0, false, &mut words), Ok(Invalid));
}
