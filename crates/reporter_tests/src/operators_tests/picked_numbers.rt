//! Random numbers.

use super::Given::{Inf, Nan, NegInf, Of, Text, Truth};
use super::{Given, number, value};
use operators::pick_random;
use scratch_number::of_whole;
use scratch_values::Value;
use script_words::{CounterKind, Stop, pcg};

// Two bounds, the seed, the words drawn before, the number that is picked, and the words drawn behind it.
type Picked = (Given, Given, u64, u64, Given, u64);

// Picked numbers.
static PICKED: [Picked; 40] = [
    (Of(-10000000), Nan, 1, 1000, Of(-8000000), 1001),
    (
        Text("1e0"),
        Of(1000000),
        10633418046919013884,
        0,
        Of(1000000),
        0,
    ),
    (Truth(true), Nan, 0, 0, Of(0), 1),
    (Truth(false), Truth(false), 2, 0, Of(0), 0),
    (Truth(true), Truth(true), 0, 1000, Of(1000000), 1000),
    (Text(".5"), Nan, 42, 0, Of(395816), 1),
    (Nan, Nan, 42, 0, Of(0), 0),
    (Of(11000000), Of(15000000), 0, 7, Of(14000000), 8),
    (Of(-5000000), Text("-Infinity"), 2, 0, NegInf, 0),
    (NegInf, Of(-256000000), 2, 1, NegInf, 1),
    (Of(-87000000), Of(-16000000), 0, 0, Of(-82000000), 1),
    (Of(-3000000), Text("3.0"), 1, 0, Of(-1789394), 1),
    (Of(-7000000), Truth(true), 42, 0, Of(0), 1),
    (
        Truth(true),
        Of(8000000),
        7521706887720341162,
        7,
        Of(8000000),
        8,
    ),
    (Text("x"), Text("-5"), 5732815497008514432, 0, Of(0), 1),
    (Truth(false), Truth(true), 42, 0, Of(1000000), 1),
    (Nan, Text("-5"), 2, 0, Of(-5000000), 1),
    (Truth(true), Text("100"), 42, 0, Of(80000000), 1),
    (Text("."), Of(-15000000), 1, 0, Of(-11973485), 1),
    (Nan, Text("9e12"), 1, 1, Of(4420479975175000000), 2),
    (Text("Infinity"), Of(-3502322073188455533), 1, 0, Inf, 0),
    (Text("9e12"), Nan, 1, 0, Of(1815909092780000000), 1),
    (Text("NaN"), Text("x"), 42, 7, Of(0), 7),
    (
        Of(336000000),
        Of(-18000000),
        482690400946921076,
        1,
        Of(206000000),
        2,
    ),
    (Of(-1506557943), Of(10000000), 2, 0, Of(-1272270371), 1),
    (
        Of(-1765860981),
        Text("0x10"),
        42,
        1000,
        Of(-869959107),
        1001,
    ),
    (
        Of(-3639488286211875778),
        Of(3024365249),
        17303217685189355968,
        1,
        Of(-654685294810597343),
        2,
    ),
    (Text("0.000002"), Text(".5"), 0, 0, Of(34775), 1),
    (Text("0.000001"), Of(-7000000), 0, 1000, Of(-3608995), 1001),
    (Text("Infinity"), Text("1"), 2, 0, Inf, 0),
    (Nan, Truth(true), 0, 7, Of(1000000), 8),
    (Text("NaN"), Nan, 1, 7, Of(0), 7),
    (Text("1"), Nan, 1, 0, Of(0), 1),
    (Of(4000000), Of(-473790), 42, 1000, Of(1775586), 1001),
    (Text("10"), Text(".5"), 1, 1000, Of(2790453), 1001),
    (
        Of(2905211515492217375),
        Text("4294967296"),
        9732524326032676640,
        1000,
        Of(1280438434332170177),
        1001,
    ),
    (Of(-11000000), Text("0.000002"), 1, 0, Of(-8780556), 1),
    (Truth(false), Nan, 42, 0, Of(0), 0),
    (
        Text("-Infinity"),
        Of(30000000),
        16864120734784219863,
        7,
        NegInf,
        7,
    ),
    (Of(-9000000), Of(5000000), 1, 7, Of(-8000000), 8),
];

#[test]
fn numbers_are_picked(rt: HostRuntime) {
    for (at, (from, to, seed, before, wanted, after)) in PICKED.iter().enumerate() {
        let (from, to) = (value(&rt, *from), value(&rt, *to));
        assert!(rt; *before < 1 << 62);
        let mut words = pcg(*seed, *before);
        let told = pick_random(&from, &to, &mut words);
        assert!(rt; told == Ok(number(*wanted)), "row {at}");
        assert!(rt; words.drawn() == *after, "row {at}");
    }
}

#[test]
fn no_word_is_left(rt: HostRuntime) {
    let (low, high) = (Value::Number(of_whole(1)), Value::Number(of_whole(2)));
    let mut words = pcg(1, (1 << 62) - 1);
    let full = Stop::Counter {
        which: CounterKind::Words,
    };
    assert!(rt; pick_random(&low, &high, &mut words) == Err(full));
    assert!(rt; pick_random(&low, &low, &mut words) == Ok(of_whole(1)));
}
