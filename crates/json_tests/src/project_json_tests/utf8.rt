//! Bytes that are no UTF-8 (RFC 3629), and where the first ill-formed sequence starts.

use super::refusal;
use project_json::JsonRefusal;
use std::alloc::{AllocError, Global};
use std::process::Abort;

// Ill-formed from the first byte on, at the end and before a byte of ASCII.
static ILL_FORMED: [&[u8]; 48] = [
    // More bytes than the number needs.
    b"\xC0\x80",
    b"\xC0\xAF",
    b"\xC1\xBF",
    b"\xE0\x80\x80",
    b"\xE0\x80\xAF",
    b"\xE0\x9F\xBF",
    b"\xF0\x80\x80\x80",
    b"\xF0\x80\x80\xAF",
    b"\xF0\x8F\xBF\xBF",
    // Surrogates.
    b"\xED\xA0\x80",
    b"\xED\xAF\xBF",
    b"\xED\xB0\x80",
    b"\xED\xBF\xBF",
    b"\xED\xA0\xBD\xED\xB8\x80",
    // Above U+10FFFF.
    b"\xF4\x90\x80\x80",
    b"\xF4\xBF\xBF\xBF",
    b"\xF5\x80\x80\x80",
    b"\xF7\xBF\xBF\xBF",
    b"\xF8\x88\x80\x80\x80",
    b"\xFC\x84\x80\x80\x80\x80",
    // Cut short.
    b"\xC2",
    b"\xC3",
    b"\xDF",
    b"\xE0",
    b"\xE0\xA0",
    b"\xE2",
    b"\xE2\x82",
    b"\xED\x9F",
    b"\xEF",
    b"\xEF\xBB",
    b"\xF0",
    b"\xF0\x9F",
    b"\xF0\x9F\x98",
    b"\xF4\x8F\xBF",
    // Cut short by another character.
    b"\xC3\xC3\xA9",
    b"\xC3\xE2\x82\xAC",
    b"\xE2\x82\xE2\x82\xAC",
    b"\xE2\x28\xA1",
    b"\xF0\x9F\x98\xC3\xA9",
    b"\xF0\x28\x8C\xBC",
    b"\xF0\x90\x28\xBC",
    b"\xC3\xFF",
    // A continuation by itself, and bytes that stand nowhere.
    b"\x80",
    b"\xBF",
    b"\x80\xBF",
    b"\xFE",
    b"\xFF",
    b"\xFF\xFE1\x00",
];

// What stands before and after. A fault of the text that lies nearer the front is not told.
static PLACES: [(&str, &str, usize); 12] = [
    ("", "", 0),
    ("\"", "\"", 1),
    ("\"a", "", 2),
    ("\"\\", "\"", 2),
    ("\"\\u00", "00\"", 5),
    ("\"\u{e9}\u{20ac}\u{1f600}", "x\"", 10),
    ("{\"", "\":1}", 2),
    ("[1, ", "]", 4),
    ("1", " ", 1),
    ("x", "", 1),
    ("[1,]", "1", 4),
    ("\"\u{1}\u{e9}", "\"", 4),
];

// Behind characters of each length.
static LATER: [(&[u8], usize); 17] = [
    (b"x\xFF", 1),
    (b"1\xFE2\xFF", 1),
    (b"01\x80", 2),
    (b"\"\xC2\x80\xC1\xBF\"", 3),
    (b"\"\xC3\xA9\xFF\"", 3),
    (b"\"\xDF\xBF\xC0\xAF\"", 3),
    (b"\"\xE0\xA0\x80\xE0\x9F\xBF\"", 4),
    (b"\"\xE2\x82\xAC\x80\"", 4),
    (b"\"\xED\x9F\xBF\xED\xA0\x80\"", 4),
    (b"\"\xEE\x80\x80\xED\xBF\xBF\"", 4),
    (b"\"\xF0\x90\x80\x80\xF0\x8F\xBF\xBF\"", 5),
    (b"\"\xF0\x9F\x98\x80\xF0\x9F\"", 5),
    (b"\"\xF4\x8F\xBF\xBF\xF4\x90\x80\x80\"", 5),
    (b"\xEF\xBB\xBF\xFF", 3),
    (b"\xEF\xBB\xBF1\xC3", 4),
    (b"[\xC2\xA0\xC1\xBF]", 3),
    (b"\"a\" \"\xE2\x82\" \xFF", 5),
];

fn is_no_utf8(rt: &impl Abort, alloc: Global, bytes: &[u8], at: usize) {
    let refusal = refusal(alloc, bytes);
    assert!(rt; refusal == Some(JsonRefusal::NotUtf8 { at }), "{bytes:?}");
}

fn between(alloc: Global, before: &str, bytes: &[u8], after: &str) -> Result<Vec<u8>, AllocError> {
    let mut all = before.as_bytes().to_vec(alloc)?;
    all.extend_from_slice(bytes)?;
    all.extend_from_slice(after.as_bytes())?;
    Ok(all)
}

// The sequence at each of the places.
fn is_ill_formed(rt: &impl Abort, alloc: Global, sequence: &[u8]) -> Result<(), AllocError> {
    for (before, after, at) in &PLACES {
        let bytes = between(alloc, before, sequence, after)?;
        is_no_utf8(rt, alloc, &bytes, *at);
    }
    Ok(())
}

#[test]
fn refuses_what_is_no_utf8(rt: HostRuntime) {
    for sequence in &ILL_FORMED {
        is_ill_formed(&rt, rt.alloc(), sequence).expect(&rt, "memory");
    }
    for b in 0x80..=0xFFu8 {
        is_ill_formed(&rt, rt.alloc(), &[b]).expect(&rt, "memory");
    }
    for (bytes, at) in &LATER {
        is_no_utf8(&rt, rt.alloc(), bytes, *at);
    }
    let mut deep = vec![in rt.alloc(); b'['; 257].expect(&rt, "memory");
    deep.push(0xFF).expect(&rt, "memory");
    is_no_utf8(&rt, rt.alloc(), &deep, 257);
}
