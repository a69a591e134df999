//! Nesting: 256 is read, and 257 is refused where it opens.

use super::refusal;
use project_json::JsonRefusal::{self, Syntax, TooDeep};
use std::alloc::{AllocError, Global};

// Three pieces of a text, each with the number of its copies, and why the text is refused.
type Row = (Piece, Piece, Piece, Option<JsonRefusal>);

type Piece = (&'static str, usize);

static ROWS: [Row; 47] = [
    (("[", 1), ("", 0), ("]", 1), None),
    (("[", 256), ("", 0), ("]", 256), None),
    (("[ ", 256), ("1, null", 1), ("\n]", 256), None),
    (("{\"a\":", 256), ("1", 1), ("}", 256), None),
    (("{\"a\":", 256), ("1,\"b\":2", 1), ("}", 256), None),
    (("{\"a\":", 255), ("{}", 1), ("}", 255), None),
    (("[{\"a\":", 128), ("\"b\"", 1), ("}]", 128), None),
    (("{\"a\":[", 128), ("true", 1), ("]}", 128), None),
    // What is closed again, and what stands in a string, does not count.
    (("[", 1), ("[],", 300), ("{}]", 1), None),
    (("[", 255), ("{},{},[],[]", 1), ("]", 255), None),
    (("[[],", 200), ("0", 1), ("]", 200), None),
    (("[[],", 255), ("[]", 1), ("]", 255), None),
    (("[\"", 1), ("[", 300), ("\"]", 1), None),
    (("[", 256), ("\"[[{{\"", 1), ("]", 256), None),
    (("{\"{[\":", 256), ("0", 1), ("}", 256), None),
    // Nesting 257.
    (("[", 257), ("", 0), ("]", 257), Some(TooDeep { at: 256 })),
    (("[", 257), ("", 0), ("", 0), Some(TooDeep { at: 256 })),
    (("[", 300), ("1", 1), ("]", 300), Some(TooDeep { at: 256 })),
    (("[", 100_000), ("", 0), ("", 0), Some(TooDeep { at: 256 })),
    (
        ("[ ", 257),
        ("1", 1),
        (" ]", 257),
        Some(TooDeep { at: 512 }),
    ),
    (
        ("{\"a\":", 257),
        ("1", 1),
        ("}", 257),
        Some(TooDeep { at: 1280 }),
    ),
    (
        ("{\"a\":", 256),
        ("{}", 1),
        ("}", 256),
        Some(TooDeep { at: 1280 }),
    ),
    (
        ("{\"a\":", 256),
        (" [", 1),
        ("", 0),
        Some(TooDeep { at: 1281 }),
    ),
    (
        ("[{\"a\":", 129),
        ("1", 1),
        ("}]", 129),
        Some(TooDeep { at: 768 }),
    ),
    (("[", 256), ("{", 1), ("", 0), Some(TooDeep { at: 256 })),
    (
        ("[", 256),
        ("1, []", 1),
        ("]", 256),
        Some(TooDeep { at: 259 }),
    ),
    (
        ("[", 255),
        ("[],[[]]", 1),
        ("]", 255),
        Some(TooDeep { at: 259 }),
    ),
    (("[[],", 256), ("[", 1), ("", 0), Some(TooDeep { at: 1021 })),
    (
        ("[\"[\",", 256),
        ("[", 1),
        ("", 0),
        Some(TooDeep { at: 1280 }),
    ),
    (
        ("[", 256),
        ("]", 255),
        (",[0", 300),
        Some(TooDeep { at: 1277 }),
    ),
    (
        ("[", 256),
        ("]", 255),
        (",[0", 255),
        Some(Syntax { at: 1276 }),
    ),
    // A fault before nesting 257.
    (("[", 1), ("x", 1), ("[", 300), Some(Syntax { at: 1 })),
    (("{", 300), ("", 0), ("", 0), Some(Syntax { at: 1 })),
    (("[", 200), ("1,,", 1), ("[", 300), Some(Syntax { at: 202 })),
    (("[", 255), ("1", 1), ("[", 300), Some(Syntax { at: 256 })),
    // A fault where nesting 257 would open, or behind nesting 256.
    (("[", 256), ("", 0), ("", 0), Some(Syntax { at: 256 })),
    (("[", 256), ("x", 1), ("", 0), Some(Syntax { at: 256 })),
    (("[", 256), (",", 1), ("[", 1), Some(Syntax { at: 256 })),
    (("[", 256), ("1", 1), ("[", 1), Some(Syntax { at: 257 })),
    (("[", 256), ("]", 1), ("[", 1), Some(Syntax { at: 257 })),
    (("[", 256), ("]", 257), ("", 0), Some(Syntax { at: 512 })),
    (
        ("{\"a\":", 256),
        ("}", 256),
        ("", 0),
        Some(Syntax { at: 1280 }),
    ),
    (
        ("{\"a\":", 256),
        ("1", 1),
        ("]", 256),
        Some(Syntax { at: 1281 }),
    ),
    // A fault behind nesting 257.
    (("[", 257), ("x", 1), ("", 0), Some(TooDeep { at: 256 })),
    (("[", 257), ("1", 1), ("}", 1), Some(TooDeep { at: 256 })),
    (
        ("{\"a\":", 257),
        ("}", 1),
        ("", 0),
        Some(TooDeep { at: 1280 }),
    ),
    (
        ("[", 257),
        ("\"\u{1}", 1),
        ("", 0),
        Some(TooDeep { at: 256 }),
    ),
];

fn joined(alloc: Global, pieces: &[(&str, usize)]) -> Result<String, AllocError> {
    let mut text = String::new(alloc);
    for (piece, count) in pieces {
        for _ in 0..*count {
            text.push_str(piece)?;
        }
    }
    Ok(text)
}

#[test]
fn nests_256_deep(rt: HostRuntime) {
    for (first, second, third, want) in &ROWS {
        let text = joined(rt.alloc(), &[*first, *second, *third]).expect(&rt, "memory");
        let refusal = refusal(rt.alloc(), text.as_bytes());
        assert!(rt; refusal == *want, "{first:?} {second:?} {third:?}");
    }
}
