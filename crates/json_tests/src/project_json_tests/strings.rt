//! Strings: what escapes and plain characters stand for.

use super::{at_name, has_members, is_number, is_text, refusal, tree};
use project_json::JsonRefusal;
use std::process::Abort;

// What stands between the quotation marks, and the text that it is.
static TEXTS: [(&str, &str); 81] = [
    ("", ""),
    // The escapes of two characters.
    (r#"\""#, "\""),
    (r"\\", "\\"),
    (r"\/", "/"),
    (r"\b", "\u{8}"),
    (r"\f", "\u{c}"),
    (r"\n", "\n"),
    (r"\r", "\r"),
    (r"\t", "\t"),
    (r"\\n", "\\n"),
    (r"\\\n", "\\\n"),
    (r"a\tb\u0020c", "a\tb c"),
    // Four digits, in capitals or not.
    (r"\u0000", "\u{0}"),
    (r"\u0041", "A"),
    (r"\u00410", "A0"),
    (r"\u00e9", "\u{e9}"),
    (r"\u00E9", "\u{e9}"),
    (r"\uabCd", "\u{abcd}"),
    (r"\uEf09", "\u{ef09}"),
    (r"\u0022", "\""),
    (r"\u005c", "\\"),
    (r"\u005cn", "\\n"),
    (r"\u005C\u0022", "\\\""),
    (r"\\u0041", "\\u0041"),
    (r"\u002f", "/"),
    (r"\u001f", "\u{1f}"),
    (r"\u007f", "\u{7f}"),
    (r"\u0080", "\u{80}"),
    (r"\u07ff", "\u{7ff}"),
    (r"\u0800", "\u{800}"),
    (r"\ud7ff", "\u{d7ff}"),
    (r"\ue000", "\u{e000}"),
    (r"\ufeff", "\u{feff}"),
    (r"\ufffd", "\u{fffd}"),
    (r"\uffff", "\u{ffff}"),
    // Surrogates in pairs.
    (r"\ud83d\ude00", "\u{1f600}"),
    (r"\uD83D\uDE00", "\u{1f600}"),
    (r"\ud800\udc00", "\u{10000}"),
    (r"\ud800\udfff", "\u{103ff}"),
    (r"\udbff\udc00", "\u{10fc00}"),
    (r"\udbff\udfff", "\u{10ffff}"),
    (r"\ud83d\ude00\ud83d\ude01", "\u{1f600}\u{1f601}"),
    // Surrogates without their partners.
    (r"\ud83d", "\u{fffd}"),
    (r"\ude00", "\u{fffd}"),
    (r"\ud800", "\u{fffd}"),
    (r"\udbff", "\u{fffd}"),
    (r"\udc00", "\u{fffd}"),
    (r"\udfff", "\u{fffd}"),
    (r"\ude00\ud83d", "\u{fffd}\u{fffd}"),
    (r"\ud83d\ud83d", "\u{fffd}\u{fffd}"),
    (r"\ude00\ude00", "\u{fffd}\u{fffd}"),
    (r"\ud83dx", "\u{fffd}x"),
    (r"x\ud83d", "x\u{fffd}"),
    (r"\ude00x", "\u{fffd}x"),
    (r"\ud83d\n", "\u{fffd}\n"),
    (r"\ud83d\u0041", "\u{fffd}A"),
    (r"\ud83d\ue000", "\u{fffd}\u{e000}"),
    (r"\ud83d\ud7ff", "\u{fffd}\u{d7ff}"),
    (r"\ud83d\ud83d\ude00", "\u{fffd}\u{1f600}"),
    (r"\ud83d\ude00\ude00", "\u{1f600}\u{fffd}"),
    (r"\ud83d \ude00", "\u{fffd} \u{fffd}"),
    (r"\ud83d\\ude00", "\u{fffd}\\ude00"),
    ("\\ud83d\u{1f600}", "\u{fffd}\u{1f600}"),
    ("\\ud83d\u{e9}", "\u{fffd}\u{e9}"),
    // Plain characters of one to four bytes.
    ("{[,:]}'#//", "{[,:]}'#//"),
    ("\u{7f}", "\u{7f}"),
    ("\u{80}", "\u{80}"),
    ("\u{9f}\u{a0}", "\u{9f}\u{a0}"),
    ("\u{e9}", "\u{e9}"),
    ("e\u{301}", "e\u{301}"),
    ("\u{7ff}", "\u{7ff}"),
    ("\u{800}", "\u{800}"),
    ("\u{20ac}", "\u{20ac}"),
    ("\u{2028}\u{2029}", "\u{2028}\u{2029}"),
    ("\u{d7ff}\u{e000}", "\u{d7ff}\u{e000}"),
    ("\u{feff}", "\u{feff}"),
    ("\u{ffff}", "\u{ffff}"),
    ("\u{10000}", "\u{10000}"),
    ("\u{1f600}", "\u{1f600}"),
    ("\u{10ffff}", "\u{10ffff}"),
    ("a\u{e9}\u{20ac}\u{1f600}z", "a\u{e9}\u{20ac}\u{1f600}z"),
];

// The string is read as the text, by itself and as a name.
fn is_read_as(rt: &(impl Abort + AllocGlobal), inner: &str, want: &str) {
    let string = format!(in rt.alloc(); "\"{inner}\"").expect(rt, "memory");
    is_text(rt, &tree(rt, string.as_str()), want);
    let object = format!(in rt.alloc(); "{{{}:0}}", string.as_str()).expect(rt, "memory");
    let json = tree(rt, object.as_str());
    has_members(rt, &json, 1);
    is_number(rt, at_name(rt, &json, want), "0");
}

#[test]
fn reads_strings(rt: HostRuntime) {
    for (inner, want) in &TEXTS {
        is_read_as(&rt, inner, want);
    }
}

// A character stands in a string as itself, unless it is a control character below U+0020, a
// quotation mark or a backslash.
#[test]
fn control_characters_stop_strings(rt: HostRuntime) {
    let stopped = Some(JsonRefusal::Syntax { at: 2 });
    for b in 0..0x80u8 {
        let string = refusal(rt.alloc(), &[b'"', b'a', b, b'"']);
        let name = refusal(rt.alloc(), &[b'{', b'"', b, b'"', b':', b'0', b'}']);
        if b < 0x20 {
            assert!(rt; string == stopped && name == stopped, "{b}");
        } else if b != b'"' && b != b'\\' {
            assert!(rt; string == None && name == None, "{b}");
        }
    }
}

#[test]
fn each_plain_character_stands_for_itself(rt: HostRuntime) {
    for b in 0x20..0x80u8 {
        if b != b'"' && b != b'\\' {
            let inner = format!(in rt.alloc(); "a{}", b as char).expect(&rt, "memory");
            is_read_as(&rt, inner.as_str(), inner.as_str());
        }
    }
}
