//! Reads JSON texts.

ghost use Rattle.std.specs.Prelude.{◌≡◌, ◌<◌, ◌≤◌, map, [], length, Result, IfOk, IfErr, IsFalse, MatchResult};
ghost use Rattle.project_json.specs.Reading.{Gives, Utf8, value_with, value_at, skip, opened_at, list_below, item_at, items_at, object_below, member_at, members_at, text_of};
ghost use Rattle.project_json.specs.Refusal.{IsFault, IsCause, IsOrNoMemory};
ghost use Rattle.project_json.specs.Size.{size_of};
ghost use Rattle.project_json.specs.Text.{IsText, max_depth};
ghost use Rattle.project_json.specs.Tree.{Tree};
ghost use Rattle.project_json.specs.View.{tree, field};

use crate::json::{Items, Json, Member, Members};
use crate::member_list::MemberList;
use crate::numbers::number_of;
use crate::refusal::JsonRefusal;
use crate::scanner::{after_word, mark, skip};
use crate::stop::Stop;
use crate::strings::{chars_of, name_of};
use crate::text::Text;
use std::alloc::Global;

/// How deep the brackets and braces of a document may nest.
const MAX_DEPTH: u32 = 256;

// A value, with at most so many brackets open at once, and the bytes after it.
#[cycle(value)]
#[tactic(auto, using(crate::proofs::Lists::depth_rules), unfolding(crate::specs::Reading::number_at, crate::specs::Reading::chars_at))]
fn value(alloc: Global, depth: u32, bytes: &[u8]) -> Result<(Json, &[u8]), Stop>
    requires { Utf8 bytes.now }
    ensures { Gives (λ x. (tree x.0, x.1.now)) result (value_with (list_below depth) (object_below depth) bytes.now) }
{
    match bytes {
        [b'n', rest @ ..] => {
            let rest = after_word(rest, b"ull")?;
            Ok((Json::Null, rest))
        }
        [b't', rest @ ..] => {
            let rest = after_word(rest, b"rue")?;
            Ok((Json::Truth(true), rest))
        }
        [b'f', rest @ ..] => {
            let rest = after_word(rest, b"alse")?;
            Ok((Json::Truth(false), rest))
        }
        [b'"', rest @ ..] => {
            let (text, rest) = chars_of(alloc, rest)?;
            Ok((Json::Text(text), rest))
        }
        [b'[', rest @ ..] => {
            let (items, rest) = list(alloc, depth, rest)?;
            Ok((Json::List(Items::new(items)), rest))
        }
        [b'{', rest @ ..] => {
            let (members, rest) = object(alloc, depth, rest)?;
            Ok((Json::Object(Members::new(members)), rest))
        }
        _ => number_of(alloc, bytes),
    }
}

// Behind an opening bracket, with at most so many open at once: whether the closing one stands there,
// and the bytes after it, else those after the blanks.
#[tactic(auto, using(crate::proofs::Lists::opened_rules))]
fn opened(depth: u32, close: u8, bytes: &[u8]) -> Result<(bool, &[u8]), Stop>
    ensures gives { Gives (λ x. (x.0, x.1.now)) result (opened_at depth close bytes.now) }
    ensures within { IfOk result (λ _. 0 < depth) }
    ensures skipped { IfOk result (λ x. IsFalse x.0 → x.1.now ≡ skip bytes.now) }
{
    if depth == 0 {
        return Err(Stop::TooDeep {
            left: bytes.len() + 1,
        });
    }
    let bytes = skip(bytes);
    match bytes {
        [] => Err(Stop::Syntax { left: 0 }),
        [b, rest @ ..] => {
            if *b == close {
                Ok((true, rest))
            } else {
                Ok((false, bytes))
            }
        }
    }
}

// The items behind an opening bracket.
#[cycle(value)]
#[tactic(auto, using(crate::proofs::Lists::depth_rules))]
fn list(alloc: Global, depth: u32, bytes: &[u8]) -> Result<(Vec<Json>, &[u8]), Stop>
    requires { Utf8 bytes.now }
    ensures { Gives (λ x. (map tree x.0.items, x.1.now)) result (list_below depth bytes.now) }
{
    let (is_empty, rest) = opened(depth, b']', bytes)?;
    if is_empty {
        return Ok((Vec::new(alloc), rest));
    }
    items(alloc, depth - 1, rest)
}

// An item, and whether another follows.
#[cycle(value)]
#[tactic(auto, using(crate::proofs::Lists::depth_rules), unfolding(crate::specs::Reading::item_at))]
fn item(alloc: Global, depth: u32, bytes: &[u8]) -> Result<((Json, bool), &[u8]), Stop>
    requires { Utf8 bytes.now }
    ensures { Gives (λ x. ((tree x.0.0, x.0.1), x.1.now)) result (item_at (value_at depth) bytes.now) }
{
    let (item, rest) = value(alloc, depth, skip(bytes))?;
    let (has_more, rest) = mark(skip(rest), b']')?;
    Ok(((item, has_more), rest))
}

// One item or more.
#[cycle(value)]
#[tactic(auto, using(crate::proofs::Lists::items_rules))]
fn items(alloc: Global, depth: u32, bytes: &[u8]) -> Result<(Vec<Json>, &[u8]), Stop>
    requires { Utf8 bytes.now }
    ensures { Gives (λ x. (map tree x.0.items, x.1.now)) result (items_at (value_at depth) (length bytes.now) bytes.now) }
{
    let mut items = Vec::new(alloc);
    let mut rest = bytes;
    for _ in 0..bytes.len() {
        let ((item, has_more), after) = item(alloc, depth, rest)?;
        items.push(item)?;
        if !has_more {
            return Ok((items, after));
        }
        rest = after;
    }
    Err(Stop::Syntax { left: rest.len() })
}

// The members behind an opening brace.
#[cycle(value)]
#[tactic(auto, using(crate::proofs::Lists::depth_rules))]
fn object(alloc: Global, depth: u32, bytes: &[u8]) -> Result<(Vec<Member>, &[u8]), Stop>
    requires { Utf8 bytes.now }
    ensures { Gives (λ x. (map field x.0.items, x.1.now)) result (object_below depth bytes.now) }
{
    let (is_empty, rest) = opened(depth, b'}', bytes)?;
    if is_empty {
        return Ok((Vec::new(alloc), rest));
    }
    members(alloc, depth - 1, rest)
}

// A member, and whether another follows.
#[cycle(value)]
#[tactic(auto, using(crate::proofs::Lists::depth_rules), unfolding(crate::specs::Reading::member_at))]
fn member(alloc: Global, depth: u32, bytes: &[u8]) -> Result<((Text, Json, bool), &[u8]), Stop>
    requires { Utf8 bytes.now }
    ensures { Gives (λ x. (((x.0.0, tree x.0.1), x.0.2), x.1.now)) result (member_at (value_at depth) bytes.now) }
{
    let (name, rest) = name_of(alloc, skip(bytes))?;
    let (value, rest) = value(alloc, depth, skip(rest))?;
    let (has_more, rest) = mark(skip(rest), b'}')?;
    Ok(((name, value, has_more), rest))
}

// One member or more.
#[cycle(value)]
#[tactic(auto, using(crate::proofs::Lists::members_rules))]
fn members(alloc: Global, depth: u32, bytes: &[u8]) -> Result<(Vec<Member>, &[u8]), Stop>
    requires { Utf8 bytes.now }
    ensures { Gives (λ x. (map field x.0.items, x.1.now)) result (members_at (value_at depth) (length bytes.now) [] bytes.now) }
{
    let mut list = MemberList::new(alloc);
    let mut rest = bytes;
    for _ in 0..bytes.len() {
        let ((name, value, has_more), after) = member(alloc, depth, rest)?;
        list = list.put(alloc, name, value)?;
        if !has_more {
            return Ok((list.into_members(), after));
        }
        rest = after;
    }
    Err(Stop::Syntax { left: rest.len() })
}

// The whole bytes as one value with blanks round it.
#[tactic(auto, using(crate::proofs::Lists::text_rules))]
fn text(alloc: Global, bytes: &[u8]) -> Result<Json, Stop>
    requires { Utf8 bytes.now }
    ensures { Gives tree result (text_of max_depth bytes.now) }
{
    let (value, rest) = value(alloc, MAX_DEPTH, skip(bytes))?;
    let rest = skip(rest);
    if !rest.is_empty() {
        return Err(Stop::Syntax { left: rest.len() });
    }
    Ok(value)
}

// Reads one JSON text of UTF-8.
fn of_utf8(alloc: Global, bytes: &[u8]) -> Result<Json, JsonRefusal>
    requires { Utf8 bytes.now }
    ensures found { IfOk result (λ t. IsText max_depth bytes.now (tree t)) }
    ensures only { (t : Tree) → IsText max_depth bytes.now t → MatchResult result (λ read. tree read ≡ t) (λ e. e ≡ JsonRefusal.NoMemory) }
    ensures refused { IfErr result (IsCause max_depth bytes.now) }
    ensures faulty { (r : JsonRefusal) → IsFault max_depth bytes.now r → MatchResult result (λ _. ⊥) (IsOrNoMemory r) }
    ensures small { IfOk result (λ t. size_of (tree t) ≤ length bytes.now) }
{
    let length = bytes.len();
    match text(alloc, bytes) {
        Ok(json) => Ok(json),
        Err(Stop::Syntax { left }) => Err(JsonRefusal::Syntax { at: length - left }),
        Err(Stop::TooDeep { left }) => Err(JsonRefusal::TooDeep { at: length - left }),
        Err(Stop::NoMemory) => Err(JsonRefusal::NoMemory),
    }
}

/// Reads a JSON text (RFC 8259) in UTF-8 whose brackets and braces nest at most 256 deep. A number
/// keeps its own text. An escaped surrogate without its partner is U+FFFD. A byte order mark is no
/// white space. A repeated name keeps its earlier place and takes the later value.
///
/// Unless memory runs out, `NotUtf8` comes exactly where the bytes are no UTF-8; else `Syntax` or
/// `TooDeep`, whichever is nearer the front, exactly where they are no such text. Each names its
/// place in bytes.
pub fn read(alloc: Global, bytes: &[u8]) -> Result<Json, JsonRefusal>
    // What is read is a JSON text of that tree.
    ensures found { IfOk result (λ t. IsText max_depth bytes.now (tree t)) }
    // A JSON text is read as its tree, unless memory runs out.
    ensures only { (t : Tree) → IsText max_depth bytes.now t → MatchResult result (λ read. tree read ≡ t) (λ e. e ≡ JsonRefusal.NoMemory) }
    // A refusal tells a fault of the bytes at its place, or want of memory.
    ensures refused { IfErr result (IsCause max_depth bytes.now) }
    // Bytes with a fault are refused for it, unless memory runs out.
    ensures faulty { (r : JsonRefusal) → IsFault max_depth bytes.now r → MatchResult result (λ _. ⊥) (IsOrNoMemory r) }
    // A tree has no more members and items than its text has bytes.
    ensures small { IfOk result (λ t. size_of (tree t) ≤ length bytes.now) }
{
    match str::from_utf8(bytes) {
        Ok(_) => of_utf8(alloc, bytes),
        Err(e) => Err(JsonRefusal::NotUtf8 {
            at: e.valid_up_to(),
        }),
    }
}
