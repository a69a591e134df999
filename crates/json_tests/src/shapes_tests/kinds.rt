//! Each reader of a member, at each kind of value.

use json_shapes::{
    Fault, Place, defaulted_items, defaulted_members, defaulted_truth, digits, given_members,
    given_truth, item, members, optional_text, present, required, required_items, required_members,
    required_text, required_truth,
};
use project_json::{Json, Member, read};
use std::alloc::Global;
use std::test::Fail;

// An object with a member of each kind, each named by its kind, and one member of each reader.
static TEXT: &str =
    r#"{"null":null,"truth":true,"number":-1.50,"text":"x","list":[0,1],"object":{"a":0}}"#;

// Which of the members are read by a reader: one letter each, in the order of the kinds, then of an
// absent member; `.` is a fault of its path, `d` a default.
static READ: [(&str, &str); 13] = [
    ("required", "rrrrrr."),
    ("required_text", "...r..."),
    ("required_truth", ".r....."),
    ("required_items", "....r.."),
    ("required_members", ".....r."),
    ("optional_text", "d..r..d"),
    ("defaulted_truth", "dr....d"),
    ("defaulted_items", "d...r.d"),
    ("defaulted_members", "d....rd"),
    ("given_truth", ".r....d"),
    ("given_members", ".....rd"),
    ("present", "drrrrrd"),
    ("digits", "..r...."),
];

static KINDS: [&str; 7] = [
    "null", "truth", "number", "text", "list", "object", "absent",
];

fn read_as(is_default: bool) -> &'static str {
    if is_default { "d" } else { "r" }
}

fn number(alloc: Global, place: &Place, object: &[Member], name: &str) -> Result<bool, Fault> {
    let value = required(alloc, place, object, name)?;
    let digits = digits(alloc, &place.member(name), value)?;
    Ok(digits.as_str() != "-1.50")
}

// Whether the default was taken.
fn taken(
    alloc: Global,
    place: &Place,
    object: &[Member],
    reader: &str,
    name: &str,
) -> Result<bool, Fault> {
    match reader {
        "required" => Ok(required(alloc, place, object, name).map(|_| false)?),
        "required_text" => Ok(required_text(alloc, place, object, name)?.as_str() != "x"),
        "required_truth" => Ok(!required_truth(alloc, place, object, name)?),
        "required_items" => Ok(required_items(alloc, place, object, name)?.is_empty()),
        "required_members" => Ok(required_members(alloc, place, object, name)?.is_empty()),
        "optional_text" => Ok(optional_text(alloc, place, object, name)?.is_none()),
        "defaulted_truth" => Ok(!defaulted_truth(alloc, place, object, name, false)?),
        "defaulted_items" => Ok(defaulted_items(alloc, place, object, name)?.is_empty()),
        "defaulted_members" => Ok(defaulted_members(alloc, place, object, name)?.is_empty()),
        "given_truth" => Ok(!given_truth(alloc, place, object, name, false)?),
        "given_members" => Ok(given_members(alloc, place, object, name)?.is_empty()),
        "present" => Ok(present(object, name).is_none()),
        _ => number(alloc, place, object, name),
    }
}

// A letter for what the reader does with the member; a fault has the member's path.
fn letter(alloc: Global, object: &[Member], reader: &str, name: &str) -> &'static str {
    let place = Place::under("p");
    match taken(alloc, &place, object, reader, name) {
        Ok(is_default) => read_as(is_default),
        Err(Fault::Shape { path }) => {
            if path.as_str().strip_prefix("p/") == Some(name) {
                "."
            } else {
                "?"
            }
        }
        Err(Fault::NoMemory) => "!",
    }
}

#[test]
fn each_reader_takes_its_kind(rt: HostRuntime) -> Result<(), Fail> {
    let json = read(rt.alloc(), TEXT.as_bytes())?;
    let place = Place::root();
    let object = members(rt.alloc(), &place, &json).map_err(|_| "object")?;
    for (reader, want) in &READ {
        let mut told = String::new(rt.alloc());
        for name in &KINDS {
            told.push_str(letter(rt.alloc(), object, reader, name))?;
        }
        assert_eq!(rt; told.as_str(), *want, "{reader}");
    }
    Ok(())
}

fn item_path(alloc: Global, items: &[Json], i: usize) -> Result<bool, Fail> {
    let root = Place::root();
    let list = root.member("list");
    match item(alloc, &list, items, i) {
        Ok(_) => Ok(true),
        Err(Fault::Shape { path }) => Ok(path.as_str() == "found"),
        Err(Fault::NoMemory) => Ok(true),
    }
}

#[test]
fn items_are_found_by_place(rt: HostRuntime) -> Result<(), Fail> {
    let json = read(rt.alloc(), b"[0,1]")?;
    let root = Place::root();
    let items = json_shapes::items(rt.alloc(), &root, &json).map_err(|_| "items")?;
    assert!(rt; item_path(rt.alloc(), items, 0)?);
    assert!(rt; item_path(rt.alloc(), items, 1)?);
    assert!(rt; !item_path(rt.alloc(), items, 2)?);
    let list = root.member("list");
    assert_eq!(rt;
        list.item(18446744073709551615).path(rt.alloc())?.as_str(),
        "list/18446744073709551615"
    );
    assert_eq!(rt; root.path(rt.alloc())?.as_str(), "");
    Ok(())
}
