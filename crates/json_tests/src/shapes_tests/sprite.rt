//! A reader of a sprite with costumes.

ghost use Rattle.std.specs.Prelude.{◌≡◌, map, codes};
ghost use Rattle.project_json.specs.View.{tree, field};
ghost use Rattle.json_shapes.specs.Shapes.{each, each_member, optional};
ghost use Rattle.json_shapes.specs.Shapes as shape;
ghost use Rattle.json_shapes.specs.Example.{costume_of, costumes_of, variable_of, variables_of, sprite_of};
ghost use Rattle.json_shapes.specs.Reads.{Reads};

use json_shapes::{
    Fault, Place, defaulted_members, defaulted_truth, item_text, items, members, optional_text,
    required, required_text,
};
use project_json::{Json, Member, Text, read};
use std::alloc::Global;
use std::process::Abort;
use std::test::Fail;

type Costume = (Text, Option<Text>);

type Variable = (Text, Text);

type Sprite = (Text, Vec<Costume>, Vec<Variable>, bool);

fn size_of(alloc: Global, place: &Place, members: &[Member]) -> Result<Option<Text>, Fault>
    ensures { Reads (λ t. t) result (optional shape.text (codes "size") place.now (map field members.now)) }
{
    match optional_text(alloc, place, members, "size")? {
        Some(size) => Ok(Some(size.clone()?)),
        None => Ok(None),
    }
}

fn costume(alloc: Global, place: &Place, json: &Json) -> Result<Costume, Fault>
    ensures { Reads (λ c. c) result (costume_of place.now (tree json.now)) }
{
    let members = members(alloc, place, json)?;
    let name = required_text(alloc, place, members, "name")?.clone()?;
    let size = size_of(alloc, place, members)?;
    Ok((name, size))
}

fn each_costume(alloc: Global, place: &Place, items: &[Json]) -> Result<Vec<Costume>, Fault>
    ensures { Reads (λ v. v.items) result (each costume_of place.now (map tree items.now)) }
{
    let mut costumes = Vec::new(alloc);
    for (i, item) in items.iter().enumerate() {
        let costume = costume(alloc, &place.item(i), item)?;
        costumes.push(costume)?;
    }
    Ok(costumes)
}

fn costumes(alloc: Global, place: &Place, json: &Json) -> Result<Vec<Costume>, Fault>
    ensures { Reads (λ v. v.items) result (costumes_of place.now (tree json.now)) }
{
    let items = items(alloc, place, json)?;
    each_costume(alloc, place, items)
}

fn variable(alloc: Global, place: &Place, member: &Member) -> Result<Variable, Fault>
    ensures { Reads (λ v. v) result (variable_of place.now (field member.now)) }
{
    let place = place.member(member.name().as_str());
    let items = items(alloc, &place, member.value())?;
    let name = item_text(alloc, &place, items, 0)?.clone()?;
    let id = member.name().clone()?;
    Ok((id, name))
}

fn each_variable(alloc: Global, place: &Place, members: &[Member]) -> Result<Vec<Variable>, Fault>
    ensures { Reads (λ v. v.items) result (each_member variable_of place.now (map field members.now)) }
{
    let mut variables = Vec::new(alloc);
    for member in members {
        let variable = variable(alloc, place, member)?;
        variables.push(variable)?;
    }
    Ok(variables)
}

fn variables(alloc: Global, place: &Place, members: &[Member]) -> Result<Vec<Variable>, Fault>
    ensures { Reads (λ v. v.items) result (variables_of place.now (map field members.now)) }
{
    let held = defaulted_members(alloc, place, members, "variables")?;
    each_variable(alloc, &place.member("variables"), held)
}

fn sprite(alloc: Global, place: &Place, json: &Json) -> Result<Sprite, Fault>
    ensures { Reads (λ s. (s.0, s.1.items, s.2.items, s.3)) result (sprite_of place.now (tree json.now)) }
{
    let members = members(alloc, place, json)?;
    let name = required_text(alloc, place, members, "name")?.clone()?;
    let list = required(alloc, place, members, "costumes")?;
    let costumes = costumes(alloc, &place.member("costumes"), list)?;
    let variables = variables(alloc, place, members)?;
    let visible = defaulted_truth(alloc, place, members, "visible", true)?;
    Ok((name, costumes, variables, visible))
}

// What a text tells: the path of its fault, or the names and sizes.
fn told(rt: &impl Abort, alloc: Global, place: &Place, text: &str) -> Result<String, Fail> {
    let json = read(alloc, text.as_bytes())?;
    match sprite(alloc, place, &json) {
        Ok((name, costumes, variables, visible)) => {
            let mut told = format!(in alloc; "{visible} {}", name.as_str())?;
            for (name, size) in &costumes {
                told.push_str(" ")?;
                told.push_str(name.as_str())?;
                if let Some(size) = size {
                    told.push_str("=")?;
                    told.push_str(size.as_str())?;
                }
            }
            for (id, name) in &variables {
                told.push_str(" ")?;
                told.push_str(id.as_str())?;
                told.push_str(":")?;
                told.push_str(name.as_str())?;
            }
            Ok(told)
        }
        Err(Fault::Shape { path }) => Ok(format!(in alloc; "at {}", path.as_str())?),
        Err(Fault::NoMemory) => panic!(rt; "memory"),
    }
}

static ROWS: [(&str, &str); 21] = [
    (r#"{"name":"Cat","costumes":[]}"#, "true Cat"),
    (
        r#"{"costumes":[{"name":"a","size":"2"},{"size":null,"name":"b"}],"visible":false,"name":"Cat"}"#,
        "false Cat a=2 b",
    ),
    (r#"{"name":"Cat","costumes":[],"visible":null}"#, "true Cat"),
    // The whole has the empty path.
    ("[]", "at "),
    ("null", "at "),
    ("{}", "at name"),
    (r#"{"name":null}"#, "at name"),
    (r#"{"name":"Cat"}"#, "at costumes"),
    (r#"{"name":"Cat","costumes":{}}"#, "at costumes"),
    (r#"{"name":"Cat","costumes":[1]}"#, "at costumes/0"),
    (r#"{"name":"Cat","costumes":[{}]}"#, "at costumes/0/name"),
    (
        r#"{"name":"Cat","costumes":[{"name":"a"},{"name":"b","size":1}]}"#,
        "at costumes/1/size",
    ),
    (
        r#"{"name":"Cat","costumes":[],"variables":{"w":["b",2],"":["a"]}}"#,
        "true Cat w:b :a",
    ),
    (
        r#"{"name":"Cat","costumes":[],"variables":[]}"#,
        "at variables",
    ),
    (
        r#"{"name":"Cat","costumes":[],"variables":{"w":"b"}}"#,
        "at variables/w",
    ),
    (
        r#"{"name":"Cat","costumes":[],"variables":{"v":["a"],"w":[]}}"#,
        "at variables/w/0",
    ),
    (
        r#"{"name":"Cat","costumes":[],"variables":{"a/b":[null]}}"#,
        "at variables/a/b/0",
    ),
    // The first in the order of reading is told.
    (
        r#"{"visible":1,"costumes":[{"size":1},1],"name":"Cat"}"#,
        "at costumes/0/name",
    ),
    (r#"{"visible":1,"costumes":0,"name":0}"#, "at name"),
    (
        r#"{"visible":"true","costumes":[],"name":""}"#,
        "at visible",
    ),
    (
        r#"{"name":"Cat","costumes":[{"name":"a"},{"name":"b"},{"name":"c"},{"name":"d"},{"name":"e"},{"name":"f"},{"name":"g"},{"name":"h"},{"name":"i"},{"name":"j"},{"name":"k","size":{}}]}"#,
        "at costumes/10/size",
    ),
];

#[test]
fn a_sprite_is_read_or_its_first_fault_is_told(rt: HostRuntime) -> Result<(), Fail> {
    for (text, want) in &ROWS {
        let told = told(&rt, rt.alloc(), &Place::root(), text)?;
        assert_eq!(rt; told.as_str(), *want, "{text}");
    }
    Ok(())
}

#[test]
fn a_path_goes_on_from_the_place_of_the_whole(rt: HostRuntime) -> Result<(), Fail> {
    let text = r#"{"name":"Cat","costumes":[{"name":0}]}"#;
    let told = told(&rt, rt.alloc(), &Place::under("targets/3"), text)?;
    assert_eq!(rt; told.as_str(), "at targets/3/costumes/0/name");
    Ok(())
}
