//! The monitors of a file.

ghost use Rattle.std.specs.Prelude.{◌≡◌, map, codes, option_map};
ghost use Rattle.project_json.specs.Tree.{object, no_fields};
ghost use Rattle.project_json.specs.View.{tree, field};
ghost use Rattle.project_spec.specs.Targets as told;
ghost use Rattle.json_shapes.specs.Reads.{Reads};
ghost use Rattle.json_shapes.specs.Shapes as shape;
ghost use Rattle.target_records.specs.Reading.{monitors_of};
ghost use Rattle.target_records.specs.Records.{monitor_in};

use json_shapes::{
    Fault, Place, defaulted_items, defaulted_truth, members, optional_text, present, required_text,
};
use lists::ListOf;
use project_json::{Json, Member, Text, read};
use std::alloc::Global;

/// A monitor of the file: what it shows, of which sprite, and whether it is shown. `params` is an object of the document.
#[derive(Debug, Drop)]
pub struct MonitorRecord {
    pub id: Text,
    pub opcode: Text,
    pub sprite: Option<Text>,
    pub visible: bool,
    pub params: Json,
}

/// The monitors of a file, in its order.
pub type Monitors = ListOf<MonitorRecord>;

fn sprite(alloc: Global, place: &Place, members: &[Member]) -> Result<Option<Text>, Fault>
    ensures { Reads (λ t. t) result (shape.optional shape.text (codes "spriteName") place.now (map field members.now)) }
{
    match optional_text(alloc, place, members, "spriteName")? {
        Some(name) => Ok(Some(name.clone()?)),
        None => Ok(None),
    }
}

// A copy of an object.
fn object(alloc: Global, place: &Place, json: &Json) -> Result<Json, Fault>
    ensures { Reads tree result (told.object_of place.now (tree json.now)) }
{
    let _ = members(alloc, place, json)?;
    Ok(json.clone()?)
}

// The object with no members.
fn empty_object(alloc: Global) -> Result<Json, Fault>
    ensures { Reads tree result (Ok (object no_fields)) }
{
    match read(alloc, b"{}") {
        Ok(json) => Ok(json),
        Err(_) => Err(Fault::NoMemory),
    }
}

fn params(alloc: Global, place: &Place, members: &[Member]) -> Result<Json, Fault>
    ensures { Reads tree result (shape.defaulted told.object_of (object no_fields) (codes "params") place.now (map field members.now)) }
{
    match present(members, "params") {
        Some(value) => object(alloc, &place.member("params"), value),
        None => empty_object(alloc),
    }
}

fn monitor_by(alloc: Global, place: &Place, members: &[Member]) -> Result<MonitorRecord, Fault>
    ensures { Reads monitor_in result (told.monitor_members place.now (map field members.now)) }
{
    let id = required_text(alloc, place, members, "id")?.clone()?;
    let opcode = required_text(alloc, place, members, "opcode")?.clone()?;
    let sprite = sprite(alloc, place, members)?;
    let visible = defaulted_truth(alloc, place, members, "visible", false)?;
    let params = params(alloc, place, members)?;
    Ok(MonitorRecord {
        id,
        opcode,
        sprite,
        visible,
        params,
    })
}

fn monitor(alloc: Global, place: &Place, json: &Json) -> Result<MonitorRecord, Fault>
    ensures { Reads monitor_in result (told.monitor_of place.now (tree json.now)) }
{
    let members = members(alloc, place, json)?;
    monitor_by(alloc, place, members)
}

fn each_monitor(alloc: Global, place: &Place, items: &[Json]) -> Result<Monitors, Fault>
    ensures { Reads (λ ms. map monitor_in ms) result (shape.each told.monitor_of place.now (map tree items.now)) }
{
    let mut monitors = ListOf::new(alloc);
    for (i, item) in items.iter().enumerate() {
        let monitor = monitor(alloc, &place.item(i), item)?;
        monitors.push(monitor)?;
    }
    Ok(monitors)
}

/// The monitors of a file, by the members of its document, which stands at the place: its `monitors`, none where that is
/// absent or null. Where a value has not its shape, the fault tells the path of the first (Scratch 3 project file format;
/// scratch-vm, serialization/sb3.js, deserializeMonitor).
pub fn read_monitors(alloc: Global, place: &Place, members: &[Member]) -> Result<Monitors, Fault>
    ensures { Reads (λ ms. map monitor_in ms) result (monitors_of place.now (map field members.now)) }
{
    let items = defaulted_items(alloc, place, members, "monitors")?;
    each_monitor(alloc, &place.member("monitors"), items)
}
