//! Texts of frames of small projects.

use devices::Devices;
use project_json::read as read_json;
use scratch_values::{BoundText, Value};
use stage_frame::{FrameWriter, View};
use std::process::Abort;
use target_records::{Records, read};
use targets::Targets;
use variables::Variables;

mod instances;
mod monitors;
mod opening;

// A project and the stores of a run of it.
#[derive(Drop)]
pub struct World {
    records: Records,
    targets: Targets,
    variables: Variables,
    devices: Devices,
}

fn records(rt: &(impl Abort + AllocGlobal), project: &str) -> Records {
    assert!(rt; project.len() < 4_000_000_000);
    let document = read_json(rt.alloc(), project.as_bytes()).expect(rt, "a document");
    read(rt.alloc(), &document).expect(rt, "records")
}

// The stores of a run that begins.
fn opened(rt: &(impl Abort + AllocGlobal), project: &str) -> World {
    let records = records(rt, project);
    let targets = Targets::open(rt.alloc(), &records).expect(rt, "memory");
    let variables = Variables::open(rt.alloc(), &records).expect(rt, "memory");
    let devices = Devices::new(rt.alloc()).expect(rt, "memory");
    World {
        records,
        targets,
        variables,
        devices,
    }
}

fn bound(rt: &(impl Abort + AllocGlobal), words: &str) -> BoundText {
    let text = BoundText::from_str(rt.alloc(), words).expect(rt, "memory");
    text.expect(rt, "a short text")
}

fn text_value(rt: &(impl Abort + AllocGlobal), words: &str) -> Value {
    Value::Text(bound(rt, words))
}

// The text of the first frame.
fn told(rt: &(impl Abort + AllocGlobal), world: &World) -> Vec<u8> {
    let view = View {
        frame: 1,
        words: 0,
        targets: &world.targets,
        variables: &world.variables,
        devices: &world.devices,
    };
    let writer = FrameWriter::new(rt.alloc(), &world.records).expect(rt, "memory");
    writer.text(rt.alloc(), &view).expect(rt, "memory")
}

// Whether some bytes stand within others.
fn has(text: &[u8], part: &[u8]) -> bool {
    (0..text.len()).any(|at| text[at..].starts_with(part))
}
