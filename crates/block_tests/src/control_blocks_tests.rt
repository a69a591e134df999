//! What no clause says: blocks on a stage and two sprites, and worked rows.

use cached_blocks::{CachedBlock, CachedFields, CachedInputs};
use control_blocks::apply;
use devices::Devices;
use machine_spec::{Context, Control, InstanceId, Serial};
use opcode_table::Opcode;
use project_check::{Project, load};
use project_json::Text;
use scratch_number::of_millionths;
use scratch_values::{Arg, Args, BoundText, Held, ResolvedField, Value};
use std::process::Abort;
use targets::Targets;
use thread_frames::Threads;

mod branches;
mod others;
mod waits;

static PROJECT: &str =
    r#"{"targets":[{"isStage":true,"name":"Stage","costumes":[{"name":"b"}],"blocks":{}},{"isStage":false,"name":"Ann","costumes":[{"name":"c"}],"layerOrder":1,"blocks":{"p":{"opcode":"procedures_prototype","shadow":true,"mutation":{"proccode":"jump","argumentids":"[\"i\",\"j\"]","argumentnames":"[\"height\",\"times\"]","argumentdefaults":"[\"10\",\"2\"]","warp":"false"}},"d":{"opcode":"procedures_definition","topLevel":true,"inputs":{"custom_block":[1,"p"]}}}},{"isStage":false,"name":"Ben","visible":false,"costumes":[{"name":"c"}],"layerOrder":2,"blocks":{}}]}"#;

const STAGE: InstanceId = InstanceId(0);

const ANN: InstanceId = InstanceId(1);

const BEN: InstanceId = InstanceId(2);

// A value as a table writes it.
#[derive(Clone, Copy, Debug)]
pub enum Given {
    // So many millionths.
    Of(i64),
    Truth(bool),
    Text(&'static str),
}

// What the blocks of a run see and change.
#[derive(Drop)]
pub struct World {
    project: Project,
    targets: Targets,
    devices: Devices,
    threads: Threads,
}

fn loaded(rt: &(impl Abort + AllocGlobal)) -> Project {
    assert!(rt; PROJECT.len() < 4_000_000_000);
    match load(rt.alloc(), PROJECT.as_bytes()) {
        Ok(project) => project,
        Err(_) => panic!(rt; "refused"),
    }
}

fn opened(rt: &(impl Abort + AllocGlobal)) -> World {
    let project = loaded(rt);
    let targets = Targets::open(rt.alloc(), project.records()).expect(rt, "memory");
    World {
        project,
        targets,
        devices: Devices::new(rt.alloc()).expect(rt, "memory"),
        threads: Threads::new(rt.alloc()).expect(rt, "memory"),
    }
}

fn value(rt: &(impl Abort + AllocGlobal), given: Given) -> Value {
    match given {
        Given::Of(millionths) => Value::Number(of_millionths(millionths as i128)),
        Given::Truth(truth) => Value::Truth(truth),
        Given::Text(text) => {
            let text = BoundText::from_str(rt.alloc(), text).expect(rt, "memory");
            Value::Text(text.expect(rt, "a short text"))
        }
    }
}

// A block that calls `jump`, where it is a call.
fn block(rt: &(impl Abort + AllocGlobal), op: Opcode) -> CachedBlock {
    CachedBlock {
        op,
        inputs: CachedInputs::new(rt.alloc()),
        in_order: true,
        fields: CachedFields::new(rt.alloc()),
        next: None,
        first: None,
        second: None,
        code: Text::from_str(rt.alloc(), "jump").expect(rt, "memory"),
    }
}

// The field STOP_OPTION, with this text.
fn stop_option(rt: &(impl Abort + AllocGlobal), text: &str) -> Vec<ResolvedField> {
    let mut fields = Vec::new(rt.alloc());
    let field = ResolvedField {
        name: Text::from_str(rt.alloc(), "STOP_OPTION").expect(rt, "memory"),
        text: Text::from_str(rt.alloc(), text).expect(rt, "memory"),
        variable: None,
    };
    fields.push(field).expect(rt, "memory");
    fields
}

// Executes a block of an instance with this input, in the thread 7.
fn executed(
    rt: &(impl Abort + AllocGlobal),
    world: &mut World,
    op: Opcode,
    here: InstanceId,
    (name, given): (&str, Given),
    context: &mut Context,
) -> (Control, bool) {
    let fields = match given {
        Given::Text(text) => stop_option(rt, text),
        _ => stop_option(rt, ""),
    };
    let name = Text::from_str(rt.alloc(), name).expect(rt, "memory");
    let value = value(rt, given);
    let input = Arg {
        name: &name,
        value: Held::Lent(&value),
    };
    let args = Args::one(&fields, input);
    let block = block(rt, op);
    let row = apply(
        rt.alloc(),
        &block,
        &args,
        here,
        Serial(7),
        &world.project,
        &mut world.targets,
        &mut world.devices,
        &world.threads,
        context,
    );
    row.expect(rt, "no stop")
}

// What a control does, in a word.
fn word(control: &Control) -> &'static str {
    match control {
        Control::Next => "next",
        Control::Branch { number, is_loop } => branch_word(*number, *is_loop),
        Control::Yield => "yield",
        Control::YieldTick => "tick",
        Control::Promise => "promise",
        Control::Call {
            definition: _,
            params: _,
        } => "call",
        Control::StopThis => "this",
        Control::StopOthers => "others",
        Control::StopAll => "all",
        Control::DeleteClone => "delete",
        Control::Start { hats: _, wait } => start_word(*wait),
        Control::Clone { of } => clone_word(*of),
    }
}

fn branch_word(number: u8, is_loop: bool) -> &'static str {
    if is_loop {
        return "again";
    }
    if number == 1 { "first" } else { "second" }
}

fn start_word(wait: bool) -> &'static str {
    if wait { "start and wait" } else { "start" }
}

fn clone_word(of: InstanceId) -> &'static str {
    match of.0 {
        1 => "clone Ann",
        2 => "clone Ben",
        _ => "clone another",
    }
}

// Executes a block that keeps nothing yet, and tells what it does; no redraw is requested.
fn said(
    rt: &(impl Abort + AllocGlobal),
    world: &mut World,
    op: Opcode,
    here: InstanceId,
    input: (&str, Given),
) -> &'static str {
    let mut context = Context::Fresh;
    let (control, redraw) = executed(rt, world, op, here, input, &mut context);
    assert!(rt; !redraw);
    word(&control)
}
