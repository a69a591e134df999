//! What no clause says: blocks on worked rows, of a stage, a sprite and a hidden sprite.

use devices::Devices;
use machine_spec::{Context, Control, InstanceId};
use motion_blocks::apply;
use opcode_table::Opcode;
use project_json::{Text, read as read_json};
use scratch_number::{Num, of_millionths};
use scratch_values::{Arg, Args, BoundText, Held, ResolvedField, Value};
use script_words::{Counted, Rng, pcg};
use std::process::Abort;
use target_records::{Records, read};
use targets::Targets;

mod glides;
mod menus;
mod moves;

static PROJECT: &str =
    r#"{"targets":[{"isStage":true,"name":"Stage","costumes":[{"name":"b"}]},{"isStage":false,"name":"Ann","costumes":[{"name":"c"}],"layerOrder":1},{"isStage":false,"name":"cat","costumes":[{"name":"c"}],"visible":false,"layerOrder":2}]}"#;

const STAGE: InstanceId = InstanceId(0);

const ANN: InstanceId = InstanceId(1);

const CAT: InstanceId = InstanceId(2);

// More millionths than a finite number has.
const INFINITY: i64 = i64::MAX;

// A value as a table writes it.
#[derive(Clone, Copy)]
pub enum Given {
    // So many millionths.
    Of(i64),
    Text(&'static str),
}

// The name of an input, and its value.
type Input = (&'static str, Given);

const NO_INPUT: Input = ("", Given::Of(0));

// What the blocks of a run see and change.
#[derive(Drop)]
pub struct World {
    records: Records,
    targets: Targets,
    devices: Devices,
}

fn records(rt: &(impl Abort + AllocGlobal)) -> Records {
    assert!(rt; PROJECT.len() < 4_000_000_000);
    let document = read_json(rt.alloc(), PROJECT.as_bytes()).expect(rt, "a document");
    read(rt.alloc(), &document).expect(rt, "records")
}

fn opened(rt: &(impl Abort + AllocGlobal)) -> World {
    let records = records(rt);
    let targets = Targets::open(rt.alloc(), &records).expect(rt, "memory");
    World {
        records,
        targets,
        devices: Devices::new(rt.alloc()).expect(rt, "memory"),
    }
}

// The number of so many millionths.
fn number(millionths: i64) -> Num {
    of_millionths(i128::from(millionths))
}

fn value(rt: &(impl Abort + AllocGlobal), given: Given) -> Value {
    match given {
        Given::Of(millionths) => Value::Number(number(millionths)),
        Given::Text(text) => {
            let text = BoundText::from_str(rt.alloc(), text).expect(rt, "memory");
            Value::Text(text.expect(rt, "a short text"))
        }
    }
}

fn name(rt: &(impl Abort + AllocGlobal), name: &str) -> Text {
    Text::from_str(rt.alloc(), name).expect(rt, "memory")
}

fn lent<'p>(name: &'p Text, value: &'p Value) -> Arg<'p> {
    Arg {
        name,
        value: Held::Lent(value),
    }
}

// Executes a block of an instance with these inputs and this text of its field.
fn executed<R: Rng + Drop>(
    rt: &(impl Abort + AllocGlobal),
    world: &mut World,
    words: &mut Counted<R>,
    op: Opcode,
    here: InstanceId,
    (style, inputs): (&str, [Input; 3]),
    context: &mut Context,
) -> (Control, bool) {
    let fields = [ResolvedField {
        name: name(rt, "STYLE"),
        text: name(rt, style),
        variable: None,
    }];
    let [first, second, third] = inputs;
    let names = (name(rt, first.0), name(rt, second.0), name(rt, third.0));
    let values = (value(rt, first.1), value(rt, second.1), value(rt, third.1));
    let args = Args::three(
        &fields,
        lent(&names.0, &values.0),
        lent(&names.1, &values.1),
        lent(&names.2, &values.2),
    );
    let row = apply(
        rt.alloc(),
        op,
        &args,
        here,
        &world.records,
        &mut world.targets,
        &world.devices,
        words,
        context,
    );
    row.expect(rt, "no stop")
}

// Executes a block that goes on, keeps nothing and draws no word, and tells whether a redraw is requested.
fn run(
    rt: &(impl Abort + AllocGlobal),
    world: &mut World,
    op: Opcode,
    here: InstanceId,
    given: (&str, [Input; 3]),
) -> bool {
    let mut words = pcg(1, 0);
    let mut context = Context::Fresh;
    let (control, redraw) = executed(rt, world, &mut words, op, here, given, &mut context);
    assert!(rt; matches!(control, Control::Next));
    assert!(rt; matches!(context, Context::Fresh));
    assert_eq!(rt; words.drawn(), 0);
    redraw
}

// Puts an instance to a place.
fn put(world: &mut World, here: InstanceId, x: i64, y: i64) {
    world.targets.set_xy(here, number(x), number(y));
}

// An instance is at a place.
fn is_at(rt: &impl Abort, world: &World, here: InstanceId, x: i64, y: i64) -> bool {
    let own = world.targets.get(here).expect(rt, "an instance");
    own.x == number(x) && own.y == number(y)
}

// The direction of the visible sprite.
fn direction(rt: &impl Abort, world: &World) -> Num {
    world.targets.get(ANN).expect(rt, "a sprite").direction
}
