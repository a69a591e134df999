//! What no clause says: blocks on worked rows, of a stage and two sprites.

ghost use Rattle.std.specs.Prelude.{◌≡◌, ◌==◌, count_by, nat_le, true};
ghost use Rattle.std.specs.List.{list_all};
ghost use Rattle.machine_spec.specs.Stores.{instance_at};
ghost use Rattle.target_records.specs.Records.{records_in};
ghost use Rattle.looks_blocks.specs.Costumes.{HasCostumes};
ghost use Rattle.targets.specs.Live.{HasOneEach};

use devices::Devices;
use looks_blocks::apply;
use machine_spec::{Context, Control, Instance, InstanceId, Serial};
use opcode_table::Opcode;
use project_json::{Text, read as read_json};
use scratch_number::{Num, of_millionths};
use scratch_values::{Arg, Args, BoundText, Held, ResolvedField, Value};
use script_words::{Counted, Rng, pcg};
use std::process::Abort;
use target_records::{Records, read};
use targets::Targets;
use thread_frames::Threads;

mod appearance;
mod bubbles;
mod costumes;

static PROJECT: &str =
    r#"{"targets":[{"isStage":true,"name":"Stage","costumes":[{"name":"b1"},{"name":"b2"}]},{"isStage":false,"name":"Ann","costumes":[{"name":"c1"},{"name":"c2"},{"name":"c3"}],"layerOrder":1},{"isStage":false,"name":"Ben","costumes":[{"name":"c"}],"visible":false,"layerOrder":2},{"isStage":false,"name":"Cleo","costumes":[{"name":"c"}],"layerOrder":3}]}"#;

const STAGE: InstanceId = InstanceId(0);

const ANN: InstanceId = InstanceId(1);

const BEN: InstanceId = InstanceId(2);

// More millionths than a finite number has.
const INFINITY: i64 = i64::MAX;

const MINUS_INFINITY: i64 = i64::MIN;

// A value as a table writes it.
#[derive(Clone, Copy, Debug)]
pub enum Given {
    // So many millionths.
    Of(i64),
    Truth(bool),
    Text(&'static str),
}

// The name of an input, and its value.
type Input = (&'static str, Given);

const NO_INPUT: Input = ("", Given::Of(0));

// What the blocks of a run see and change.
#[derive(Drop)]
pub struct World {
    records: Records,
    targets: Targets,
    devices: Devices,
    threads: Threads,
}

fn opened(rt: &(impl Abort + AllocGlobal), project: &str) -> World {
    assert!(rt; project.len() < 4_000_000_000);
    let document = read_json(rt.alloc(), project.as_bytes()).expect(rt, "a document");
    let records = read(rt.alloc(), &document).expect(rt, "records");
    let targets = Targets::open(rt.alloc(), &records).expect(rt, "memory");
    World {
        records,
        targets,
        devices: Devices::new(rt.alloc()).expect(rt, "memory"),
        threads: Threads::new(rt.alloc()).expect(rt, "memory"),
    }
}

// The number of so many millionths.
fn number(millionths: i64) -> Num {
    of_millionths(i128::from(millionths))
}

fn value(rt: &(impl Abort + AllocGlobal), given: Given) -> Value {
    match given {
        Given::Of(millionths) => Value::Number(number(millionths)),
        Given::Truth(truth) => Value::Truth(truth),
        Given::Text(text) => {
            let text = BoundText::from_str(rt.alloc(), text).expect(rt, "memory");
            Value::Text(text.expect(rt, "a short text"))
        }
    }
}

fn name(rt: &(impl Abort + AllocGlobal), name: &str) -> Text {
    Text::from_str(rt.alloc(), name).expect(rt, "memory")
}

fn lent<'p>(name: &'p Text, value: &'p Value) -> Arg<'p> {
    Arg {
        name,
        value: Held::Lent(value),
    }
}

// How many instances have the number.
fn count(number: InstanceId, instances: &[Instance]) -> usize
    ensures { result ≡ count_by (λ i. i.number == number) instances.now }
{
    instances.iter().filter(|i| i.number == number).count()
}

// Whether the number of each instance is counted once.
fn are_counted_once(instances: &[Instance]) -> bool
    ensures { result ≡ list_all (λ i. nat_le (count_by (λ j. j.number == i.number) instances.now) 1) instances.now }
{
    instances.iter().all(|i| count(i.number, instances) <= 1)
}

// Each number is that of one instance at most.
fn check_numbers(rt: &impl Abort, targets: &Targets)
    ensures { HasOneEach targets.now }
{
    assert!(rt; are_counted_once(targets.instances()));
}

// Whether the target of a live instance has a costume, and fewer than 2^32.
fn has_costumes(of: InstanceId, records: &Records, targets: &Targets) -> bool
    ensures { result ≡ true → HasCostumes (records_in records.now) (instance_at of targets.now) }
{
    let Some(instance) = targets.get(of) else {
        return false;
    };
    if instance.of.0 >= records.targets() {
        return false;
    }
    let count = records.target(instance.of).costumes.len();
    count > 0 && count < 4_294_967_296
}

// Executes a block of a live instance in the thread 7, with these two inputs and this field and its text.
fn executed<R: Rng + Drop>(
    rt: &(impl Abort + AllocGlobal),
    world: &mut World,
    words: &mut Counted<R>,
    op: Opcode,
    here: InstanceId,
    (field, inputs): ((&str, &str), [Input; 2]),
    context: &mut Context,
) -> (Control, bool) {
    let fields = [ResolvedField {
        name: name(rt, field.0),
        text: name(rt, field.1),
        variable: None,
    }];
    let [first, second] = inputs;
    let names = (name(rt, first.0), name(rt, second.0));
    let values = (value(rt, first.1), value(rt, second.1));
    let args = Args::two(
        &fields,
        lent(&names.0, &values.0),
        lent(&names.1, &values.1),
    );
    check_numbers(rt, &world.targets);
    assert!(rt; world.targets.is_live(here));
    let stage = InstanceId(u64::from(world.records.stage().0));
    assert!(rt; has_costumes(here, &world.records, &world.targets));
    assert!(rt; has_costumes(stage, &world.records, &world.targets));
    let row = apply(
        rt.alloc(),
        op,
        &args,
        here,
        Serial(7),
        &world.records,
        &mut world.targets,
        &mut world.devices,
        words,
        &world.threads,
        context,
    );
    row.expect(rt, "no stop")
}

// Executes a block that goes on and keeps nothing, and tells whether a redraw is requested.
fn run(
    rt: &(impl Abort + AllocGlobal),
    world: &mut World,
    op: Opcode,
    here: InstanceId,
    given: ((&str, &str), [Input; 2]),
) -> bool {
    let mut words = pcg(1, 0);
    let mut context = Context::Fresh;
    let (control, redraw) = executed(rt, world, &mut words, op, here, given, &mut context);
    assert!(rt; matches!(control, Control::Next));
    assert!(rt; matches!(context, Context::Fresh));
    assert_eq!(rt; words.drawn(), 0);
    redraw
}

const NO_FIELD: (&str, &str) = ("", "");
