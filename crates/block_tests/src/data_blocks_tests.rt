//! What no clause says: blocks on a stage and two sprites, and worked rows.

use data_blocks::{apply, apply_one};
use machine_spec::InstanceId;
use opcode_table::Opcode;
use project_json::{Text, read as read_json};
use scratch_number::{Num, of_millionths, of_whole};
use scratch_values::{Arg, Args, BoundText, Held, ResolvedField, Value, VarRef, to_number};
use script_words::{Counted, Rng, Stop, pcg};
use std::alloc::{AllocError, Global};
use std::process::Abort;
use target_records::{Records, read};
use targets::Targets;
use variables::Variables;

mod blocks;
mod one_input;
mod places;

static PROJECT: &str =
    r#"{"targets":[{"isStage":true,"name":"Stage","variables":{"v":["n",0]},"lists":{"k":["l",[]]},"costumes":[{"name":"b"}]},{"isStage":false,"name":"Ann","variables":{"z":["z",0]},"lists":{"m":["m",[]]},"costumes":[{"name":"c"}],"layerOrder":1},{"isStage":false,"name":"Ben","costumes":[{"name":"c"}],"layerOrder":2}],"monitors":[{"id":"v","opcode":"data_variable","visible":true}]}"#;

const STAGE: InstanceId = InstanceId(0);

const ANN: InstanceId = InstanceId(1);

const BEN: InstanceId = InstanceId(2);

// A value as a table writes it.
#[derive(Clone, Copy, Debug)]
pub enum Given {
    // So many millionths.
    Of(i64),
    Truth(bool),
    Text(&'static str),
}

// What the blocks of a run see and change.
#[derive(Drop)]
pub struct World {
    records: Records,
    targets: Targets,
    variables: Variables,
}

fn records(rt: &(impl Abort + AllocGlobal)) -> Records {
    assert!(rt; PROJECT.len() < 4_000_000_000);
    let document = read_json(rt.alloc(), PROJECT.as_bytes()).expect(rt, "a document");
    read(rt.alloc(), &document).expect(rt, "records")
}

fn opened(rt: &(impl Abort + AllocGlobal)) -> World {
    let records = records(rt);
    let targets = Targets::open(rt.alloc(), &records).expect(rt, "memory");
    let variables = Variables::open(rt.alloc(), &records).expect(rt, "memory");
    World {
        records,
        targets,
        variables,
    }
}

fn value(rt: &(impl Abort + AllocGlobal), given: Given) -> Value {
    match given {
        Given::Of(millionths) => Value::Number(of_millionths(millionths as i128)),
        Given::Truth(truth) => Value::Truth(truth),
        Given::Text(text) => {
            let text = BoundText::from_str(rt.alloc(), text).expect(rt, "memory");
            Value::Text(text.expect(rt, "a short text"))
        }
    }
}

// A field of this name that names a variable or a list.
fn field(rt: &(impl Abort + AllocGlobal), name: &str, what: VarRef) -> ResolvedField {
    ResolvedField {
        name: Text::from_str(rt.alloc(), name).expect(rt, "memory"),
        text: Text::new(rt.alloc()),
        variable: Some(what),
    }
}

// The fields of a block that names a variable and a list by this number.
fn fields(rt: &(impl Abort + AllocGlobal), what: VarRef) -> [ResolvedField; 2] {
    [field(rt, "VARIABLE", what), field(rt, "LIST", what)]
}

fn lent<'p>(name: &'p Text, value: &'p Value) -> Arg<'p> {
    Arg {
        name,
        value: Held::Lent(value),
    }
}

// A name of an input.
fn name(rt: &(impl Abort + AllocGlobal), name: &str) -> Text {
    Text::from_str(rt.alloc(), name).expect(rt, "memory")
}

// Executes a block of an instance with this INDEX, and this VALUE and ITEM.
fn executed<R: Rng + Drop>(
    rt: &(impl Abort + AllocGlobal),
    world: &mut World,
    words: &mut Counted<R>,
    op: Opcode,
    (here, what): (InstanceId, VarRef),
    (index, item): (Given, Given),
) -> Result<(), Stop> {
    let fields = fields(rt, what);
    let names = (name(rt, "VALUE"), name(rt, "INDEX"), name(rt, "ITEM"));
    let (index, item) = (value(rt, index), value(rt, item));
    let args = Args::three(
        &fields,
        lent(&names.0, &item),
        lent(&names.1, &index),
        lent(&names.2, &item),
    );
    apply(
        op,
        &args,
        here,
        &world.records,
        &world.targets,
        &mut world.variables,
        words,
    )
}

// Executes a block of the first sprite with one input of this name.
fn executed_by_one(
    rt: &(impl Abort + AllocGlobal),
    world: &mut World,
    op: Opcode,
    (input, given): (&str, Given),
) -> Result<(), Stop> {
    let fields = fields(rt, VarRef::Own(0));
    let (name, value) = (name(rt, input), value(rt, given));
    let mut words = pcg(0, 0);
    apply_one(
        op,
        &fields,
        lent(&name, &value),
        ANN,
        &world.records,
        &world.targets,
        &mut world.variables,
        &mut words,
    )
}

// Executes a block, which does not stop.
fn run<R: Rng + Drop>(
    rt: &(impl Abort + AllocGlobal),
    world: &mut World,
    words: &mut Counted<R>,
    op: Opcode,
    block: (InstanceId, VarRef),
    inputs: (Given, Given),
) {
    let row = executed(rt, world, words, op, block, inputs);
    row.expect(rt, "no stop");
}

// The numbers of the items of a list of an instance.
fn numbers(alloc: Global, variables: &Variables, of: InstanceId) -> Result<Vec<Num>, AllocError> {
    let mut numbers = Vec::new(alloc);
    for item in variables.items(of, 0) {
        numbers.push(to_number(item))?;
    }
    Ok(numbers)
}

// The list of the first sprite has these whole numbers.
fn has_items(rt: &(impl Abort + AllocGlobal), world: &World, want: &[i64]) {
    let numbers = numbers(rt.alloc(), &world.variables, ANN).expect(rt, "memory");
    assert_eq!(rt; numbers.len(), want.len());
    for (number, want) in numbers.iter().zip(want) {
        assert_eq!(rt; *number, of_whole(*want));
    }
}
