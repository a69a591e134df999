//! Each reporter on worked rows, in a project of a stage and two sprites.

use devices::Devices;
use machine_spec::InstanceId;
use opcode_table::Opcode;
use project_json::{Text as Name, read as read_json};
use reporters::{Sight, reported};
use scratch_number::{Num, of_millionths};
use scratch_values::{Arg, Args, BoundText, Held, Params, ResolvedField, Value, VarRef};
use script_words::{Counted, Rng, Stop, pcg};
use std::process::Abort;
use target_records::{Records, read};
use targets::Targets;
use variables::Variables;

mod conditions;
mod list_rows;
mod pressed_keys;
mod senses;
mod sums;
mod texts;

static PROJECT: &str =
    r#"{"targets":[{"isStage":true,"name":"Stage","costumes":[{"name":"b1"},{"name":"b2"}],"currentCostume":1,"volume":70,"variables":{"z":["z",5],"s":["score","a"]},"lists":{"k":["k",["one"]]}},{"isStage":false,"name":"Ann","costumes":[{"name":"c1"},{"name":"c2"},{"name":"c3"}],"currentCostume":2,"volume":55,"x":10.5,"y":-20,"direction":45,"size":33.4,"layerOrder":1,"variables":{"n":["n",7],"m":["n",8],"w":["word","a b"]},"lists":{"l":["l",[]]}},{"isStage":false,"name":"Ben","costumes":[{"name":"b"}],"x":40,"y":20,"layerOrder":2}]}"#;

const ANN: InstanceId = InstanceId(1);

const BEN: InstanceId = InstanceId(2);

// A field, its text, and the variable or list that it names.
type Field = (&'static str, &'static str, Option<VarRef>);

// The name of an input, and its value.
type Input = (&'static str, Given);

const NO_FIELD: Field = ("", "", None);

const NO_INPUT: Input = ("", Given::Of(0));

const LIST: Field = ("LIST", "l", Some(VarRef::Own(0)));

const STAGE_LIST: Field = ("LIST", "k", Some(VarRef::Stage(0)));

// A value as a table writes it.
#[derive(Clone, Copy)]
pub enum Given {
    // So many millionths.
    Of(i64),
    Inf,
    NegInf,
    Nan,
    Truth(bool),
    Text(&'static str),
}

// Two inputs, or one, and what an operator gives of them.
type Pair = (Given, Given, Given);

type Single = (Given, Given);

// A reporter with its field and its inputs.
#[derive(Clone, Copy)]
pub struct Asked {
    op: Opcode,
    field: Field,
    inputs: (Input, Input),
}

// A project and the stores of a run of it.
#[derive(Drop)]
pub struct World {
    records: Records,
    targets: Targets,
    variables: Variables,
    devices: Devices,
}

fn records(rt: &(impl Abort + AllocGlobal)) -> Records {
    assert!(rt; PROJECT.len() < 4_000_000_000);
    let document = read_json(rt.alloc(), PROJECT.as_bytes()).expect(rt, "a document");
    read(rt.alloc(), &document).expect(rt, "records")
}

// Devices after 2.5 seconds, with the mouse down at -7, 9 and an answer.
fn with_answer(rt: &(impl Abort + AllocGlobal)) -> Devices {
    let mut devices = Devices::new(rt.alloc()).expect(rt, "memory");
    assert!(rt; devices.clock() <= 2500);
    devices.set_clock(2500);
    devices.set_mouse(-7, 9);
    devices.set_button(true);
    devices.set_answer(text(rt, "yes"));
    devices
}

fn opened(rt: &(impl Abort + AllocGlobal)) -> World {
    let records = records(rt);
    let targets = Targets::open(rt.alloc(), &records).expect(rt, "memory");
    let variables = Variables::open(rt.alloc(), &records).expect(rt, "memory");
    World {
        records,
        targets,
        variables,
        devices: with_answer(rt),
    }
}

// What Ann's reporters read.
fn sight<'a>(world: &'a World, params: Option<&'a Params>) -> Sight<'a> {
    Sight {
        records: &world.records,
        targets: &world.targets,
        variables: &world.variables,
        devices: &world.devices,
        here: ANN,
        params,
    }
}

fn number(given: Given) -> Num {
    match given {
        Given::Of(millionths) => of_millionths(i128::from(millionths)),
        Given::Inf => Num::Inf,
        Given::NegInf => Num::NegInf,
        Given::Nan => Num::Nan,
        Given::Truth(_) => Num::Nan,
        Given::Text(_) => Num::Nan,
    }
}

fn text(rt: &(impl Abort + AllocGlobal), given: &str) -> BoundText {
    let text = BoundText::from_str(rt.alloc(), given).expect(rt, "memory");
    text.expect(rt, "a short text")
}

fn value(rt: &(impl Abort + AllocGlobal), given: Given) -> Value {
    match given {
        Given::Truth(truth) => Value::Truth(truth),
        Given::Text(given) => Value::Text(text(rt, given)),
        Given::Of(_) => Value::Number(number(given)),
        Given::Inf => Value::Number(number(given)),
        Given::NegInf => Value::Number(number(given)),
        Given::Nan => Value::Number(number(given)),
    }
}

fn name(rt: &(impl Abort + AllocGlobal), name: &str) -> Name {
    Name::from_str(rt.alloc(), name).expect(rt, "memory")
}

fn field(rt: &(impl Abort + AllocGlobal), field: Field) -> ResolvedField {
    ResolvedField {
        name: name(rt, field.0),
        text: name(rt, field.1),
        variable: field.2,
    }
}

fn lent<'p>(name: &'p Name, value: &'p Value) -> Arg<'p> {
    Arg {
        name,
        value: Held::Lent(value),
    }
}

// A reporter with two inputs of these names.
fn of_two(op: Opcode, names: (&'static str, &'static str), sides: (Given, Given)) -> Asked {
    Asked {
        op,
        field: NO_FIELD,
        inputs: ((names.0, sides.0), (names.1, sides.1)),
    }
}

// A reporter with one input, and with a field.
fn of_one(op: Opcode, field: Field, input: Input) -> Asked {
    Asked {
        op,
        field,
        inputs: (input, NO_INPUT),
    }
}

// What a reporter of Ann gives.
fn told<R: Rng + Drop>(
    rt: &(impl Abort + AllocGlobal),
    sight: &Sight<'_>,
    asked: Asked,
    words: &mut Counted<R>,
) -> Result<Value, Stop> {
    let fields = [field(rt, asked.field)];
    let (first, second) = asked.inputs;
    let names = (name(rt, first.0), name(rt, second.0));
    let values = (value(rt, first.1), value(rt, second.1));
    let first = lent(&names.0, &values.0);
    let args = Args::two(&fields, first, lent(&names.1, &values.1));
    reported(rt.alloc(), asked.op, &args, sight, words)
}

// A reporter of Ann gives this value of a seed and the words drawn before, and so many words are drawn then.
fn picks(
    rt: &(impl Abort + AllocGlobal),
    sight: &Sight<'_>,
    asked: Asked,
    (seed, before): (u64, u64),
    (wanted, after): (Given, u64),
) -> bool {
    assert!(rt; before < 1 << 62);
    let mut words = pcg(seed, before);
    let told = told(rt, sight, asked, &mut words);
    told == Ok(value(rt, wanted)) && words.drawn() == after
}

// A reporter of Ann gives this value, and draws no word.
fn gives_in(rt: &(impl Abort + AllocGlobal), world: &World, asked: Asked, wanted: Given) -> bool {
    picks(rt, &sight(world, None), asked, (0, 0), (wanted, 0))
}

// The same in the world that begins.
fn gives(rt: &(impl Abort + AllocGlobal), asked: Asked, wanted: Given) -> bool {
    let world = opened(rt);
    let is_given = gives_in(rt, &world, asked, wanted);
    drop(world);
    is_given
}

// The row at a place of a table holds.
fn hold(rt: &impl Abort, told: bool, at: usize) {
    assert!(rt; told, "row {at}");
}

fn try_pairs(
    rt: &(impl Abort + AllocGlobal),
    op: Opcode,
    names: (&'static str, &'static str),
    rows: &[Pair],
) {
    for (at, (first, second, wanted)) in rows.iter().enumerate() {
        let asked = of_two(op, names, (*first, *second));
        hold(rt, gives(rt, asked, *wanted), at);
    }
}

fn try_singles(rt: &(impl Abort + AllocGlobal), op: Opcode, input: &'static str, rows: &[Single]) {
    for (at, (given, wanted)) in rows.iter().enumerate() {
        let asked = of_one(op, NO_FIELD, (input, *given));
        hold(rt, gives(rt, asked, *wanted), at);
    }
}

// Reporters without inputs, and what they give of a field.
static NAMED: [(Opcode, Field, Given); 12] = [
    (Opcode::SensingAnswer, NO_FIELD, Given::Text("yes")),
    (
        Opcode::DataVariable,
        ("VARIABLE", "n", Some(VarRef::Own(1))),
        Given::Of(8_000_000),
    ),
    (
        Opcode::DataVariable,
        ("VARIABLE", "score", Some(VarRef::Stage(1))),
        Given::Text("a"),
    ),
    (
        Opcode::LooksCostumeNumberName,
        ("NUMBER_NAME", "number", None),
        Given::Of(3_000_000),
    ),
    (
        Opcode::LooksCostumeNumberName,
        ("NUMBER_NAME", "name", None),
        Given::Text("c3"),
    ),
    (
        Opcode::LooksCostumeNumberName,
        ("NUMBER_NAME", "Number", None),
        Given::Text("c3"),
    ),
    (
        Opcode::LooksBackdropNumberName,
        ("NUMBER_NAME", "number", None),
        Given::Of(2_000_000),
    ),
    (
        Opcode::LooksBackdropNumberName,
        ("NUMBER_NAME", "name", None),
        Given::Text("b2"),
    ),
    (
        Opcode::LooksBackdropNumberName,
        ("NUMBER_NAME", "", None),
        Given::Text("b2"),
    ),
    // No parameter has the name, an input is absent, and a command gives 0.
    (
        Opcode::ArgumentReporterBoolean,
        ("VALUE", "x", None),
        Given::Of(0),
    ),
    (Opcode::OperatorJoin, NO_FIELD, Given::Text("00")),
    (Opcode::MotionMoveSteps, NO_FIELD, Given::Of(0)),
];

#[test]
fn what_a_field_names_is_told(rt: HostRuntime) {
    for (at, (op, field, wanted)) in NAMED.iter().enumerate() {
        let asked = of_one(*op, *field, NO_INPUT);
        hold(&rt, gives(&rt, asked, *wanted), at);
    }
}

// A parameter x that is 4.
fn parameters(rt: &(impl Abort + AllocGlobal)) -> Params {
    let mut params = Params::new(rt.alloc());
    let four = value(rt, Given::Of(4_000_000));
    params.push(name(rt, "x"), four).ok().expect(rt, "memory");
    params
}

#[test]
fn a_parameter_is_told(rt: HostRuntime) {
    let world = opened(&rt);
    let params = parameters(&rt);
    let op = Opcode::ArgumentReporterStringNumber;
    let asked = of_one(op, ("VALUE", "x", None), NO_INPUT);
    let sight = sight(&world, Some(&params));
    let four = (Given::Of(4_000_000), 0);
    hold(&rt, picks(&rt, &sight, asked, (0, 0), four), 0);
    drop(world);
}
