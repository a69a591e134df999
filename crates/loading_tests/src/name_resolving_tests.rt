//! What the names in blocks lead to, and what is added, row by row.

ghost use Rattle.std.specs.Prelude.{◌≡◌, ◌<◌, ◌^◌, length, map, IsTrue};
ghost use Rattle.std.specs.List.{sum_by};
ghost use Rattle.target_records.specs.Records.{records_in};
ghost use Rattle.name_resolving.specs.Room.{HasRoom, parts};

use block_table::{BlockTable, read_table};
use json_shapes::Place;
use lists::ListOf;
use machine_spec::TargetId;
use name_resolving::{ResolvedNames, resolve};
use project_json::members_of;
use project_spec::{Block, Resolved};
use scratch_values::VarRef;
use std::process::Abort;
use target_records::Records;

static TARGETS: &str =
    r#"{"targets":[{"isStage":true,"name":"S","costumes":[{"name":"b"}],"variables":{"s":["n",0],"t":["m",0]},"lists":{"k":["l",[]]}},{"isStage":false,"name":"C","costumes":[{"name":"c"}],"variables":{"o":["m",0],"p":["m",0]}}]}"#;

static STAGE: &str =
    r#"{"a":{"opcode":"data_setvariableto","fields":{"VARIABLE":["new","y"]},"inputs":{"VALUE":[3,[12,"new","z"],[10,""]]}}}"#;

static SPRITE: &str =
    r#"{"a":{"opcode":"data_setvariableto","inputs":{"VALUE":[3,[12,"m","s"],[10,""]]},"fields":{"VARIABLE":["n","o"]}},"b":{"opcode":"data_addtolist","fields":{"LIST":["l","x"]},"inputs":{"ITEM":[3,[13,"fresh","x"],[10,""]]}},"c":{"opcode":"data_changevariableby","fields":{"VARIABLE":["m","z"]},"inputs":{"VALUE":[1,[4,"1"]]}},"d":{"opcode":"data_hidevariable","fields":{"VARIABLE":["lost","q"]}},"e":{"opcode":"data_hidevariable","fields":{"VARIABLE":["fresh","x"]}},"f":{"opcode":"data_showvariable","fields":{"VARIABLE":["other","x"]}},"g":{"opcode":"data_showvariable","fields":{"VARIABLE":["new","z"]}},"h":{"opcode":"motion_setx","fields":{"VARIABLE":["n","o"]},"inputs":{"X":[1,[4,"1"]]}}}"#;

// A target, a block, and what its parts name: whether it is an input, its name, and what it leads to.
static ROWS: [(usize, usize, &[(bool, &str, VarRef)]); 9] = [
    (
        0,
        0,
        &[
            (false, "VARIABLE", VarRef::Own(2)),
            (true, "VALUE", VarRef::Own(2)),
        ],
    ),
    (
        1,
        0,
        &[
            (false, "VARIABLE", VarRef::Own(0)),
            (true, "VALUE", VarRef::Stage(0)),
        ],
    ),
    (
        1,
        1,
        &[
            (false, "LIST", VarRef::Stage(0)),
            (true, "ITEM", VarRef::Own(0)),
        ],
    ),
    (1, 2, &[(false, "VARIABLE", VarRef::Own(0))]),
    (1, 3, &[]),
    (1, 4, &[(false, "VARIABLE", VarRef::Own(2))]),
    (1, 5, &[(false, "VARIABLE", VarRef::Own(2))]),
    (1, 6, &[(false, "VARIABLE", VarRef::Stage(2))]),
    (1, 7, &[]),
];

fn records(rt: &(impl Abort + AllocGlobal), text: &str) -> Records {
    assert!(rt; text.len() < 4_000_000_000);
    let document = project_json::read(rt.alloc(), text.as_bytes()).ok();
    let document = document.expect(rt, "a JSON text");
    let records = target_records::read(rt.alloc(), &document).ok();
    records.expect(rt, "records")
}

fn table(rt: &(impl Abort + AllocGlobal), text: &str) -> BlockTable {
    let document = project_json::read(rt.alloc(), text.as_bytes()).ok();
    let document = document.expect(rt, "a JSON text");
    let members = members_of(&document).expect(rt, "an object");
    assert!(rt; members.len() < 1_000);
    let place = Place::root();
    let table = read_table(rt.alloc(), &place, members).ok();
    let bounded = table.expect(rt, "a table").bounded(rt.alloc(), &place).ok();
    bounded.expect(rt, "short texts")
}

// Whether blocks have few parts.
fn are_few(blocks: &[Block]) -> bool
    ensures { IsTrue result → sum_by parts blocks.now < 2 ^ 31 }
{
    let mut sum = 0;
    for block in blocks {
        let fields = block.fields.len();
        let inputs = block.inputs.len();
        if fields > 1_000 || inputs > 1_000 || sum > 1_000_000 {
            return false;
        }
        sum += fields + inputs;
    }
    true
}

// Whether there is room for all that blocks name.
fn has_room(records: &Records, tables: &[BlockTable]) -> bool
    requires { length tables.now ≡ length (records_in records.now).targets }
    ensures { IsTrue result → HasRoom (records_in records.now) (map (λ t. t.blocks) tables.now) }
{
    for t in 0..records.targets() {
        let record = records.target(TargetId(t));
        let held = record.variables.len() > 1_000 || record.lists.len() > 1_000;
        if held || !are_few(tables[t as usize].blocks()) {
            return false;
        }
    }
    true
}

fn is_part(found: &Resolved, wanted: &(bool, &str, VarRef)) -> bool {
    found.in_input == wanted.0 && found.part.as_str() == wanted.1 && found.variable == wanted.2
}

fn are_parts(found: &ListOf<Resolved>, wanted: &[(bool, &str, VarRef)]) -> bool {
    found.len() == wanted.len() && found.iter().zip(wanted).all(|(a, b)| is_part(a, b))
}

fn is_row(
    names: &ResolvedNames,
    target: usize,
    block: usize,
    wanted: &[(bool, &str, VarRef)],
) -> bool {
    match names.get(target) {
        Some(blocks) => match blocks.get(block) {
            Some(found) => are_parts(found, wanted),
            None => false,
        },
        None => false,
    }
}

#[test]
fn names_lead_to_what_the_rule_finds(rt: HostRuntime) {
    let mut records = records(&rt, TARGETS);
    let tables = [table(&rt, STAGE), table(&rt, SPRITE)];
    let checked: [&[bool]; 2] = [&[true], &[true, true, true, false, true, true, true, true]];
    assert!(rt; records.targets() == 2);
    assert!(rt; has_room(&records, &tables));
    let names = resolve(rt.alloc(), &mut records, &tables, &checked).expect(&rt, "memory");
    for row in &ROWS {
        assert!(rt; is_row(&names, row.0, row.1, row.2), "{} {}", row.0, row.1);
    }
    let targets = records.all_targets();
    assert!(rt; targets.len() == 2);
    assert!(rt; targets[0].variables.len() == 3);
    assert!(rt; targets[1].variables.len() == 3);
    assert!(rt; targets[1].lists.len() == 1);
    drop(records);
}
