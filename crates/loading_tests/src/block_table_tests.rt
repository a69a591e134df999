//! Worked tables, and worked faults with their paths.

ghost use Rattle.std.specs.Prelude.{IsTrue};
ghost use Rattle.project_json.specs.View.{tree as tree_of};
ghost use Rattle.block_table.specs.Table.{IsSmall};

use block_table::{BlockRefusal, BlockTable, build, read_table};
use json_shapes::{Fault, Place};
use machine_spec::BlockId;
use opcode_table::Opcode;
use project_json::{Json, Text, members_of, read};
use project_spec::{Block, Code, Input, Link, Mutation};
use std::alloc::{AllocError, Global};
use std::process::Abort;

mod long_texts;
mod shapes_of_blocks;

fn tree(rt: &impl Abort, alloc: Global, text: &str) -> Json {
    let json = read(alloc, text.as_bytes()).ok();
    json.expect(rt, "a JSON text")
}

fn is_small(json: &Json) -> bool
    ensures { IsTrue result → IsSmall (tree_of json.now) }
{
    match members_of(json) {
        Some(members) => members.len() < 100,
        None => true,
    }
}

// The table of a text, whose blocks stand at `targets/0/blocks`.
fn table(rt: &impl Abort, alloc: Global, text: &str) -> BlockTable {
    let json = tree(rt, alloc, text);
    assert!(rt; is_small(&json));
    let path = Text::from_str(alloc, "targets/0/blocks").expect(rt, "memory");
    match build(alloc, &json, &path) {
        Ok(table) => table,
        Err(_) => panic!(rt; "refused"),
    }
}

// The path of the first fault of a text: of a shape, or, after a `long`, of a text that is too long.
fn fault(rt: &impl Abort, alloc: Global, text: &str) -> String {
    let json = tree(rt, alloc, text);
    assert!(rt; is_small(&json));
    let path = Text::from_str(alloc, "targets/0/blocks").expect(rt, "memory");
    match build(alloc, &json, &path) {
        Ok(_) => panic!(rt; "no fault"),
        Err(refusal) => said(alloc, &refusal).expect(rt, "memory"),
    }
}

fn said(alloc: Global, refusal: &BlockRefusal) -> Result<String, AllocError> {
    match refusal {
        BlockRefusal::Shape { path } => String::from_str(alloc, path.as_str()),
        BlockRefusal::TooLong { path } => format!(in alloc; "long {}", path.as_str()),
        BlockRefusal::NoMemory => Err(AllocError),
    }
}

static BLOCKS: &str = r#"{
    "hat": {"opcode": "event_whenflagclicked", "next": "say", "topLevel": true},
    "say": {"opcode": "looks_say", "inputs": {"MESSAGE": [3, "sum", [10, "x"]], "ODD": [1, "gone"]}},
    "sum": {"opcode": "operator_add", "inputs": {"NUM1": [1, [4, 1.50]], "NUM2": [1, null]}},
    "loose": [13, "my list", "k"],
    "menu": {"opcode": "some_menu", "shadow": true, "fields": {"TO": ["_mouse_", null]}},
    "proto": {"opcode": "procedures_prototype", "mutation": {"proccode": "p %s", "argumentids": "[\"i\"]", "argumentnames": "[\"n\"]", "argumentdefaults": "[7]"}}
}"#;

fn finds_blocks(rt: &impl Abort, table: &BlockTable) {
    assert_eq!(rt; table.len(), 6);
    assert!(rt; !table.is_empty());
    assert_eq!(rt; table.blocks().len(), 6);
    assert_eq!(rt; table.number_of("hat"), Some(BlockId(0)));
    assert_eq!(rt; table.number_of("proto"), Some(BlockId(5)));
    assert_eq!(rt; table.number_of("gone"), None);
    assert!(rt; table.get(BlockId(6)).is_none());
}

fn links_hat(rt: &impl Abort, hat: &Block) {
    assert!(rt; matches!(&hat.next, Some(Link::To(BlockId(1)))));
    assert!(rt; hat.top_level && !hat.shadow);
}

fn links_say(rt: &impl Abort, say: &Block) {
    match say.inputs.get(0) {
        Some((name, Input::Reporter(Link::To(sum)))) => {
            assert_eq!(rt; name.as_str(), "MESSAGE");
            assert_eq!(rt; *sum, BlockId(2));
        }
        _ => panic!(rt; "message"),
    }
    match say.inputs.get(1) {
        Some((_, Input::Reporter(Link::Unknown(id)))) => assert_eq!(rt; id.as_str(), "gone"),
        _ => panic!(rt; "odd"),
    }
}

fn is_loose_list(rt: &impl Abort, loose: &Block) {
    assert!(rt; matches!(loose.code, Code::Known(Opcode::DataListContents)));
    match loose.fields.get(0) {
        Some((name, list)) => {
            assert_eq!(rt; name.as_str(), "LIST");
            assert_eq!(rt; list.name.as_str(), "my list");
        }
        None => panic!(rt; "field"),
    }
}

fn is_prototype(rt: &impl Abort, block: &Block) {
    match &block.mutation {
        Mutation::Prototype(prototype) => {
            assert_eq!(rt; prototype.code.as_str(), "p %s");
            assert_eq!(rt; prototype.defaults.len(), 1);
            assert!(rt; !prototype.warp);
        }
        _ => panic!(rt; "prototype"),
    }
}

fn looks_at(rt: &impl Abort, table: &BlockTable) {
    finds_blocks(rt, table);
    for block in [0u32, 1, 3, 5] {
        match (block, table.get(BlockId(block))) {
            (0, Some(hat)) => links_hat(rt, hat),
            (1, Some(say)) => links_say(rt, say),
            (3, Some(loose)) => is_loose_list(rt, loose),
            (5, Some(prototype)) => is_prototype(rt, prototype),
            _ => panic!(rt; "block {block}"),
        }
    }
}

#[test]
fn blocks_are_read_and_found(rt: HostRuntime) {
    let table = table(&rt, rt.alloc(), BLOCKS);
    looks_at(&rt, &table);
    drop(table);
}

#[test]
fn a_table_of_a_file_has_as_many_blocks(rt: HostRuntime) {
    let json = tree(&rt, rt.alloc(), BLOCKS);
    let members = members_of(&json).expect(&rt, "no object");
    assert!(rt; members.len() < 100);
    match read_table(rt.alloc(), &Place::root(), members) {
        Ok(table) => assert_eq!(rt; table.len(), 6),
        Err(Fault::Shape { .. }) => panic!(rt; "shape"),
        Err(Fault::NoMemory) => panic!(rt; "memory"),
    }
}
