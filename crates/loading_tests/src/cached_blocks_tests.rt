//! The blocks of a small target as executions need them.

use block_table::{BlockTable, build};
use cached_blocks::{CachedBlock, CachedBlocks, cache_blocks};
use lists::ListOf;
use machine_spec::BlockId;
use opcode_table::Opcode;
use project_json::{Text, members_of, read};
use project_spec::{Operand, Resolved};
use scratch_values::{Value, VarRef};
use std::alloc::Global;
use std::process::Abort;

// A menu is plugged into the first block; the second has two branches, the second of them first; the operands of the fourth
// stand in the other order; the last calls.
static BLOCKS: &str =
    r#"{"set":{"opcode":"data_setvariableto","next":"if","inputs":{"VALUE":[3,"menu",[10,""]]},"fields":{"VARIABLE":["n","v"]}},"menu":{"opcode":"words_menu","shadow":true,"fields":{"WORD":["hello",null]}},"if":{"opcode":"control_if_else","inputs":{"CONDITION":[2,"equals"],"SUBSTACK2":[2,"set"],"SUBSTACK":[2,"call"]}},"equals":{"opcode":"operator_equals","inputs":{"OPERAND2":[1,[10,"1"]],"OPERAND1":[3,[12,"n","v"],[10,""]]}},"call":{"opcode":"procedures_call","mutation":{"proccode":"jump %s"},"inputs":{"custom_block":[1,[10,"x"]]}}}"#;

fn table(rt: &impl Abort, alloc: Global, text: &str) -> BlockTable {
    let json = read(alloc, text.as_bytes()).expect(rt, "JSON");
    let members = members_of(&json).expect(rt, "an object");
    assert!(rt; members.len() < 1_000);
    let path = Text::from_str(alloc, "targets/0/blocks").expect(rt, "memory");
    build(alloc, &json, &path).expect(rt, "blocks")
}

// A part of a block names a variable of the stage.
fn named(rt: &impl Abort, alloc: Global, in_input: bool, part: &str) -> ListOf<Resolved> {
    let part = Text::from_str(alloc, part).expect(rt, "memory");
    let resolved = Resolved {
        in_input,
        part,
        variable: VarRef::Stage(3),
    };
    let mut refs = ListOf::new(alloc);
    refs.push(resolved).expect(rt, "memory");
    refs
}

fn refs(rt: &impl Abort, alloc: Global) -> [ListOf<Resolved>; 5] {
    [
        named(rt, alloc, false, "VARIABLE"),
        ListOf::new(alloc),
        ListOf::new(alloc),
        named(rt, alloc, true, "OPERAND1"),
        ListOf::new(alloc),
    ]
}

fn cached(rt: &impl Abort, alloc: Global) -> CachedBlocks {
    let table = table(rt, alloc, BLOCKS);
    let cached = cache_blocks(alloc, table.blocks(), &refs(rt, alloc)).expect(rt, "memory");
    drop(table);
    cached
}

fn is_text(operand: Option<&Operand>, text: &str) -> bool {
    match operand {
        Some(Operand::Literal(Value::Text(own))) => own.as_str() == text,
        _ => false,
    }
}

fn is_variable(operand: Option<&Operand>, variable: VarRef) -> bool {
    match operand {
        Some(Operand::Variable(own)) => *own == variable,
        _ => false,
    }
}

fn is_block(operand: Option<&Operand>, id: BlockId) -> bool {
    match operand {
        Some(Operand::Block(own)) => *own == id,
        _ => false,
    }
}

// What is evaluated for the input of this number, where it has this name.
fn input<'b>(block: &'b CachedBlock, k: usize, name: &str) -> Option<&'b Operand> {
    match block.inputs.as_slice().get(k) {
        Some((own, operand)) => {
            if own.as_str() == name {
                Some(operand)
            } else {
                None
            }
        }
        None => None,
    }
}

#[test]
fn a_menu_is_its_text_and_a_field_names_its_variable(rt: HostRuntime) {
    let blocks = cached(&rt, rt.alloc());
    let set = blocks.as_slice().get(0).expect(&rt, "a block");
    assert!(rt; set.op == Opcode::DataSetVariableTo);
    assert!(rt; is_text(input(set, 0, "VALUE"), "hello"));
    assert!(rt; set.in_order);
    let field = set.fields.as_slice().get(0).expect(&rt, "a field");
    assert!(rt; field.text.as_str() == "n");
    assert!(rt; field.variable == Some(VarRef::Stage(3)));
    assert!(rt; set.next == Some(BlockId(2)));
    drop(blocks);
}

#[test]
fn branches_are_found_by_their_names(rt: HostRuntime) {
    let blocks = cached(&rt, rt.alloc());
    let choice = blocks.as_slice().get(2).expect(&rt, "a block");
    assert!(rt; is_block(input(choice, 0, "CONDITION"), BlockId(3)));
    assert_eq!(rt; choice.inputs.len(), 1);
    assert!(rt; choice.first == Some(BlockId(4)));
    assert!(rt; choice.second == Some(BlockId(0)));
    assert!(rt; choice.next == None);
    drop(blocks);
}

#[test]
fn inputs_stand_in_document_order(rt: HostRuntime) {
    let blocks = cached(&rt, rt.alloc());
    let equals = blocks.as_slice().get(3).expect(&rt, "a block");
    assert!(rt; is_text(input(equals, 0, "OPERAND2"), "1"));
    assert!(rt; is_variable(input(equals, 1, "OPERAND1"), VarRef::Stage(3)));
    assert!(rt; !equals.in_order);
    drop(blocks);
}

#[test]
fn a_call_has_its_code_and_no_custom_block(rt: HostRuntime) {
    let blocks = cached(&rt, rt.alloc());
    let call = blocks.as_slice().get(4).expect(&rt, "a block");
    assert!(rt; call.code.as_str() == "jump %s");
    assert_eq!(rt; call.inputs.len(), 0);
    assert!(rt; call.first == None);
    drop(blocks);
}
