//! Each public function once, on a small project.

use machine_spec::{InstanceId, TargetId};
use project_json::read as read_json;
use scratch_number::{Num, of_whole};
use scratch_values::{Value, ValueLists, Values, to_number};
use std::alloc::{AllocError, Global};
use std::process::Abort;
use target_records::{Records, read};
use variables::{MadeList, Shown, Store, Stores, Truths, VariableParts, Variables};

static PROJECT: &str =
    r#"{"targets":[{"isStage":true,"name":"Stage","variables":{"v":["n",0]},"lists":{"k":["l",[]]},"costumes":[{"name":"b"}]}],"monitors":[{"id":"v","opcode":"data_variable","visible":true}]}"#;

const STAGE: InstanceId = InstanceId(0);

const CLONE: InstanceId = InstanceId(7);

fn records(rt: &(impl Abort + AllocGlobal)) -> Records {
    assert!(rt; PROJECT.len() < 4_000_000_000);
    let document = read_json(rt.alloc(), PROJECT.as_bytes()).expect(rt, "a document");
    read(rt.alloc(), &document).expect(rt, "records")
}

fn opened(rt: &(impl Abort + AllocGlobal)) -> Variables {
    Variables::open(rt.alloc(), &records(rt)).expect(rt, "memory")
}

fn number_of(variables: &Variables, of: InstanceId) -> Num {
    to_number(variables.value(of, 0))
}

fn truths_of(alloc: Global, variables: &Variables) -> Result<Vec<bool>, AllocError> {
    let mut truths = Vec::new(alloc);
    for item in variables.items(STAGE, 0) {
        truths.push(matches!(item, Value::Truth(true)))?;
    }
    Ok(truths)
}

fn add_three(rt: &(impl Abort + AllocGlobal), variables: &mut Variables) {
    for truth in [true, false, false] {
        let pushed = variables.push(STAGE, 0, Value::Truth(truth));
        pushed.expect(rt, "memory");
    }
}

#[test]
fn a_variable_is_set_and_changed(rt: HostRuntime) {
    let mut variables = opened(&rt);
    assert!(rt; variables.has_value(STAGE, 0));
    variables.set(STAGE, 0, Value::Number(of_whole(2)));
    variables.change(STAGE, 0, of_whole(3));
    assert_eq!(rt; number_of(&variables, STAGE), of_whole(5));
    drop(variables);
}

#[test]
fn a_list_takes_and_loses_items(rt: HostRuntime) {
    let mut variables = opened(&rt);
    assert!(rt; variables.has_items(STAGE, 0));
    add_three(&rt, &mut variables);
    variables
        .insert(STAGE, 0, 2, Value::Truth(true))
        .expect(&rt, "memory");
    variables.replace(STAGE, 0, 4, Value::Truth(true));
    variables.delete(STAGE, 0, 1);
    assert_eq!(rt;
        truths_of(rt.alloc(), &variables)
            .expect(&rt, "memory")
            .as_slice(),
        [true, false, true].as_slice()
    );
    variables.clear(STAGE, 0);
    assert_eq!(rt; variables.items(STAGE, 0).len(), 0);
    drop(variables);
}

#[test]
fn what_is_not_held_reads_as_nothing_and_stays_so(rt: HostRuntime) {
    let mut variables = opened(&rt);
    for of in [STAGE, CLONE] {
        variables.set(of, 1, Value::Truth(true));
        variables.change(of, 1, of_whole(3));
        variables
            .push(of, 1, Value::Truth(true))
            .expect(&rt, "memory");
        variables
            .insert(of, 1, 1, Value::Truth(true))
            .expect(&rt, "memory");
        variables.replace(of, 1, 1, Value::Truth(true));
        variables.delete(of, 1, 1);
        variables.clear(of, 1);
        assert_eq!(rt; to_number(variables.value(of, 1)), of_whole(0));
        assert_eq!(rt; variables.items(of, 1).len(), 0);
    }
    drop(variables);
}

#[test]
fn a_clone_has_variables_of_its_own(rt: HostRuntime) {
    let mut variables = opened(&rt);
    assert!(rt; variables.has_store(STAGE));
    assert!(rt; !variables.has_store(CLONE));
    variables.copy_for_clone(STAGE, CLONE).expect(&rt, "memory");
    assert!(rt; variables.has_value(CLONE, 0));
    variables.set(CLONE, 0, Value::Number(of_whole(4)));
    assert_eq!(rt; number_of(&variables, CLONE), of_whole(4));
    assert_eq!(rt; number_of(&variables, STAGE), of_whole(0));
    variables.stop_all(1);
    assert!(rt; !variables.has_value(CLONE, 0));
    variables.drop_instance(STAGE);
    assert!(rt; !variables.has_value(STAGE, 0));
    assert!(rt; !variables.has_store(CLONE));
    variables.copy_for_clone(STAGE, CLONE).expect(&rt, "memory");
    assert!(rt; variables.has_store(CLONE));
    assert!(rt; !variables.has_value(CLONE, 0));
    drop(variables);
}

#[test]
fn monitors_are_hidden_and_added(rt: HostRuntime) {
    let records = records(&rt);
    let mut variables = Variables::open(rt.alloc(), &records).expect(&rt, "memory");
    variables
        .show(&records, Shown::Variable(TargetId(0), 0), false)
        .expect(&rt, "memory");
    assert_eq!(rt; variables.file_monitors().get(0).copied(), Some(false));
    variables
        .show(&records, Shown::List(TargetId(0), 0), true)
        .expect(&rt, "memory");
    assert_eq!(rt; variables.made().len(), 1);
    drop(variables);
    drop(records);
}

#[test]
fn variables_are_made_again_from_their_parts(rt: HostRuntime) {
    let mut values = Values::new(rt.alloc());
    values
        .push(Value::Number(of_whole(3)))
        .expect(&rt, "memory");
    let lists = ValueLists::new(rt.alloc());
    let mut stores = Stores::new(rt.alloc());
    stores
        .push(Store {
            of: CLONE,
            values,
            lists,
        })
        .expect(&rt, "memory");
    let parts = VariableParts {
        stores,
        file_monitors: Truths::new(rt.alloc()),
        made: MadeList::new(rt.alloc()),
    };
    let variables = Variables::rebuild(rt.alloc(), parts);
    assert_eq!(rt; number_of(&variables, CLONE), of_whole(3));
    assert_eq!(rt; variables.stores().len(), 1);
}
