//! Inputs and fields that are there, and those that are not.

use block_arguments::{Place, field, held_at, number, text, truth, value};
use machine_spec::InstanceId;
use project_json::{Text, read};
use scratch_number::{Num, of_whole};
use scratch_values::{Arg, Args, BoundText, Held, ResolvedField, Value, VarRef};
use std::alloc::Global;
use std::process::Abort;
use target_records::Records;

static DOCUMENT: &str =
    r#"{"targets":[{"isStage":false,"name":"Cat","costumes":[{"name":"c"}],"blocks":{}},{"isStage":true,"name":"Stage","costumes":[{"name":"b"}],"blocks":{}}]}"#;

fn records(rt: &impl Abort, alloc: Global) -> Records {
    let document = read(alloc, DOCUMENT.as_bytes()).expect(rt, "JSON");
    target_records::read(alloc, &document).expect(rt, "records")
}

fn resolved(
    rt: &impl Abort,
    alloc: Global,
    (name, text): (&str, &str),
    variable: VarRef,
) -> ResolvedField {
    ResolvedField {
        name: Text::from_str(alloc, name).expect(rt, "memory"),
        text: Text::from_str(alloc, text).expect(rt, "memory"),
        variable: Some(variable),
    }
}

fn fields(rt: &impl Abort, alloc: Global) -> Vec<ResolvedField> {
    let mut fields = Vec::new(alloc);
    let first = resolved(rt, alloc, ("VARIABLE", "n"), VarRef::Stage(2));
    fields.push(first).expect(rt, "memory");
    let second = resolved(rt, alloc, ("LIST", "l"), VarRef::Own(1));
    fields.push(second).expect(rt, "memory");
    fields
}

fn written(rt: &impl Abort, alloc: Global, text: &str) -> Value {
    let text = BoundText::from_str(alloc, text).expect(rt, "memory");
    Value::Text(text.expect(rt, "a short text"))
}

fn is_number(value: &Value, number: Num) -> bool {
    match value {
        Value::Number(own) => *own == number,
        _ => false,
    }
}

#[test]
fn inputs_are_read_by_their_names(rt: HostRuntime) {
    let alloc = rt.alloc();
    let fields = fields(&rt, alloc);
    let name = Text::from_str(alloc, "ITEM").expect(&rt, "memory");
    let item = written(&rt, alloc, "0x10");
    let args = Args::one(
        &fields,
        Arg {
            name: &name,
            value: Held::Lent(&item),
        },
    );
    assert_eq!(rt; number(&args, "ITEM"), of_whole(16));
    assert_eq!(rt; number(&args, "item"), of_whole(0));
    assert!(rt; truth(&args, "ITEM"));
    assert!(rt; !truth(&args, "OTHER"));
    assert_eq!(rt;
        text(alloc, &args, "ITEM").expect(&rt, "memory").as_str(),
        "0x10"
    );
    assert_eq!(rt;
        text(alloc, &args, "OTHER").expect(&rt, "memory").as_str(),
        "0"
    );
    let copy = value(&args, "ITEM").expect(&rt, "memory");
    assert!(rt; !is_number(&copy, of_whole(16)));
    let none = value(&args, "OTHER").expect(&rt, "memory");
    assert!(rt; is_number(&none, of_whole(0)));
}

#[test]
fn fields_are_read_by_their_names(rt: HostRuntime) {
    let alloc = rt.alloc();
    let fields = fields(&rt, alloc);
    let records = records(&rt, alloc);
    let args = Args::none(&fields);
    assert_eq!(rt; field(&args, "LIST"), "l");
    assert_eq!(rt; field(&args, "OTHER"), "");
    let own = Place {
        of: InstanceId(9),
        index: 1,
    };
    assert!(rt; held_at(&args, "LIST", InstanceId(9), &records) == own);
    let of_stage = Place {
        of: InstanceId(1),
        index: 2,
    };
    assert!(rt; held_at(&args, "VARIABLE", InstanceId(9), &records) == of_stage);
    let first = Place {
        of: InstanceId(9),
        index: 0,
    };
    assert!(rt; held_at(&args, "OTHER", InstanceId(9), &records) == first);
    drop(records);
}
