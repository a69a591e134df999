//! What the loader says of projects.

use machine_spec::{BlockId, TargetId};
use project_check::{Project, load};
use project_json::JsonRefusal;
use project_spec::{At, MutationRefusal, Refusal};
use std::alloc::{AllocError, Global};
use std::process::Abort;

mod rows;

fn fault(alloc: Global, refusal: &JsonRefusal) -> Result<String, AllocError> {
    match refusal {
        JsonRefusal::NotUtf8 { at } => format!(in alloc; "P1 NotUtf8 {at}"),
        JsonRefusal::Syntax { at } => format!(in alloc; "P1 Syntax {at}"),
        JsonRefusal::TooDeep { at } => format!(in alloc; "P1 TooDeep {at}"),
        JsonRefusal::NoMemory => String::from_str(alloc, "no memory"),
    }
}

fn why(refusal: &MutationRefusal) -> &'static str {
    match refusal {
        MutationRefusal::Missing => "Missing",
        MutationRefusal::BadText => "BadText",
        MutationRefusal::LengthsDiffer => "LengthsDiffer",
        MutationRefusal::NoMemory => "NoMemory",
    }
}

fn at_block(alloc: Global, number: &str, at: &At, rest: &str) -> Result<String, AllocError> {
    let target = at.target;
    let block = at.block;
    if rest.is_empty() {
        return format!(in alloc; "{number} {target} {block}");
    }
    format!(in alloc; "{number} {target} {block} {rest}")
}

// The number of a refusal and what it carries.
fn told(alloc: Global, refusal: &Refusal) -> Result<String, AllocError> {
    match refusal {
        Refusal::Json(refusal) => fault(alloc, refusal),
        Refusal::Shape { path } => format!(in alloc; "P2 {}", path.as_str()),
        Refusal::StageCount { n } => format!(in alloc; "P3 {n}"),
        Refusal::TooMany { path } => format!(in alloc; "P4 {}", path.as_str()),
        Refusal::Mutation(at, refusal) => at_block(alloc, "P11", at, why(refusal)),
        Refusal::Dangling { at, to } => at_block(alloc, "P6", at, to.as_str()),
        Refusal::Cyclic { at } => at_block(alloc, "P7", at, ""),
        Refusal::Opcode { at, name } => at_block(alloc, "P5", at, name.as_str()),
        Refusal::MissingInput { at, input } => at_block(alloc, "P8", at, input.as_str()),
        Refusal::Field { at, field } => at_block(alloc, "P9", at, field.as_str()),
        Refusal::TooDeep { at } => at_block(alloc, "P10", at, ""),
        Refusal::NoMemory => String::from_str(alloc, "no memory"),
    }
}

// What the loader says of a project.
fn said(alloc: Global, project: &[u8]) -> Result<String, AllocError> {
    if project.len() > 100_000_000 {
        return String::from_str(alloc, "large");
    }
    match load(alloc, project) {
        Ok(project) => {
            let targets = project.target_count();
            let blocks = project.block_count();
            format!(in alloc; "accepted {targets} {blocks}")
        }
        Err(refusal) => told(alloc, &refusal),
    }
}

// Each project is told as the table says.
fn hold(rt: &(impl Abort + AllocGlobal), rows: &[(&str, &str)]) {
    for (project, want) in rows {
        is_said(rt, project.as_bytes(), want);
    }
}

fn is_said(rt: &(impl Abort + AllocGlobal), project: &[u8], want: &str) {
    let said = said(rt.alloc(), project).expect(rt, "memory");
    assert!(rt; said.as_str() == want, "{want}");
}

#[test]
fn rows_of_no_text(rt: HostRuntime) {
    hold(&rt, &rows::NO_TEXT);
}

#[test]
fn rows_of_shapes_of_targets(rt: HostRuntime) {
    hold(&rt, &rows::SHAPES);
}

#[test]
fn rows_of_shapes_of_blocks(rt: HostRuntime) {
    hold(&rt, &rows::SHAPES_BELOW);
}

#[test]
fn rows_of_stages(rt: HostRuntime) {
    hold(&rt, &rows::STAGES);
}

#[test]
fn rows_of_mutations(rt: HostRuntime) {
    hold(&rt, &rows::MUTATIONS);
}

#[test]
fn rows_of_links(rt: HostRuntime) {
    hold(&rt, &rows::LINKS);
}

#[test]
fn rows_of_cycles(rt: HostRuntime) {
    hold(&rt, &rows::CYCLES);
}

#[test]
fn rows_of_places(rt: HostRuntime) {
    hold(&rt, &rows::PLACES);
}

#[test]
fn rows_of_inputs(rt: HostRuntime) {
    hold(&rt, &rows::INPUTS);
}

#[test]
fn rows_of_fields(rt: HostRuntime) {
    hold(&rt, &rows::FIELDS);
}

#[test]
fn rows_of_accepted(rt: HostRuntime) {
    hold(&rt, &rows::ACCEPTED);
}

#[test]
fn bytes_that_are_no_text(rt: HostRuntime) {
    let rows: [(&[u8], &str); 3] = [
        (b"\xEF\xBB\xBF{}", "P1 Syntax 0"),
        (b"{\"a\xFF\":1}", "P1 NotUtf8 3"),
        (b"\xFF\xFE", "P1 NotUtf8 0"),
    ];
    for (bytes, want) in rows {
        is_said(&rt, bytes, want);
    }
}

const STAGE: &str =
    "{\"isStage\":true,\"name\":\"S\",\"costumes\":[{\"name\":\"b\"}],\"blocks\":{}}";

// A text again and again, with commas between.
fn repeated(alloc: Global, text: &str, count: u32) -> Result<String, AllocError> {
    let mut all = String::new(alloc);
    for i in 0..count {
        if i > 0 {
            all.push_str(",")?;
        }
        all.push_str(text)?;
    }
    Ok(all)
}

#[test]
fn one_stage(rt: HostRuntime) {
    for n in [0u32, 2, 3, 4, 7, 11, 999, 1001] {
        let stages = repeated(rt.alloc(), STAGE, n).expect(&rt, "memory");
        let project = format!(in rt.alloc(); "{{\"targets\":[{stages}]}}").expect(&rt, "memory");
        let want = format!(in rt.alloc(); "P3 {n}").expect(&rt, "memory");
        is_said(&rt, project.as_bytes(), want.as_str());
    }
}

// A project with a stage of these members beside its name and what stands behind the targets.
fn staged(alloc: Global, members: &str, more: &str) -> Result<String, AllocError> {
    format!(in alloc; "{{\"targets\":[{{\"isStage\":true,\"name\":\"S\",{members}}}{more}}}")
}

// The members of a stage, in one of which stands a text.
static LONG: [(&str, &str, &str); 6] = [
    (
        "\"costumes\":[{\"name\":\"b\"}],\"blocks\":{},\"variables\":{\"v\":[\"n\",\"",
        "\"]}",
        "targets/0/variables/v/1",
    ),
    (
        "\"costumes\":[{\"name\":\"b\"}],\"blocks\":{},\"lists\":{\"v\":[\"n\",[1,\"",
        "\"]]}",
        "targets/0/lists/v/1/1",
    ),
    (
        "\"costumes\":[{\"name\":\"",
        "\"}],\"blocks\":{}",
        "targets/0/costumes/0/name",
    ),
    (
        "\"costumes\":[{\"name\":\"b\"}],\"blocks\":{\"k\":{\"opcode\":\"a\",\"inputs\":{\"I\":[1,[10,\"",
        "\"]]}}}",
        "targets/0/blocks/k/inputs/I/1/1",
    ),
    (
        "\"costumes\":[{\"name\":\"b\"}],\"blocks\":{\"k\":{\"opcode\":\"a\",\"fields\":{\"F\":[\"",
        "\"]}}}",
        "targets/0/blocks/k/fields/F/0",
    ),
    (
        "\"costumes\":[{\"name\":\"b\"}],\"blocks\":{\"k\":[12,\"",
        "\",\"v\"]}",
        "targets/0/blocks/k/1",
    ),
];

// What is said of a stage with a text of so many bytes there.
fn said_of_text(
    alloc: Global,
    front: &str,
    back: &str,
    length: usize,
) -> Result<String, AllocError> {
    let mut members = String::from_str(alloc, front)?;
    for _ in 0..length {
        members.push_str("x")?;
    }
    members.push_str(back)?;
    let project = staged(alloc, members.as_str(), "]")?;
    said(alloc, project.as_bytes())
}

#[test]
fn texts_at_their_limit(rt: HostRuntime) {
    for (front, back, path) in &LONG {
        let said = said_of_text(rt.alloc(), front, back, 1_048_577).expect(&rt, "memory");
        assert_eq!(rt;
            said.as_str(),
            format!(in rt.alloc(); "P4 {path}")
                .expect(&rt, "memory")
                .as_str()
        );
        let said = said_of_text(rt.alloc(), front, back, 1_048_576).expect(&rt, "memory");
        assert!(rt; said.as_str().starts_with("accepted 1"));
    }
}

#[test]
fn counts_at_their_limits(rt: HostRuntime) {
    let alloc = rt.alloc();
    let sprite = "{\"isStage\":false,\"name\":\"A\",\"costumes\":[{\"name\":\"b\"}],\"blocks\":{}}";
    let monitor = "{\"id\":\"a\",\"opcode\":\"b\"}";
    let members = "\"costumes\":[{\"name\":\"b\"}],\"blocks\":{}";
    for (more, monitors, want) in [
        (1000u32, 10_001u32, "P4 targets"),
        (999, 10_001, "P4 monitors"),
        (999, 10_000, "accepted 1000 0"),
    ] {
        let sprites = repeated(alloc, sprite, more).expect(&rt, "memory");
        let monitors = repeated(alloc, monitor, monitors).expect(&rt, "memory");
        let rest = format!(in alloc; ",{sprites}],\"monitors\":[{monitors}]").expect(&rt, "memory");
        let project = staged(alloc, members, rest.as_str()).expect(&rt, "memory");
        is_said(&rt, project.as_bytes(), want);
    }
}

// Reporters, each in the one before it, so many deep.
fn nested(alloc: Global, depth: u32) -> Result<String, AllocError> {
    let mut blocks = String::new(alloc);
    for i in 1..depth {
        let next = i + 1;
        let block = format!(in alloc;
            "\"r{i}\":{{\"opcode\":\"operator_not\",\"inputs\":{{\"OPERAND\":[2,\"r{next}\"]}}}},"
        )?;
        blocks.push_str(block.as_str())?;
    }
    let last = format!(in alloc; "\"r{depth}\":{{\"opcode\":\"operator_not\"}}")?;
    blocks.push_str(last.as_str())?;
    format!(in alloc; "\"costumes\":[{{\"name\":\"b\"}}],\"blocks\":{{{blocks}}}")
}

#[test]
fn reporters_256_and_257_deep(rt: HostRuntime) {
    for (depth, want) in [
        (255u32, "accepted 1 255"),
        (256, "accepted 1 256"),
        (257, "P10 0 0"),
        (300, "P10 0 0"),
    ] {
        let members = nested(rt.alloc(), depth).expect(&rt, "memory");
        let project = staged(rt.alloc(), members.as_str(), "]").expect(&rt, "memory");
        is_said(&rt, project.as_bytes(), want);
    }
}

// A chain of blocks along next.
#[test]
fn a_chain_of_20_000_blocks(rt: HostRuntime) {
    let alloc = rt.alloc();
    let mut blocks = String::from_str(
        alloc,
        "\"costumes\":[{\"name\":\"b\"}],\"blocks\":{\"b0\":{\"opcode\":\"event_whenflagclicked\",\"topLevel\":true,\"next\":\"b1\"}",
    )
    .expect(&rt, "memory");
    for i in 1..19_999u32 {
        let next = i + 1;
        let block = format!(in alloc;
            ",\"b{i}\":{{\"opcode\":\"looks_hide\",\"next\":\"b{next}\"}}"
        ).expect(&rt, "memory");
        blocks.push_str(block.as_str()).expect(&rt, "memory");
    }
    blocks
        .push_str(",\"b19999\":{\"opcode\":\"looks_hide\"}}")
        .expect(&rt, "memory");
    let project = staged(alloc, blocks.as_str(), "]").expect(&rt, "memory");
    is_said(&rt, project.as_bytes(), "accepted 1 20000");
}

const NAMES: &str =
    "{\"targets\":[{\"isStage\":true,\"name\":\"S\",\"costumes\":[{\"name\":\"b\"}],\"variables\":{\"v\":[\"n\",0]},\"blocks\":{}},{\"isStage\":false,\"name\":\"C\",\"costumes\":[{\"name\":\"c\"}],\"blocks\":{\"h\":{\"opcode\":\"event_whenflagclicked\",\"topLevel\":true,\"next\":\"s\"},\"s\":{\"opcode\":\"data_setvariableto\",\"inputs\":{\"VALUE\":[3,[12,\"z\",\"q\"],[10,\"\"]]},\"fields\":{\"VARIABLE\":[\"n\",\"gone\"]}},\"l\":{\"opcode\":\"data_setvariableto\",\"topLevel\":true,\"fields\":{\"VARIABLE\":[\"n\",\"v\"]}}}}]}";

fn resolved(rt: &impl Abort, project: &Project) {
    assert_eq!(rt; project.target_count(), 2);
    let sprite = TargetId(1);
    let blocks = project.blocks(sprite);
    assert_eq!(rt; blocks.len(), 3);
    assert!(rt; blocks.number_of("s").is_some_and(|id| id.0 == 1));
    assert!(rt; blocks.number_of("gone").is_none());
    let heads = project.heads(sprite);
    assert_eq!(rt; heads.len(), 1);
    let set = BlockId(1);
    assert!(rt; project.rank(sprite, set) < project.rank(sprite, BlockId(0)));
    assert!(rt; project.field_variable(sprite, set, "VARIABLE").is_some());
    assert!(rt; project.input_variable(sprite, set, "VALUE").is_some());
    assert!(rt; project.input_variable(sprite, set, "VARIABLE").is_none());
    assert!(rt;
        project
            .field_variable(sprite, BlockId(1_000), "VARIABLE")
            .is_none()
    );
    assert!(rt;
        project
            .input_variable(sprite, BlockId(1_000), "VALUE")
            .is_none()
    );
    let loose = BlockId(2);
    assert!(rt; project.field_variable(sprite, loose, "VARIABLE").is_none());
    assert!(rt; project.block(sprite, set).next.is_none());
    assert_eq!(rt; project.records().targets(), 2);
}

#[test]
fn what_a_project_shows(rt: HostRuntime) {
    match load(rt.alloc(), NAMES.as_bytes()) {
        Ok(project) => resolved(&rt, &project),
        Err(_) => panic!(rt; "refused"),
    }
}

const PROCEDURES: &str =
    "{\"targets\":[{\"isStage\":true,\"name\":\"S\",\"costumes\":[{\"name\":\"b\"}],\"blocks\":{\"p\":{\"opcode\":\"procedures_prototype\",\"shadow\":true,\"mutation\":{\"proccode\":\"f\",\"argumentids\":\"[]\",\"argumentnames\":\"[]\",\"argumentdefaults\":\"[]\",\"warp\":\"false\"}},\"d\":{\"opcode\":\"procedures_definition\",\"topLevel\":true,\"inputs\":{\"custom_block\":[1,\"p\"]}},\"e\":{\"opcode\":\"procedures_definition\",\"topLevel\":true,\"inputs\":{\"custom_block\":[1,\"p\"]}}}}]}";

// The first definition of a code counts.
fn defined(rt: &impl Abort, project: &Project) {
    assert_eq!(rt; project.target_count(), 1);
    let definition = project.procedure(TargetId(0), "f");
    assert!(rt; definition.is_some_and(|id| id.0 == 1));
    assert!(rt; project.procedure(TargetId(0), "g").is_none());
    match project.callee(TargetId(0), "f") {
        Some(callee) => {
            assert_eq!(rt; callee.definition.0, 1);
            assert_eq!(rt; callee.prototype.code.as_str(), "f");
        }
        None => panic!(rt; "no procedure"),
    }
    assert!(rt; project.callee(TargetId(1), "f").is_none());
}

#[test]
fn what_a_code_defines(rt: HostRuntime) {
    match load(rt.alloc(), PROCEDURES.as_bytes()) {
        Ok(project) => defined(&rt, &project),
        Err(_) => panic!(rt; "refused"),
    }
}
