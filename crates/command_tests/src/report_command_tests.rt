//! Worked rows of `report`. Each row goes through one function, so that a test is a table.

use report_command::{Status, exit_number, report, told};
use std::alloc::Global;
use std::process::Abort;
use sv_channels::{MemoryShelf, MemorySink, NamedBytes, Numbers, Pairs, Shelf, Sink, SteadySink};

// The base file up to the blocks of the stage.
static BEFORE_STAGE: &str =
    "{\"targets\":[{\"isStage\":true,\"name\":\"Stage\",\"variables\":{\"v\":[\"n\",0]},\"lists\":{\"k\":[\"l\",[]]},\"broadcasts\":{},\"blocks\":";

// From there to the name of the sprite.
static BEFORE_NAME: &str =
    ",\"comments\":{},\"currentCostume\":0,\"costumes\":[{\"name\":\"b1\"}],\"sounds\":[],\"volume\":100,\"layerOrder\":0},{\"isStage\":false,\"name\":";

// From there to its blocks.
static BEFORE_BLOCKS: &str = ",\"variables\":{},\"lists\":{},\"broadcasts\":{},\"blocks\":";

// From there to the end.
static AFTER_BLOCKS: &str =
    ",\"comments\":{},\"currentCostume\":0,\"costumes\":[{\"name\":\"c1\"}],\"sounds\":[],\"volume\":100,\"layerOrder\":1,\"visible\":true,\"x\":0,\"y\":0,\"size\":100,\"direction\":90,\"draggable\":false,\"rotationStyle\":\"all around\"}],\"monitors\":[]}";

// The base file with these blocks of the stage, and these of a sprite whose name is such a text.
fn project(rt: &(impl Abort + AllocGlobal), stage: &str, name: &str, blocks: &str) -> String {
    let text = format!(in rt.alloc();
        "{BEFORE_STAGE}{stage}{BEFORE_NAME}{name}{BEFORE_BLOCKS}{blocks}{AFTER_BLOCKS}"
    );
    text.expect(rt, "memory")
}

// A shelf with a project `p`, where these calls fail.
fn shelf(rt: &(impl Abort + AllocGlobal), project: &[u8], failing: Numbers) -> MemoryShelf {
    let mut files = NamedBytes::new(rt.alloc());
    files.push("p", project).expect(rt, "memory");
    MemoryShelf::new(rt.alloc(), files, failing)
}

// A line of words, with a single space between each two.
fn words_of(rt: &(impl Abort + AllocGlobal), line: &str) -> Vec<String> {
    let mut words = Vec::new(rt.alloc());
    for word in line.split(' ') {
        let word = String::from_str(rt.alloc(), word).expect(rt, "memory");
        words.push(word).expect(rt, "memory");
    }
    words
}

// As it is called. Nothing of its contract is needed here: a test compares as it runs.
fn called<H: Shelf, K: Sink>(
    alloc: Global,
    words: &[String],
    shelf: &mut H,
    out: &mut K,
) -> Status {
    report(alloc, words, shelf, out)
}

// The status has this text and number, and so much was written.
fn is_told(
    rt: &impl Abort,
    status: &Status,
    written: &[u8],
    text: &str,
    number: u8,
    wanted: &[u8],
) {
    let (name, rule) = told(status);
    assert!(rt; name.len() + rule.len() == text.len(), "{text}");
    assert!(rt; text.starts_with(name), "{text}");
    assert!(rt; text.ends_with(rule), "{text}");
    assert!(rt; exit_number(status) == number, "{text}");
    assert!(rt; written == wanted, "{text}");
}

// What `report` answers to these words over a project, and that nothing is written.
fn is_silent(
    rt: &(impl Abort + AllocGlobal),
    words: &str,
    project: &[u8],
    failing: Numbers,
    text: &str,
    number: u8,
) {
    let mut shelf = shelf(rt, project, failing);
    let mut out = SteadySink::new(rt.alloc());
    let status = called(rt.alloc(), &words_of(rt, words), &mut shelf, &mut out);
    is_told(rt, &status, out.written(), text, number, b"");
}

// What `report p` says of these bytes.
fn says(rt: &(impl Abort + AllocGlobal), bytes: &[u8], text: &str, number: u8, wanted: &str) {
    let mut shelf = shelf(rt, bytes, Numbers::new(rt.alloc()));
    let mut out = SteadySink::new(rt.alloc());
    let status = called(rt.alloc(), &words_of(rt, "p"), &mut shelf, &mut out);
    is_told(rt, &status, out.written(), text, number, wanted.as_bytes());
}

static SCRIPT: &str =
    "{\"a1\":{\"opcode\":\"event_whenflagclicked\",\"next\":\"a2\",\"topLevel\":true},\"a2\":{\"opcode\":\"looks_show\"},\"a3\":{\"opcode\":\"pen_clear\",\"topLevel\":true}}";

// What is said behind the number of scripts, of these blocks of the stage and of the sprite.
fn loads(rt: &(impl Abort + AllocGlobal), stage: &str, blocks: &str, end: &str) {
    let file = project(rt, stage, "\"Cat\"", blocks);
    let text = format!(in rt.alloc(); "The project loads.\nStage and sprites: 2\nScripts: {end}");
    let text = text.expect(rt, "memory");
    says(rt, file.as_bytes(), "Done", 0, text.as_str());
}

#[test]
fn projects_that_load(rt: HostRuntime) {
    loads(
        &rt,
        "{}",
        "{}",
        "0\nBlocks: 0\nLoose blocks, in no script: 0\n",
    );
    loads(
        &rt,
        "{}",
        SCRIPT,
        "1\nBlocks: 3\nLoose blocks, in no script: 1\n",
    );
    loads(
        &rt,
        SCRIPT,
        SCRIPT,
        "2\nBlocks: 6\nLoose blocks, in no script: 2\n",
    );
}

static REFUSED: [(&str, &str, &str, &str, &str); 9] = [
    (
        "{\"a1\":{\"opcode\":\"event_whenflagclicked\",\"next\":\"a2\",\"topLevel\":true},\"a2\":{\"opcode\":\"pen_clear\"}}",
        "P5",
        "block \"a2\", opcode \"pen_clear\"",
        "The player does not know the block.",
        "Take the block out of the script; where it lies loose it does no harm.\nNot known, in scripts: \"pen_clear\" 1",
    ),
    (
        "{\"a1\":{\"opcode\":\"event_whenflagclicked\",\"next\":\"a2\",\"topLevel\":true},\"a2\":{\"opcode\":\"motion_xposition\"}}",
        "P5",
        "block \"a2\", opcode \"motion_xposition\"",
        "The block does not fit its place.",
        "Take the block away, and put it where it belongs.",
    ),
    (
        "{\"a1\":{\"opcode\":\"looks_show\",\"next\":\"a1\"}}",
        "P7",
        "block \"a1\", opcode \"looks_show\"",
        "The links from the block lead back to it.",
        "Cut the link, and build the loop by a forever or a repeat.",
    ),
    (
        "{\"a1\":{\"opcode\":\"looks_show\",\"next\":\"z\\\"z\"}}",
        "P6",
        "block \"a1\", opcode \"looks_show\", link to \"z\\\"z\"",
        "The block leads to an id that no block there has.",
        "Take away what stands below the block and in it, and put it there again.",
    ),
    (
        "{\"a1\":{\"opcode\":\"event_whenflagclicked\",\"next\":\"a2\",\"topLevel\":true},\"a2\":{\"opcode\":\"control_repeat\"}}",
        "P8",
        "block \"a2\", opcode \"control_repeat\", input \"TIMES\"",
        "The block needs that input, and it is empty.",
        "Write a value into that input.",
    ),
    (
        "{\"a1\":{\"opcode\":\"event_whenflagclicked\",\"next\":\"a2\",\"topLevel\":true},\"a2\":{\"opcode\":\"control_stop\"}}",
        "P9",
        "block \"a2\", opcode \"control_stop\", field \"STOP_OPTION\"",
        "The block lacks that field, or has an entry in it that the player does not know.",
        "Choose another entry in that field, or another block.",
    ),
    (
        "{\"a1\":{\"opcode\":\"procedures_call\"}}",
        "P11",
        "block \"a1\", opcode \"procedures_call\"",
        "The own block lacks its mutation or a text in it.",
        "Make the own block and its calls anew in the editor.",
    ),
    (
        "{\"a1\":{\"opcode\":\"procedures_prototype\",\"mutation\":{\"proccode\":\"jump %s\",\"argumentids\":\"[\\\"i\\\",\\\"j\\\"]\",\"argumentnames\":\"[\\\"height\\\"]\",\"warp\":\"false\"}}}",
        "P11",
        "block \"a1\", opcode \"procedures_prototype\"",
        "The mutation of the own block has not as many names and defaults as inputs.",
        "Make the own block and its calls anew in the editor.",
    ),
    (
        "{\"a1\":{\"opcode\":\"procedures_prototype\",\"mutation\":{\"proccode\":\"jump\",\"argumentids\":\"i\",\"argumentnames\":\"[]\"}}}",
        "P11",
        "block \"a1\", opcode \"procedures_prototype\"",
        "A text in the mutation of the own block is not of its kind.",
        "Make the own block and its calls anew in the editor.",
    ),
];

// The text that says so of a project that is refused: by its rule, where, why, and what to change.
fn refused(
    rt: &(impl Abort + AllocGlobal),
    rule: &str,
    place: &str,
    (why, change): (&str, &str),
) -> String {
    let text = format!(in rt.alloc();
        "The project does not load, by rule {rule}\nWhere: {place}\nWhy: {why}\nWhat to change: {change}\n"
    );
    text.expect(rt, "memory")
}

// The bytes are refused by a rule, with this text.
fn is_refused(rt: &(impl Abort + AllocGlobal), bytes: &[u8], rule: &str, wanted: &str) {
    let status = format!(in rt.alloc(); "BadProject {rule}").expect(rt, "memory");
    says(rt, bytes, status.as_str(), 4, wanted);
}

type Row = (
    &'static str,
    &'static str,
    &'static str,
    &'static str,
    &'static str,
);

fn is_refused_in_the_sprite(rt: &(impl Abort + AllocGlobal), row: &Row) {
    let (blocks, rule, block, why, change) = row;
    let file = project(rt, "{}", "\"Cat\"", blocks);
    let place = format!(in rt.alloc(); "sprite \"Cat\", {block}").expect(rt, "memory");
    let text = refused(rt, rule, place.as_str(), (why, change));
    is_refused(rt, file.as_bytes(), rule, text.as_str());
}

fn is_refused_in_the_stage(rt: &(impl Abort + AllocGlobal), row: &Row) {
    let (blocks, rule, block, why, change) = row;
    let file = project(rt, blocks, "\"Cat\"", "{}");
    let place = format!(in rt.alloc(); "stage \"Stage\", {block}").expect(rt, "memory");
    let text = refused(rt, rule, place.as_str(), (why, change));
    is_refused(rt, file.as_bytes(), rule, text.as_str());
}

#[test]
fn blocks_that_are_refused(rt: HostRuntime) {
    for row in &REFUSED {
        is_refused_in_the_sprite(&rt, row);
        is_refused_in_the_stage(&rt, row);
    }
}

static BYTES: [(&str, &str, &str, &str, &str); 4] = [
    (
        "",
        "P1",
        "byte 0",
        "From that byte on the file is no JSON text.",
        "Take project.json out of the archive again, or mend the text at that byte.",
    ),
    (
        "[1,]",
        "P1",
        "byte 3",
        "From that byte on the file is no JSON text.",
        "Take project.json out of the archive again, or mend the text at that byte.",
    ),
    (
        "{}",
        "P2",
        "path \"targets\"",
        "The value at that path has not the shape that a project file has there.",
        "Save the project anew in the editor, or write that value as the editor writes it.",
    ),
    (
        "{\"targets\":[]}",
        "P3",
        "targets that are a stage, 0",
        "A project has exactly one stage.",
        "Let exactly one target have isStage true, as a rule the first.",
    ),
];

#[test]
fn files_that_are_refused(rt: HostRuntime) {
    for (bytes, rule, place, why, change) in &BYTES {
        let text = refused(&rt, rule, place, (why, change));
        is_refused(&rt, bytes.as_bytes(), rule, text.as_str());
    }
}

#[test]
fn bytes_that_are_no_utf8(rt: HostRuntime) {
    let why = "From that byte on the file is no UTF-8.";
    let change = "Take project.json out of the archive, or save the file as UTF-8.";
    let text = refused(&rt, "P1", "byte 2", (why, change));
    is_refused(&rt, b"\"a\xFF\"", "P1", text.as_str());
}

#[test]
fn brackets_that_nest_too_deep(rt: HostRuntime) {
    let why = "The bracket at that byte opens a nesting of more than 256.";
    let change = "Remove what nests so deep.";
    let text = refused(&rt, "P1", "byte 256", (why, change));
    let deep = vec![in rt.alloc(); b'['; 257].expect(&rt, "memory");
    is_refused(&rt, &deep, "P1", text.as_str());
}

static TWO_PENS: &str =
    "{\"s1\":{\"opcode\":\"event_whenflagclicked\",\"next\":\"s2\",\"topLevel\":true},\"s2\":{\"opcode\":\"pen_penDown\",\"next\":\"s3\"},\"s3\":{\"opcode\":\"pen_clear\"}}";

// Touching with its menu and a pen in a script, and a drum that lies loose.
static TOUCHING: &str =
    "{\"a1\":{\"opcode\":\"event_whenflagclicked\",\"next\":\"a2\",\"topLevel\":true},\"a2\":{\"opcode\":\"control_if\",\"next\":\"a4\",\"inputs\":{\"CONDITION\":[2,\"a3\"]}},\"a3\":{\"opcode\":\"sensing_touchingobject\",\"inputs\":{\"TOUCHINGOBJECTMENU\":[1,\"m1\"]}},\"m1\":{\"opcode\":\"sensing_touchingobjectmenu\",\"fields\":{\"TOUCHINGOBJECTMENU\":[\"_mouse_\"]},\"shadow\":true},\"a4\":{\"opcode\":\"pen_penDown\"},\"a5\":{\"opcode\":\"music_playDrumForBeats\",\"topLevel\":true}}";

#[test]
fn blocks_that_are_not_known(rt: HostRuntime) {
    let file = project(&rt, TWO_PENS, "\"Cat\"", TOUCHING);
    let place = "stage \"Stage\", block \"s2\", opcode \"pen_penDown\"";
    let why = "The player does not know the block.";
    let change =
        "Take the block out of the script; where it lies loose it does no harm.\nNot known, in scripts: \"pen_penDown\" 2\nNot known, in scripts: \"pen_clear\" 1\nNot known, in scripts: \"sensing_touchingobject\" 1";
    let text = refused(&rt, "P5", place, (why, change));
    is_refused(&rt, file.as_bytes(), "P5", text.as_str());
}

static OWN_NEXT: &str = "{\"a\\rb\":{\"opcode\":\"looks_show\",\"next\":\"a\\rb\"}}";

#[test]
fn names_are_quoted(rt: HostRuntime) {
    let file = project(&rt, "{}", "\"a\\\\b\\nc\"", OWN_NEXT);
    let place = "sprite \"a\\\\b\\nc\", block \"a\\rb\", opcode \"looks_show\"";
    let why = "The links from the block lead back to it.";
    let change = "Cut the link, and build the loop by a forever or a repeat.";
    let text = refused(&rt, "P7", place, (why, change));
    is_refused(&rt, file.as_bytes(), "P7", text.as_str());
}

#[test]
fn words_that_are_not_one_name(rt: HostRuntime) {
    let file = project(&rt, "{}", "\"Cat\"", "{}");
    for words in ["p p", "report p", "p "] {
        let steady = Numbers::new(rt.alloc());
        is_silent(&rt, words, file.as_bytes(), steady, "Usage", 1);
    }
}

#[test]
fn no_word_is_no_name(rt: HostRuntime) {
    let mut shelf = shelf(&rt, b"", Numbers::new(rt.alloc()));
    let mut out = SteadySink::new(rt.alloc());
    let status = called(rt.alloc(), &[], &mut shelf, &mut out);
    is_told(&rt, &status, out.written(), "Usage", 1, b"");
}

#[test]
fn files_that_are_not_fetched(rt: HostRuntime) {
    let file = project(&rt, "{}", "\"Cat\"", "{}");
    for (words, failing) in [("p", 0), ("missing", 9)] {
        let mut calls = Numbers::new(rt.alloc());
        calls.push(failing).expect(&rt, "memory");
        is_silent(&rt, words, file.as_bytes(), calls, "ReadFault", 2);
    }
}

#[test]
fn a_project_above_its_limit(rt: HostRuntime) {
    let large = vec![in rt.alloc(); b' '; 33_554_433].expect(&rt, "memory");
    says(&rt, &large, "TooLarge", 8, "");
}

// The first write fails after so many bytes.
fn is_cut(rt: &(impl Abort + AllocGlobal), project: &[u8], kept: u64, written: &[u8]) {
    let mut shelf = shelf(rt, project, Numbers::new(rt.alloc()));
    let mut fails = Pairs::new(rt.alloc());
    fails.push((0, kept)).expect(rt, "memory");
    let mut out = MemorySink::new(rt.alloc(), fails);
    let status = called(rt.alloc(), &words_of(rt, "p"), &mut shelf, &mut out);
    is_told(rt, &status, out.written(), "WriteFault", 3, written);
}

#[test]
fn a_write_that_fails(rt: HostRuntime) {
    let file = project(&rt, "{}", "\"Cat\"", "{}");
    is_cut(&rt, file.as_bytes(), 0, b"");
    is_cut(&rt, file.as_bytes(), 3, b"The");
}
