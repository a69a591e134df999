//! Worked rows of `play`. Each row goes through one function, so that a test is a table.

use play_command::{Status, exit_number, play, status_text};
use project_json::JsonRefusal;
use project_spec::Refusal;
use std::alloc::Global;
use std::process::Abort;
use sv_channels::{MemoryShelf, MemorySink, NamedBytes, Numbers, Pairs, Shelf, Sink, SteadySink};

// The base file up to the blocks of the stage.
static BEFORE_STAGE: &str =
    "{\"targets\":[{\"isStage\":true,\"name\":\"Stage\",\"variables\":{\"v\":[\"n\",0]},\"lists\":{\"k\":[\"l\",[]]},\"broadcasts\":{},\"blocks\":";

// From there to the blocks of the sprite Cat.
static BEFORE_CAT: &str =
    ",\"comments\":{},\"currentCostume\":0,\"costumes\":[{\"name\":\"b1\",\"dataFormat\":\"svg\",\"assetId\":\"0\",\"md5ext\":\"0.svg\",\"rotationCenterX\":240,\"rotationCenterY\":180}],\"sounds\":[{\"name\":\"pop\",\"assetId\":\"1\",\"dataFormat\":\"wav\",\"md5ext\":\"1.wav\"}],\"volume\":100,\"layerOrder\":0,\"tempo\":60},{\"isStage\":false,\"name\":\"Cat\",\"variables\":{},\"lists\":{},\"broadcasts\":{},\"blocks\":";

// From there to the end.
static AFTER_CAT: &str =
    ",\"comments\":{},\"currentCostume\":0,\"costumes\":[{\"name\":\"c1\",\"dataFormat\":\"svg\",\"assetId\":\"2\",\"md5ext\":\"2.svg\"}],\"sounds\":[],\"volume\":100,\"layerOrder\":1,\"visible\":true,\"x\":0,\"y\":0,\"size\":100,\"direction\":90,\"draggable\":false,\"rotationStyle\":\"all around\"}],\"monitors\":[{\"id\":\"v\",\"mode\":\"default\",\"opcode\":\"data_variable\",\"params\":{\"VARIABLE\":\"n\"},\"spriteName\":null,\"value\":0,\"visible\":true}],\"extensions\":[],\"meta\":{\"semver\":\"3.0.0\"}}";

static SET_AND_CHANGE: &str =
    "{\"a1\":{\"opcode\":\"event_whenflagclicked\",\"next\":\"a2\",\"topLevel\":true},\"a2\":{\"opcode\":\"data_setvariableto\",\"next\":\"a3\",\"inputs\":{\"VALUE\":[1,[4,\"5\"]]},\"fields\":{\"VARIABLE\":[\"n\",\"v\"]}},\"a3\":{\"opcode\":\"data_changevariableby\",\"next\":null,\"inputs\":{\"VALUE\":[1,[4,\"2\"]]},\"fields\":{\"VARIABLE\":[\"n\",\"v\"]}}}";

static SET_TO_ONE: &str =
    "{\"a1\":{\"opcode\":\"event_whenflagclicked\",\"next\":\"a2\",\"topLevel\":true},\"a2\":{\"opcode\":\"data_setvariableto\",\"inputs\":{\"VALUE\":[1,[4,\"1\"]]},\"fields\":{\"VARIABLE\":[\"n\",\"v\"]}}}";

static SET_TO_TWO: &str =
    "{\"a1\":{\"opcode\":\"event_whenflagclicked\",\"next\":\"a2\",\"topLevel\":true},\"a2\":{\"opcode\":\"data_setvariableto\",\"inputs\":{\"VALUE\":[1,[4,\"2\"]]},\"fields\":{\"VARIABLE\":[\"n\",\"v\"]}}}";

static FORWARD: &str =
    "{\"a1\":{\"opcode\":\"event_whenflagclicked\",\"next\":\"a2\",\"topLevel\":true},\"a2\":{\"opcode\":\"control_forever\"}}";

static TOUCHING: &str =
    "{\"a1\":{\"opcode\":\"event_whenflagclicked\",\"next\":\"a2\",\"topLevel\":true},\"a2\":{\"opcode\":\"control_if\",\"inputs\":{\"CONDITION\":[2,\"a3\"]}},\"a3\":{\"opcode\":\"sensing_touchingobject\"}}";

static OWN_NEXT: &str =
    "{\"a1\":{\"opcode\":\"event_whenflagclicked\",\"next\":\"a2\",\"topLevel\":true},\"a2\":{\"opcode\":\"looks_hide\",\"next\":\"a2\"}}";

// The base file with these blocks of the stage and of Cat.
fn project(rt: &(impl Abort + AllocGlobal), stage: &str, cat: &str) -> String {
    let text = format!(in rt.alloc(); "{BEFORE_STAGE}{stage}{BEFORE_CAT}{cat}{AFTER_CAT}");
    text.expect(rt, "memory")
}

// A shelf with a project `p` and a script `s`, where these calls fail.
fn shelf(
    rt: &(impl Abort + AllocGlobal),
    project: &[u8],
    script: &[u8],
    failing: Numbers,
) -> MemoryShelf {
    let mut files = NamedBytes::new(rt.alloc());
    files.push("p", project).expect(rt, "memory");
    files.push("s", script).expect(rt, "memory");
    MemoryShelf::new(rt.alloc(), files, failing)
}

fn one_call(rt: &(impl Abort + AllocGlobal), number: u64) -> Numbers {
    let mut calls = Numbers::new(rt.alloc());
    calls.push(number).expect(rt, "memory");
    calls
}

// A line of words, with a single space between each two.
fn words_of(rt: &(impl Abort + AllocGlobal), line: &str) -> Vec<String> {
    let mut words = Vec::new(rt.alloc());
    for word in line.split(' ') {
        let word = String::from_str(rt.alloc(), word).expect(rt, "memory");
        words.push(word).expect(rt, "memory");
    }
    words
}

// As it is called. Nothing of its contract is needed here: a test compares as it runs.
fn called<H: Shelf, K: Sink>(
    alloc: Global,
    words: &[String],
    shelf: &mut H,
    out: &mut K,
) -> Status {
    play(alloc, words, shelf, out)
}

// What a call answers and writes: the status's text, its number, and the bytes.
#[derive(Drop)]
struct Answer {
    text: String,
    number: u8,
    written: Vec<u8>,
}

fn told(rt: &(impl Abort + AllocGlobal), status: &Status, written: &[u8]) -> Answer {
    Answer {
        text: status_text(rt.alloc(), status).expect(rt, "memory"),
        number: exit_number(status),
        written: written.to_vec(rt.alloc()).expect(rt, "memory"),
    }
}

// The answer over this shelf, where every write is done.
fn over(rt: &(impl Abort + AllocGlobal), words: &str, shelf: &mut MemoryShelf) -> Answer {
    let mut out = SteadySink::new(rt.alloc());
    let status = called(rt.alloc(), &words_of(rt, words), shelf, &mut out);
    told(rt, &status, out.written())
}

fn answered(rt: &(impl Abort + AllocGlobal), words: &str, project: &[u8], script: &[u8]) -> Answer {
    let mut shelf = shelf(rt, project, script, Numbers::new(rt.alloc()));
    over(rt, words, &mut shelf)
}

// The same where one call of the shelf fails.
fn unfetched(rt: &(impl Abort + AllocGlobal), words: &str, failing: u64) -> Answer {
    let base = project(rt, "{}", "{}");
    let mut shelf = shelf(rt, base.as_bytes(), TWO_FRAMES, one_call(rt, failing));
    over(rt, words, &mut shelf)
}

// The same where one write fails after some bytes.
fn unwritten(rt: &(impl Abort + AllocGlobal), words: &str, failing: u64, kept: u64) -> Answer {
    let base = project(rt, "{}", "{}");
    let mut shelf = shelf(rt, base.as_bytes(), TWO_FRAMES, Numbers::new(rt.alloc()));
    let mut fails = Pairs::new(rt.alloc());
    fails.push((failing, kept)).expect(rt, "memory");
    let mut out = MemorySink::new(rt.alloc(), fails);
    let status = called(rt.alloc(), &words_of(rt, words), &mut shelf, &mut out);
    told(rt, &status, out.written())
}

// What stands under a name, if anything does.
fn bytes_at(rt: &(impl Abort + AllocGlobal), shelf: &MemoryShelf, name: &str) -> Option<Vec<u8>> {
    match shelf.bytes(name) {
        Some(bytes) => Some(bytes.to_vec(rt.alloc()).expect(rt, "memory")),
        None => None,
    }
}

// The saved run of the base file with no blocks, after TWO_FRAMES with the seed 7, as its format says.
static SAVED: &str =
    "{\"answer\":\"\",\"clock\":0,\"drawn\":0,\"frame\":2,\"instances\":[{\"bubble\":[\"say\",\"\",0],\"costume\":0,\"direction\":90000000,\"edges\":[],\"effects\":[0,0,0,0,0,0,0],\"lists\":[[]],\"number\":0,\"of\":0,\"size\":100000000,\"style\":0,\"variables\":[[0]],\"visible\":true,\"x\":0,\"y\":0},{\"bubble\":[\"say\",\"\",0],\"costume\":0,\"direction\":90000000,\"edges\":[],\"effects\":[0,0,0,0,0,0,0],\"lists\":[],\"number\":1,\"of\":1,\"size\":100000000,\"style\":0,\"variables\":[],\"visible\":true,\"x\":0,\"y\":0}],\"keys\":[],\"made\":[],\"monitors\":[true],\"mouse\":[0,0,false],\"next\":[1,2,1],\"project\":\"bc2740f938d9fa5d256328f8f77408ce17ec7fdd4ee29446f02128f83ec259cd\",\"questions\":[],\"seed\":7,\"threads\":[],\"timer\":0,\"timers\":[],\"turbo\":false,\"version\":1}";

// What a call over the base file with no blocks answers, and what it leaves under the name `kept`; one call of the shelf
// fails.
fn saved(
    rt: &(impl Abort + AllocGlobal),
    words: &str,
    script: &[u8],
    failing: u64,
) -> (Answer, Option<Vec<u8>>) {
    let base = project(rt, "{}", "{}");
    let mut shelf = shelf(rt, base.as_bytes(), script, one_call(rt, failing));
    let answer = over(rt, words, &mut shelf);
    (answer, bytes_at(rt, &shelf, "kept"))
}

// The answer has this text and number, and so much was written.
fn is_told(rt: &impl Abort, answer: &Answer, text: &str, number: u8, written: &[u8]) {
    assert!(rt; answer.text.as_str() == text, "{text}");
    assert!(rt; answer.number == number, "{text}");
    assert!(rt; answer.written.as_slice() == written, "{text}");
}

static TWO_FRAMES: &[u8] = b"frame 0 1 0\nflag\nframe 0 1 0\n";

// A frame of the base file, with this value of n.
fn frame_at(rt: &(impl Abort + AllocGlobal), number: u32, clock: u32, value: &str) -> String {
    let text = format!(in rt.alloc();
        "frame {number} clock {clock} words 0\nstage 1 \"b1\"\nsprite 1 \"Cat\" original shown 0 0 90 100 1 \"c1\" \"all around\"\nmonitor \"n\" \"{value}\"\nend\n"
    );
    text.expect(rt, "memory")
}

// One frame after a click on the flag.
fn plays_to(rt: &(impl Abort + AllocGlobal), stage: &str, cat: &str, value: &str) {
    let base = project(rt, stage, cat);
    let answer = answered(rt, "play p s 1 -", base.as_bytes(), b"flag\nframe 0 1 0\n");
    is_told(rt, &answer, "Done", 0, frame_at(rt, 1, 0, value).as_bytes());
}

#[test]
fn one_frame(rt: HostRuntime) {
    let rows = [
        ("{}", "{}", "0"),
        ("{}", SET_AND_CHANGE, "7"),
        // The stage starts last.
        (SET_TO_TWO, SET_TO_ONE, "2"),
    ];
    for (stage, cat, value) in rows {
        plays_to(&rt, stage, cat, value);
    }
}

#[test]
fn a_run_is_saved(rt: HostRuntime) {
    let (answer, kept) = saved(&rt, "play p s 7 kept", TWO_FRAMES, 9);
    assert_eq!(rt; answer.text.as_str(), "Done");
    assert_eq!(rt; kept.as_deref(), Some(SAVED.as_bytes()));
}

#[test]
fn runs_that_are_not_saved(rt: HostRuntime) {
    let rows: [(&str, &[u8], u64, &str, u8); 4] = [
        ("play p s 7 -", TWO_FRAMES, 9, "Done", 0),
        ("play p s 7 kept", b"flag\njump\n", 9, "BadScript 2 2", 5),
        // The third call of the shelf is the put.
        ("play p s 7 kept", TWO_FRAMES, 2, "WriteFault", 3),
        ("play p s 7 kept", TWO_FRAMES, 1, "ReadFault", 2),
    ];
    for (words, script, failing, text, number) in rows {
        let (answer, kept) = saved(&rt, words, script, failing);
        assert_eq!(rt; answer.text.as_str(), text);
        assert_eq!(rt; answer.number, number);
        assert_eq!(rt; kept.is_none(), true);
    }
}

// What `resume` answers over the base file with no blocks and this saved run, and what it leaves under the name `next`.
fn resumed(
    rt: &(impl Abort + AllocGlobal),
    words: &str,
    kept: &[u8],
    script: &[u8],
) -> (Answer, Option<Vec<u8>>) {
    let base = project(rt, "{}", "{}");
    let mut files = NamedBytes::new(rt.alloc());
    files.push("p", base.as_bytes()).expect(rt, "memory");
    files.push("kept", kept).expect(rt, "memory");
    files.push("s", script).expect(rt, "memory");
    let mut shelf = MemoryShelf::new(rt.alloc(), files, Numbers::new(rt.alloc()));
    let answer = over(rt, words, &mut shelf);
    (answer, bytes_at(rt, &shelf, "next"))
}

#[test]
fn a_saved_run_is_gone_on_with(rt: HostRuntime) {
    let alloc = rt.alloc();
    let (answer, next) = resumed(
        &rt,
        "resume p kept s next",
        SAVED.as_bytes(),
        b"frame 40 1 0\n",
    );
    is_told(
        &rt,
        &answer,
        "Done",
        0,
        frame_at(&rt, 3, 40, "0").as_bytes(),
    );
    let clock = SAVED
        .replace(alloc, "\"clock\":0", "\"clock\":40")
        .expect(&rt, "memory");
    let after = clock
        .replace(alloc, "\"frame\":2", "\"frame\":3")
        .expect(&rt, "memory");
    assert_eq!(rt; next.as_deref(), Some(after.as_bytes()));
}

#[test]
fn saved_runs_that_are_refused(rt: HostRuntime) {
    let rows = [
        ("{\"answer\"", "[\"answer\"", "BadSave S1"),
        ("\"frame\":2", "\"frame\":-2", "BadSave S2"),
        ("\"version\":1", "\"version\":2", "BadSave S3"),
        ("bc2740", "ac2740", "BadSave S4"),
        ("\"frame\":2", "\"frame\":4611686018427387904", "BadSave S5"),
        ("{\"answer\"", " {\"answer\"", "BadSave S7"),
    ];
    for (from, to, text) in rows {
        let edited = SAVED.replace(rt.alloc(), from, to).expect(&rt, "memory");
        let (answer, next) = resumed(&rt, "resume p kept s next", edited.as_bytes(), TWO_FRAMES);
        is_told(&rt, &answer, text, 6, b"");
        assert_eq!(rt; next.is_none(), true);
    }
}

#[test]
fn a_clock_that_goes_back_behind_a_saved_run(rt: HostRuntime) {
    let later = SAVED
        .replace(rt.alloc(), "\"clock\":0", "\"clock\":9")
        .expect(&rt, "memory");
    let (answer, next) = resumed(
        &rt,
        "resume p kept s next",
        later.as_bytes(),
        b"frame 8 1 0\n",
    );
    is_told(&rt, &answer, "BadScript 5 1", 5, b"");
    assert_eq!(rt; next.is_none(), true);
}

#[test]
fn an_empty_script_and_an_unknown_line(rt: HostRuntime) {
    let base = project(&rt, "{}", "{}");
    let rows: [(&[u8], &str, u8); 2] = [(b"", "Done", 0), (b"jump\n", "BadScript 2 1", 5)];
    for (script, text, number) in rows {
        let answer = answered(&rt, "play p s 1 -", base.as_bytes(), script);
        is_told(&rt, &answer, text, number, b"");
    }
}

#[test]
fn a_write_that_fails(rt: HostRuntime) {
    let frame = frame_at(&rt, 1, 0, "0");
    let cut = format!(in rt.alloc(); "{}frame", frame.as_str()).expect(&rt, "memory");
    let rows: [(&str, u64, u64, &[u8]); 5] = [
        ("play p s 1 -", 0, 0, b""),
        ("play p s 1 -", 1, 5, cut.as_bytes()),
        ("check p", 0, 0, b""),
        ("check p", 0, 8, b"accepted"),
        ("made 1 1", 0, 4, b"made"),
    ];
    for (words, failing, kept, written) in rows {
        let answer = unwritten(&rt, words, failing, kept);
        is_told(&rt, &answer, "WriteFault", 3, written);
    }
}

#[test]
fn files_that_are_not_fetched(rt: HostRuntime) {
    let rows = [
        ("play p s 1 -", 0),
        ("play p s 1 -", 1),
        ("play p missing 1 -", 9),
        ("check p", 0),
        ("check missing", 9),
    ];
    for (words, failing) in rows {
        let answer = unfetched(&rt, words, failing);
        is_told(&rt, &answer, "ReadFault", 2, b"");
    }
}

#[test]
fn a_project_above_its_limit(rt: HostRuntime) {
    let large = vec![in rt.alloc(); b' '; 33_554_433].expect(&rt, "memory");
    for words in ["play p s 1 -", "check p"] {
        let answer = answered(&rt, words, &large, b"");
        is_told(&rt, &answer, "TooLarge", 8, b"");
    }
}

// The fault of a project whose bytes are no JSON text.
fn json_fault(rt: &(impl Abort + AllocGlobal), words: &str, bytes: &[u8]) -> Option<JsonRefusal> {
    let mut shelf = shelf(rt, bytes, b"", Numbers::new(rt.alloc()));
    let mut out = SteadySink::new(rt.alloc());
    match called(rt.alloc(), &words_of(rt, words), &mut shelf, &mut out) {
        Status::BadProject(Refusal::Json(fault)) => Some(fault),
        _ => None,
    }
}

#[test]
fn texts_that_are_no_json(rt: HostRuntime) {
    let deep = vec![in rt.alloc(); b'['; 257].expect(&rt, "memory");
    let rows: [(&[u8], JsonRefusal); 4] = [
        (b"", JsonRefusal::Syntax { at: 0 }),
        (b"[1,]", JsonRefusal::Syntax { at: 3 }),
        (b"\"a\xFF\"", JsonRefusal::NotUtf8 { at: 2 }),
        (deep.as_slice(), JsonRefusal::TooDeep { at: 256 }),
    ];
    for (bytes, fault) in rows {
        assert_eq!(rt; json_fault(&rt, "play p s 1 -", bytes), Some(fault));
        assert_eq!(rt; json_fault(&rt, "check p", bytes), Some(fault));
        let answer = answered(&rt, "check p", bytes, b"");
        is_told(&rt, &answer, "BadProject P1", 4, b"");
    }
}

#[test]
fn projects_that_are_checked(rt: HostRuntime) {
    let rows = [
        ("{}", "Done", 0, "accepted 2 0\n"),
        (SET_AND_CHANGE, "Done", 0, "accepted 2 3\n"),
        (FORWARD, "Done", 0, "accepted 2 2\n"),
        (TOUCHING, "BadProject P5", 4, ""),
        (OWN_NEXT, "BadProject P7", 4, ""),
    ];
    for (blocks, text, number, written) in rows {
        let base = project(&rt, "{}", blocks);
        let answer = answered(&rt, "check p", base.as_bytes(), b"");
        is_told(&rt, &answer, text, number, written.as_bytes());
    }
}

#[test]
fn a_refused_project_is_not_played(rt: HostRuntime) {
    for (blocks, text) in [(TOUCHING, "BadProject P5"), (OWN_NEXT, "BadProject P7")] {
        let base = project(&rt, "{}", blocks);
        let answer = answered(&rt, "play p s 1 -", base.as_bytes(), TWO_FRAMES);
        is_told(&rt, &answer, text, 4, b"");
    }
}

// When the flag is clicked: set n to 0123456789; repeat 17: set n to (join n n).
static DOUBLE: &str =
    "{\"a1\":{\"opcode\":\"event_whenflagclicked\",\"next\":\"a2\",\"topLevel\":true},\"a2\":{\"opcode\":\"data_setvariableto\",\"next\":\"a3\",\"inputs\":{\"VALUE\":[1,[10,\"0123456789\"]]},\"fields\":{\"VARIABLE\":[\"n\",\"v\"]}},\"a3\":{\"opcode\":\"control_repeat\",\"inputs\":{\"TIMES\":[1,[6,\"17\"]],\"SUBSTACK\":[2,\"a4\"]}},\"a4\":{\"opcode\":\"data_setvariableto\",\"inputs\":{\"VALUE\":[3,\"a5\",[10,\"\"]]},\"fields\":{\"VARIABLE\":[\"n\",\"v\"]}},\"a5\":{\"opcode\":\"operator_join\",\"inputs\":{\"STRING1\":[3,[12,\"n\",\"v\"],[10,\"\"]],\"STRING2\":[3,[12,\"n\",\"v\"],[10,\"\"]]}}}";

#[test]
fn a_limit_writes_its_line(rt: HostRuntime) {
    let base = project(&rt, "{}", DOUBLE);
    let script = b"flag\nframe 0 30 1000\n";
    let answer = answered(&rt, "play p s 1 -", base.as_bytes(), script);
    is_told(&rt, &answer, "Limit", 7, b"limit text 1310720\n");
}

static LINES: [(&[u8], &str); 7] = [
    (b"a\xFF", "BadScript 1 4"),
    (b"Flag", "BadScript 2 4"),
    (b"frame  9 1 0", "BadScript 2 4"),
    (b"frame 09 1 0", "BadScript 3 4"),
    (b"frame 9 1 0\r", "BadScript 3 4"),
    (b"frame 9 10001 0", "BadScript 4 4"),
    (b"frame 8 1 0", "BadScript 5 4"),
];

#[test]
fn lines_that_are_refused(rt: HostRuntime) {
    let alloc = rt.alloc();
    let base = project(&rt, "{}", "{}");
    let frame = frame_at(&rt, 1, 9, "0");
    for (line, text) in &LINES {
        let mut script = b"# one\nframe 9 10000 1000000\n\n"
            .to_vec(alloc)
            .expect(&rt, "memory");
        script.extend_from_slice(line).expect(&rt, "memory");
        script.extend_from_slice(b"\nflag\n").expect(&rt, "memory");
        let answer = answered(&rt, "play p s 1 -", base.as_bytes(), &script);
        is_told(&rt, &answer, text, 5, frame.as_bytes());
    }
}

static NO_FORMS: [&str; 25] = [
    "",
    "play",
    "play p s 1",
    "play p s 1 - -",
    "Play p s 1 -",
    "Resume p kept s -",
    "play p s 01 -",
    "play p s -1 -",
    "play p s +1 -",
    "play p s 1.0 -",
    "play p s  -",
    "play p s 18446744073709551616 -",
    "check",
    "check p -",
    "Check p",
    "check p s",
    "made",
    "made 1",
    "made 1 1 1",
    "Made 1 1",
    "made 0 1",
    "made 1 0",
    "made 01 1",
    "made 501 1",
    "made 1 1001",
];

#[test]
fn words_that_are_no_form(rt: HostRuntime) {
    let base = project(&rt, "{}", "{}");
    for words in &NO_FORMS {
        let answer = answered(&rt, words, base.as_bytes(), TWO_FRAMES);
        is_told(&rt, &answer, "Usage", 1, b"");
    }
}

#[test]
fn the_largest_seed(rt: HostRuntime) {
    let base = project(&rt, "{}", "{}");
    let answer = answered(&rt, "play p s 18446744073709551615 -", base.as_bytes(), b"");
    is_told(&rt, &answer, "Done", 0, b"");
}

#[test]
fn a_name_keeps_the_blanks_at_its_ends(rt: HostRuntime) {
    let alloc = rt.alloc();
    let base = project(&rt, "{}", "{}");
    let mut files = NamedBytes::new(alloc);
    files.push(" p ", base.as_bytes()).expect(&rt, "memory");
    let mut shelf = MemoryShelf::new(alloc, files, Numbers::new(alloc));
    let mut out = SteadySink::new(alloc);
    let status = play(alloc, &words_of(&rt, "check p"), &mut shelf, &mut out);
    assert_eq!(rt; exit_number(&status), 2);
    let mut blanks = Vec::new(alloc);
    for word in ["check", " p "] {
        blanks
            .push(String::from_str(alloc, word).expect(&rt, "memory"))
            .expect(&rt, "memory");
    }
    let status = play(alloc, &blanks, &mut shelf, &mut out);
    assert_eq!(rt; exit_number(&status), 0);
}

#[test]
fn a_thousand_frames_and_flags(rt: HostRuntime) {
    let base = project(&rt, "{}", SET_AND_CHANGE);
    let mut script = String::new(rt.alloc());
    let mut expected = String::new(rt.alloc());
    for number in 1..1001u32 {
        script
            .push_str(
                format!(in rt.alloc(); "flag\nframe {number} 1 0\n")
                    .expect(&rt, "memory")
                    .as_str(),
            )
            .expect(&rt, "memory");
        expected
            .push_str(frame_at(&rt, number, number, "7").as_str())
            .expect(&rt, "memory");
    }
    let answer = answered(&rt, "play p s 1 -", base.as_bytes(), script.as_bytes());
    is_told(&rt, &answer, "Done", 0, expected.as_bytes());
}

#[test]
fn made_projects(rt: HostRuntime) {
    let rows = [
        (
            "made 1 1",
            "made 1 1 blocks 7 n 11\nframes 119 891592f4cc8685d47f9dc17e0629adddaebaaa75d05af308ec1af9fb88d7a938\n",
        ),
        (
            "made 2 3",
            "made 2 3 blocks 12 n 96\nframes 542 4d0ba4ac155c842952d6512a7296c8993d617b46ced2c5d44586d5d24e99f1a9\n",
        ),
        (
            "made 100 50",
            "made 100 50 blocks 502 n 2530000\nframes 317485 5c273f205c9d136e7e0cc73fdab03e46ea06e85c0300c3c72d42e3c8f2b26db2\n",
        ),
    ];
    for (words, written) in rows {
        // Nothing is fetched, so a shelf whose first call fails is as good.
        let answer = unfetched(&rt, words, 0);
        is_told(&rt, &answer, "Done", 0, written.as_bytes());
    }
}

// When the flag is clicked: forever: broadcast a. Behind it come 100,000 scripts of another message, each of its head alone.
fn many_heads(rt: &(impl Abort + AllocGlobal)) -> String {
    let mut blocks = String::from_str(
        rt.alloc(),
        "{\"a1\":{\"opcode\":\"event_whenflagclicked\",\"next\":\"a2\",\"topLevel\":true},\"a2\":{\"opcode\":\"control_forever\",\"inputs\":{\"SUBSTACK\":[2,\"a3\"]}},\"a3\":{\"opcode\":\"event_broadcast\",\"inputs\":{\"BROADCAST_INPUT\":[1,[11,\"a\",\"m\"]]}}",
    )
    .expect(rt, "memory");
    for number in 0..100_000u32 {
        let id = format!(in rt.alloc(); ",\"h{number}\"").expect(rt, "memory");
        blocks.push_str(id.as_str()).expect(rt, "memory");
        blocks
            .push_str(
                ":{\"opcode\":\"event_whenbroadcastreceived\",\"fields\":{\"BROADCAST_OPTION\":[\"b\",\"q\"]},\"topLevel\":true}",
            )
            .expect(rt, "memory");
    }
    blocks.push_str("}").expect(rt, "memory");
    blocks
}

#[test]
fn many_heads_that_no_message_starts(rt: HostRuntime) {
    let alloc = rt.alloc();
    let shown = project(&rt, "{}", many_heads(&rt).as_str());
    let hidden = shown
        .replace(alloc, "\"visible\":true,\"x\"", "\"visible\":false,\"x\"")
        .expect(&rt, "memory");
    let mut script = String::from_str(alloc, "flag\n").expect(&rt, "memory");
    let mut expected = String::new(alloc);
    for number in 1..101u32 {
        script.push_str("frame 0 10000 0\n").expect(&rt, "memory");
        let frame = frame_at(&rt, number, 0, "0")
            .replace(alloc, "shown", "hidden")
            .expect(&rt, "memory");
        expected.push_str(frame.as_str()).expect(&rt, "memory");
    }
    let answer = answered(&rt, "play p s 1 -", hidden.as_bytes(), script.as_bytes());
    is_told(&rt, &answer, "Done", 0, expected.as_bytes());
}
