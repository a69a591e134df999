//! Monitors of the file and those that blocks added.

use super::{World, bound, has, opened, text_value, told};
use machine_spec::{InstanceId, Shown, TargetId};
use std::process::Abort;

// A project up to its monitors.
static BEFORE: &str =
    r#"{"targets":[{"isStage":true,"name":"Stage","variables":{"v":["n",0]},"lists":{"k":["l",[]]},"costumes":[{"name":"b1"}]},{"isStage":false,"name":"Cat","costumes":[{"name":"c1"}],"layerOrder":1,"size":33.333,"visible":false}],"monitors":["#;

// A monitor, and its line after 5 milliseconds.
static ROWS: [(&str, &str); 12] = [
    (
        r#"{"id":"v","opcode":"motion_xposition","spriteName":"Stage","params":null,"visible":true}"#,
        "",
    ),
    (
        r#"{"id":"v","opcode":"sensing_timer","spriteName":"Cat","params":null,"visible":true}"#,
        "monitor \"Cat: sensing_timer\" \"0.005\"\n",
    ),
    (
        r#"{"id":"v","opcode":"looks_backdropnumbername","spriteName":"Cat","params":{},"visible":true}"#,
        "monitor \"Cat: looks_backdropnumbername\" \"1\"\n",
    ),
    (
        r#"{"id":"v","opcode":"looks_costumenumbername","spriteName":"Cat","params":{"NUMBER_NAME":"Number"},"visible":true}"#,
        "monitor \"Cat: looks_costumenumbername\" \"c1\"\n",
    ),
    (
        r#"{"id":"v","opcode":"looks_costumenumbername","spriteName":null,"params":null,"visible":true}"#,
        "",
    ),
    (
        r#"{"id":"v","opcode":"looks_costumenumbername","spriteName":"Nobody","params":null,"visible":true}"#,
        "",
    ),
    (
        r#"{"id":"v","opcode":"sensing_answer","spriteName":"","params":null,"visible":true}"#,
        "",
    ),
    (
        r#"{"id":"s","opcode":"looks_size","spriteName":"Cat","visible":true}"#,
        "monitor \"Cat: looks_size\" \"33\"\n",
    ),
    (
        r#"{"id":"s","opcode":"motion_direction","spriteName":"Cat","visible":true}"#,
        "monitor \"Cat: motion_direction\" \"90\"\n",
    ),
    (
        r#"{"id":"s","opcode":"sensing_answer","visible":true}"#,
        "monitor \"sensing_answer\" \"\"\n",
    ),
    (
        r#"{"id":"v","opcode":"data_variable","spriteName":"Cat","visible":true}"#,
        "",
    ),
    (r#"{"id":"v","opcode":"data_variable","visible":false}"#, ""),
];

// The lines before those of the monitors.
static HEAD: &str = "frame 1 clock 5 words 0
stage 1 \"b1\"
sprite 1 \"Cat\" original hidden 0 0 90 33.333 1 \"c1\" \"all around\"
";

// The run of a project with a monitor, after 5 milliseconds.
fn with_monitor(rt: &(impl Abort + AllocGlobal), monitor: &str) -> World {
    let project = format!(in rt.alloc(); "{BEFORE}{monitor}]}}").expect(rt, "memory");
    let mut world = opened(rt, project.as_str());
    assert!(rt; world.devices.clock() <= 5);
    world.devices.set_clock(5);
    world
}

#[test]
fn each_monitor_tells_its_value(rt: HostRuntime) {
    for (monitor, line) in &ROWS {
        let world = with_monitor(&rt, monitor);
        let wanted = format!(in rt.alloc(); "{HEAD}{line}end\n").expect(&rt, "memory");
        assert_eq!(rt;
            told(&rt, &world).as_slice(),
            wanted.as_bytes(),
            "{monitor}"
        );
        drop(world);
    }
}

// A stage whose costume has a quote in its name, and a sprite with a variable and a list.
static SEVERAL: &str =
    r#"{"targets":[{"isStage":true,"name":"Stage","variables":{"v":["n",0.5]},"lists":{"k":["l",[1.5]]},"costumes":[{"name":"c\"q"},{"name":""}]},{"isStage":false,"name":"Cat","variables":{"z":["z",0]},"lists":{"y":["q",["b"]]},"costumes":[{"name":"c1"}],"layerOrder":1}],"monitors":[{"id":"mm","opcode":"motion_xposition","spriteName":"Stage","params":{"NUMBER_NAME":"x"},"visible":true},{"id":"","opcode":"looks_backdropnumbername","params":{"NUMBER_NAME":"x"},"visible":true},{"id":"v","opcode":"sound_volume","params":{},"visible":false},{"id":"k","opcode":"data_listcontents","spriteName":null,"visible":true},{"id":"mm","opcode":"motion_xposition","visible":true},{"id":"v","opcode":"data_variable","visible":true}]}"#;

static SEVERAL_LINES: &str = "
monitor \"looks_backdropnumbername\" \"c\\\"q\"
list \"l\" 1
item \"1.5\"
monitor \"n\" \"0.5\"
end
";

static MADE_LINES: &str = "
monitor \"n\" \"0.5\"
monitor \"Cat: z\" \"0\"
list \"Cat: q\" 1
item \"b\"
end
";

#[test]
fn monitors_stand_in_the_order_of_the_file(rt: HostRuntime) {
    let world = opened(&rt, SEVERAL);
    let text = told(&rt, &world);
    assert!(rt; has(text.as_slice(), SEVERAL_LINES.as_bytes()));
    drop(world);
}

fn show(rt: &(impl Abort + AllocGlobal), world: &mut World, what: Shown, visible: bool) {
    let shown = world.variables.show(&world.records, what, visible);
    shown.expect(rt, "memory");
}

#[test]
fn added_monitors_have_the_name_of_their_sprite(rt: HostRuntime) {
    let mut world = opened(&rt, SEVERAL);
    show(&rt, &mut world, Shown::Variable(TargetId(1), 0), true);
    show(&rt, &mut world, Shown::List(TargetId(1), 0), true);
    let text = told(&rt, &world);
    assert!(rt; has(text.as_slice(), MADE_LINES.as_bytes()));
    drop(world);
}

#[test]
fn a_monitor_that_is_hidden_tells_nothing(rt: HostRuntime) {
    let mut world = opened(&rt, SEVERAL);
    show(&rt, &mut world, Shown::List(TargetId(0), 0), false);
    world.devices.set_answer(bound(&rt, "yes"));
    world.variables.set(InstanceId(0), 0, text_value(&rt, "a"));
    let text = told(&rt, &world);
    assert!(rt; has(text.as_slice(), b"\nmonitor \"n\" \"a\"\nend\n"));
    assert!(rt; !has(text.as_slice(), b"list"));
    drop(world);
}
