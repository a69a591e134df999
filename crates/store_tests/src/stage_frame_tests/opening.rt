//! The frame of a run that begins.

use super::{opened, told};
use stage_frame::{FrameWriter, View};

// A stage with a variable and a list, and a sprite.
static BASE: &str =
    r#"{"targets":[{"isStage":true,"name":"Stage","variables":{"v":["n",0]},"lists":{"k":["l",[]]},"costumes":[{"name":"b1"}]},{"isStage":false,"name":"Cat","costumes":[{"name":"c1"}],"layerOrder":1}],"monitors":[{"id":"v","opcode":"data_variable","visible":true}]}"#;

static OPENING: &str = "frame 1 clock 0 words 0
stage 1 \"b1\"
sprite 1 \"Cat\" original shown 0 0 90 100 1 \"c1\" \"all around\"
monitor \"n\" \"0\"
end
";

#[test]
fn the_base_project_opens(rt: HostRuntime) {
    let world = opened(&rt, BASE);
    assert_eq!(rt; told(&rt, &world).as_slice(), OPENING.as_bytes());
    drop(world);
}

#[test]
fn a_frame_has_its_number_the_clock_and_the_words(rt: HostRuntime) {
    let mut world = opened(&rt, BASE);
    assert!(rt; world.devices.clock() <= 2101);
    world.devices.set_clock(2101);
    let view = View {
        frame: 4,
        words: 12,
        targets: &world.targets,
        variables: &world.variables,
        devices: &world.devices,
    };
    let writer = FrameWriter::new(rt.alloc(), &world.records).expect(&rt, "memory");
    let text = writer.text(rt.alloc(), &view).expect(&rt, "memory");
    assert!(rt;
        text.as_slice()
            .starts_with(b"frame 4 clock 2101 words 12\nstage 1 ")
    );
}
