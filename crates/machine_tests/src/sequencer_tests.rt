//! A run of a small project, a line at a time.

ghost use Rattle.std.specs.Prelude.{◌≡◌};
ghost use Rattle.sequencer.specs.Runs.{IsRunOf};

use machine_spec::{Budget, InstanceId, Line};
use project_check::{Project, load};
use scratch_number::{Num, of_whole};
use scratch_values::to_number;
use script_words::{Rng, pcg};
use sequencer::Run;
use std::process::Abort;

// The stage has n, 0. Under its green flag it adds 1 to n for ever.
static COUNTING: &str =
    r#"{"targets":[{"isStage":true,"name":"Stage","variables":{"v":["n",0]},"costumes":[{"name":"b"}],"blocks":{"h":{"opcode":"event_whenflagclicked","next":"f","topLevel":true},"f":{"opcode":"control_forever","inputs":{"SUBSTACK":[2,"c"]}},"c":{"opcode":"data_changevariableby","inputs":{"VALUE":[1,[4,"1"]]},"fields":{"VARIABLE":["n","v"]}}}}]}"#;

fn loaded(rt: &(impl Abort + AllocGlobal), text: &str) -> Project {
    assert!(rt; text.len() < 1 << 20);
    load(rt.alloc(), text.as_bytes()).expect(rt, "a project")
}

// The number that n is after one more frame of 30 passes.
fn framed<R: Rng + Drop>(rt: &impl Abort, run: &mut Run<R>, project: &Project, clock: u64) -> Num
    requires run { IsRunOf project.now run.old }
    ensures run { IsRunOf project.now run.new }
{
    assert!(rt; run.clock() <= clock);
    let budget = Budget {
        clock,
        passes: 30,
        warp: 1000,
    };
    match run.frame(project, &budget) {
        Ok(()) => to_number(run.variables().value(InstanceId(0), 0)),
        Err(_) => panic!(rt; "stopped"),
    }
}

#[test]
fn a_run_moves_a_line_at_a_time(rt: HostRuntime) {
    let project = loaded(&rt, COUNTING);
    let mut run = Run::open(rt.alloc(), &project, pcg(1, 0)).expect(&rt, "memory");
    assert_eq!(rt; run.frame_number(), 0);
    assert_eq!(rt; run.next_thread(), 1);
    assert_eq!(rt; run.next_instance(), 1);
    match run.apply_line(&project, &Line::Flag) {
        Ok(()) => {}
        Err(_) => panic!(rt; "stopped"),
    }
    assert!(rt; framed(&rt, &mut run, &project, 40) == of_whole(30));
    assert!(rt; framed(&rt, &mut run, &project, 80) == of_whole(60));
    assert_eq!(rt; run.frame_number(), 2);
    assert_eq!(rt; run.clock(), 80);
    assert_eq!(rt; run.words().drawn(), 0);
    assert_eq!(rt; run.next_thread(), 2);
    assert_eq!(rt; run.redraw(), false);
    assert_eq!(rt; run.targets().instances().len(), 1);
    assert_eq!(rt; run.devices().turbo(), false);
    drop(run);
    drop(project);
}
