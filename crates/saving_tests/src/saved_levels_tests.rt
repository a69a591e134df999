//! A thread that waits in a procedure, which a loop calls.

ghost use Rattle.std.specs.Prelude.{◌≡◌, true, IfOk};
ghost use Rattle.std.specs.List.{list_all};
ghost use Rattle.saved_parts.specs.Telling.{thread_of};
ghost use Rattle.saved_spec.specs.Rules.{is_short, values_kept};

use machine_spec::{
    BlockId, BubbleTimer, Context, Count, InstanceId, Serial, Status, TargetId, WaitState,
};
use project_check::{Project, load};
use project_json::Text;
use saved_levels::{Waiting, levels_of};
use saved_parts::{ToldKept, ToldLevel, ToldLevels, ToldParam, ToldParams, ToldThread, ToldValue};
use scratch_number::Num;
use std::alloc::{AllocError, Global};
use std::process::Abort;
use thread_frames::Level;

// A hat, 0, over a loop, 1, which calls, 2. The procedure, 3 and 4, is warp, and waits, 5.
static PROJECT: &str = r#"{"targets":[
{"isStage":true,"name":"Stage","costumes":[{"name":"Blue"}],"layerOrder":0,"blocks":{}},
{"isStage":false,"name":"Cat","costumes":[{"name":"c"}],"layerOrder":1,"blocks":{
"h":{"opcode":"event_whenflagclicked","topLevel":true,"next":"r"},
"r":{"opcode":"control_repeat","inputs":{"TIMES":[1,[6,"10"]],"SUBSTACK":[2,"c"]}},
"c":{"opcode":"procedures_call","inputs":{"i":[1,[10,"3"]]},"mutation":{"proccode":"jump %s","argumentids":"[\"i\"]","warp":"true"}},
"d":{"opcode":"procedures_definition","topLevel":true,"inputs":{"custom_block":[1,"p"]},"next":"w"},
"p":{"opcode":"procedures_prototype","shadow":true,"mutation":{"proccode":"jump %s","argumentids":"[\"i\"]","argumentnames":"[\"height\"]","argumentdefaults":"[\"10\"]","warp":"true"}},
"w":{"opcode":"control_wait","inputs":{"DURATION":[1,[5,"1"]]}}}}]}"#;

fn project(rt: &(impl Abort + AllocGlobal)) -> Project {
    assert!(rt; PROJECT.len() < 4_000_000_000);
    match load(rt.alloc(), PROJECT.as_bytes()) {
        Ok(project) => project,
        Err(_) => panic!(rt; "refused"),
    }
}

// The thread, whose top level is at a block.
fn thread(alloc: Global, name: &str, top: u64) -> Result<ToldThread, AllocError>
    ensures { IfOk result (λ t. list_all (λ l. list_all is_short (values_kept l.kept)) (thread_of t).levels ≡ true) }
{
    let mut params = ToldParams::new(alloc);
    params.push(ToldParam {
        name: Text::from_str(alloc, name)?,
        value: ToldValue::Truth(true),
    })?;
    let mut levels = ToldLevels::new(alloc);
    levels.push(ToldLevel {
        block: Some(1),
        kept: ToldKept::Repeat(Count::Whole(2)),
    })?;
    levels.push(ToldLevel {
        block: Some(2),
        kept: ToldKept::Call(params),
    })?;
    levels.push(ToldLevel {
        block: Some(top),
        kept: ToldKept::Wait(WaitState {
            start: 4000,
            duration: Num::Inf,
        }),
    })?;
    Ok(ToldThread {
        serial: 7,
        of: 1,
        hat: 0,
        status: Status::Running,
        levels,
    })
}

// What is made of the thread at a clock, where these timers stand.
fn made(
    rt: &(impl Abort + AllocGlobal),
    clock: u64,
    timers: &[BubbleTimer],
    name: &str,
    top: u64,
) -> Result<Option<Vec<Level>>, AllocError> {
    let alloc = rt.alloc();
    let waiting = Waiting::new(alloc, clock, &[], timers)?;
    let thread = thread(alloc, name, top)?;
    let project = project(rt);
    let levels = levels_of(alloc, &project, &waiting, thread, TargetId(1));
    drop(project);
    levels
}

#[test]
fn a_thread_has_the_levels_that_are_told(rt: HostRuntime) {
    match made(&rt, 5000, &[], "height", 5).expect(&rt, "memory") {
        Some(levels) => {
            assert_eq!(rt; levels.len(), 3);
            match levels.last() {
                Some(top) => {
                    assert!(rt; top.block == Some(BlockId(5)));
                    assert!(rt; matches!(top.context, Context::Wait(_)));
                    assert!(rt; top.warp);
                }
                None => panic!(rt; "no top"),
            }
            match levels.first() {
                Some(bottom) => {
                    assert!(rt; bottom.is_loop);
                    assert!(rt; !bottom.warp);
                }
                None => panic!(rt; "no bottom"),
            }
        }
        None => panic!(rt; "refused"),
    }
}

#[test]
fn a_thread_that_breaks_a_rule_has_none(rt: HostRuntime) {
    let timer = BubbleTimer {
        due: Num::Inf,
        of: InstanceId(1),
        thread: Serial(7),
        usage: 0,
    };
    assert!(rt;
        made(&rt, 3999, &[], "height", 5)
            .expect(&rt, "memory")
            .is_none()
    );
    assert!(rt;
        made(&rt, 5000, &[timer], "height", 5)
            .expect(&rt, "memory")
            .is_none()
    );
    assert!(rt;
        made(&rt, 5000, &[], "width", 5)
            .expect(&rt, "memory")
            .is_none()
    );
    assert!(rt;
        made(&rt, 5000, &[], "height", 2)
            .expect(&rt, "memory")
            .is_none()
    );
}
