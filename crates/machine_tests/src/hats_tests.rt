//! Hats of a stage and two sprites, started in turn.

ghost use Rattle.std.specs.Prelude.{◌<◌, ◌^◌};

use hats::{EdgeList, edges, every_hat_is_a_head, start};
use machine_spec::{BlockId, Filter, InstanceId, Serial, TargetId, Which};
use project_check::{Project, load};
use project_json::Text;
use script_words::{CounterKind, Stop};
use std::alloc::{AllocError, Global};
use std::process::Abort;
use targets::Targets;
use thread_frames::Threads;

mod rows;

use rows::{Hats, ONCE, PROJECT, TWICE};

// The filter of a row.
fn filter_of(alloc: Global, hats: Hats) -> Result<Filter, AllocError> {
    Ok(match hats {
        Hats::Message(name) => Filter::Broadcast(Text::from_str(alloc, name)?),
        Hats::Backdrop(name) => Filter::Backdrop(Text::from_str(alloc, name)?),
        Hats::Key(name) => Filter::Key(Text::from_str(alloc, name)?),
        Hats::Flag => Filter::Flag,
        Hats::CloneStart(number) => Filter::CloneStart(InstanceId(number)),
        Hats::Clicked(number) => Filter::Clicked(InstanceId(number)),
    })
}

// The threads in order, each as its number, its instance and its hat.
fn shown(alloc: Global, threads: &Threads) -> Result<String, AllocError> {
    let mut text = String::new(alloc);
    for slot in 0..threads.len() {
        match threads.thread(Which::Slot(slot)) {
            Some(thread) => {
                let serial = thread.serial().0;
                let of = thread.of().0;
                let hat = thread.hat().0;
                let part = format!(in alloc; " {serial}:{of}/{hat}")?;
                text.push_str(part.as_str())?;
            }
            None => {}
        }
    }
    Ok(text)
}

// The project of all rows.
fn project(rt: &(impl Abort + AllocGlobal)) -> Project {
    match load(rt.alloc(), PROJECT.as_bytes()) {
        Ok(project) => project,
        Err(_) => panic!(rt; "refused"),
    }
}

// Starts hats, for which there is memory and room.
fn started(
    alloc: Global,
    project: &Project,
    threads: &mut Threads,
    next: &mut u64,
    running: Option<u64>,
    hats: Hats,
) -> Result<usize, AllocError>
    requires { next.old < 2 ^ 62 }
    ensures { next.new < 2 ^ 62 }
{
    let filter = filter_of(alloc, hats)?;
    let targets = Targets::open(alloc, project.records())?;
    let index = project.hat_index();
    let serials = start(alloc, index, &targets, threads, next, running, &filter);
    drop(targets);
    match serials {
        Ok(serials) => Ok(serials.len()),
        Err(_) => Err(AllocError),
    }
}

#[test]
fn rows_of_hats_without_threads(rt: HostRuntime) {
    let alloc = rt.alloc();
    let project = project(&rt);
    for (hats, want) in &ONCE {
        let mut threads = Threads::new(alloc).expect(&rt, "memory");
        let mut next = 7;
        let count = started(alloc, &project, &mut threads, &mut next, None, *hats).expect(
            &rt, "memory",
        );
        assert_eq!(rt;
            shown(alloc, &threads).expect(&rt, "memory").as_str(),
            *want
        );
        assert_eq!(rt; next.wrapping_sub(7), count as u64);
        drop(threads);
    }
    drop(project);
}

#[test]
fn rows_of_hats_beside_threads(rt: HostRuntime) {
    let alloc = rt.alloc();
    let project = project(&rt);
    for (first, then, want) in &TWICE {
        let mut threads = Threads::new(alloc).expect(&rt, "memory");
        let mut next = 7;
        started(alloc, &project, &mut threads, &mut next, None, *first).expect(&rt, "memory");
        started(alloc, &project, &mut threads, &mut next, None, *then).expect(&rt, "memory");
        assert_eq!(rt;
            shown(alloc, &threads).expect(&rt, "memory").as_str(),
            *want
        );
        drop(threads);
    }
    drop(project);
}

#[test]
fn a_thread_that_is_done_does_not_keep_its_hat(rt: HostRuntime) {
    let alloc = rt.alloc();
    let project = project(&rt);
    let mut threads = Threads::new(alloc).expect(&rt, "memory");
    let mut next = 7;
    let key = Hats::Key("space");
    started(alloc, &project, &mut threads, &mut next, None, key).expect(&rt, "memory");
    threads.finish(Which::Slot(0));
    started(alloc, &project, &mut threads, &mut next, None, key).expect(&rt, "memory");
    assert_eq!(rt;
        shown(alloc, &threads).expect(&rt, "memory").as_str(),
        " 7:1/4 8:1/4"
    );
    drop(threads);
    drop(project);
}

#[test]
fn the_running_thread_is_detached(rt: HostRuntime) {
    let alloc = rt.alloc();
    let project = project(&rt);
    let mut threads = Threads::new(alloc).expect(&rt, "memory");
    let mut next = 7;
    started(alloc, &project, &mut threads, &mut next, None, Hats::Flag).expect(&rt, "memory");
    started(
        alloc,
        &project,
        &mut threads,
        &mut next,
        Some(1),
        Hats::Flag,
    )
    .expect(&rt, "memory");
    assert_eq!(rt;
        shown(alloc, &threads).expect(&rt, "memory").as_str(),
        " 10:2/0 11:2/3 12:1/0"
    );
    assert!(rt;
        threads
            .thread(Which::Detached)
            .is_some_and(|thread| thread.serial() == Serial(8))
    );
    assert_eq!(rt; threads.levels(), 4);
    drop(threads);
    drop(project);
}

#[test]
fn no_number_is_left(rt: HostRuntime) {
    let alloc = rt.alloc();
    let project = project(&rt);
    let targets = Targets::open(alloc, project.records()).expect(&rt, "memory");
    let mut threads = Threads::new(alloc).expect(&rt, "memory");
    let mut next = (1u64 << 62) - 1;
    match start(
        alloc,
        project.hat_index(),
        &targets,
        &mut threads,
        &mut next,
        None,
        &Filter::Flag,
    ) {
        Ok(_) => panic!(rt; "started"),
        Err(stop) => assert!(rt;
            stop == Stop::Counter {
                which: CounterKind::Thread
            }
        ),
    }
    assert_eq!(rt; threads.len(), 0);
    drop(threads);
    drop(targets);
    drop(project);
}

// Edge hats in order, each as its instance, its target and its block.
fn listed(alloc: Global, edges: &EdgeList) -> Result<String, AllocError> {
    let mut text = String::new(alloc);
    for edge in edges {
        let of = edge.of.0;
        let target = edge.target.0;
        let hat = edge.hat.0;
        let part = format!(in alloc; " {of}:{target}/{hat}")?;
        text.push_str(part.as_str())?;
    }
    Ok(text)
}

#[test]
fn edge_hats_without_a_thread(rt: HostRuntime) {
    let alloc = rt.alloc();
    let project = project(&rt);
    let targets = Targets::open(alloc, project.records()).expect(&rt, "memory");
    let mut threads = Threads::new(alloc).expect(&rt, "memory");
    let all = edges(alloc, &project, &targets, &threads).expect(&rt, "memory");
    assert_eq!(rt;
        listed(alloc, &all).expect(&rt, "memory").as_str(),
        " 2:2/2 1:1/7"
    );
    match threads.append(Serial(5), InstanceId(1), TargetId(1), BlockId(7), None) {
        Ok(()) => {}
        Err(_) => panic!(rt; "no room"),
    }
    let left = edges(alloc, &project, &targets, &threads).expect(&rt, "memory");
    assert_eq!(rt;
        listed(alloc, &left).expect(&rt, "memory").as_str(),
        " 2:2/2"
    );
    threads.finish(Which::Slot(0));
    let again = edges(alloc, &project, &targets, &threads).expect(&rt, "memory");
    assert_eq!(rt;
        listed(alloc, &again).expect(&rt, "memory").as_str(),
        " 2:2/2 1:1/7"
    );
    drop(threads);
    drop(targets);
    drop(project);
}

#[test]
fn every_hat_heads_a_script(_rt: HostRuntime) {
    every_hat_is_a_head();
}
