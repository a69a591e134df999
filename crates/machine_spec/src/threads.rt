//! What a statement keeps, what it does with its thread, and how a thread stands.

use crate::boxed::Boxed;
use crate::ids::{BlockId, InstanceId, Serial};
use lists::ListOf;
use project_json::Text;
use scratch_number::Num;
use scratch_values::Params;

/// The turns of a repeat that are left; a rounded number of turns may be below 0.
#[derive(Clone, Copy, PartialEq, Eq, Debug)]
pub enum Count {
    Whole(i64),
    Infinite,
}

/// Numbers of threads.
pub type Serials = ListOf<Serial>;

/// When a wait began, in milliseconds, and how long it lasts, in seconds.
#[derive(Clone, Copy, PartialEq, Eq, Debug)]
pub struct WaitState {
    pub start: u64,
    pub duration: Num,
}

/// When a glide began, in milliseconds, how long it lasts, in seconds, and its two ends.
#[derive(Clone, Copy, PartialEq, Eq, Debug)]
pub struct GlideState {
    pub start: u64,
    pub duration: Num,
    pub x0: Num,
    pub y0: Num,
    pub x1: Num,
    pub y1: Num,
}

/// What a statement keeps from one execution to the next.
#[derive(Debug, Drop)]
pub enum Context {
    /// Nothing.
    Fresh,
    /// The turns that are left.
    Repeat(Count),
    /// When the wait began, and how long it lasts.
    Wait(Boxed<WaitState>),
    /// When the glide began, how long it lasts, and its two ends.
    Glide(Boxed<GlideState>),
    /// The threads that it started and waits for.
    Started(Boxed<Serials>),
    /// It waits for an answer.
    Asked,
    /// It waits for its bubble's end.
    Spoken,
    /// It called a procedure.
    Called,
}

/// The hats that are started. Texts are compared folded, instances by number.
#[derive(Debug, Drop)]
pub enum Filter {
    Broadcast(Text),
    Backdrop(Text),
    Key(Text),
    Flag,
    CloneStart(InstanceId),
    Clicked(InstanceId),
}

/// What an execution does with its thread and with other threads.
#[derive(Debug, Drop)]
pub enum Control {
    /// Go on with the next block.
    Next,
    /// Enter a branch, 1 or 2; a loop is executed again behind it.
    Branch {
        number: u8,
        is_loop: bool,
    },
    /// Be executed again in the next pass.
    Yield,
    /// The same, and the thread does not count as running meanwhile.
    YieldTick,
    /// Wait until a promise ends.
    Promise,
    /// Enter the procedure with this definition.
    Call {
        definition: BlockId,
        params: Boxed<Params>,
    },
    /// End the procedure, or the thread where none is open.
    StopThis,
    /// End the other threads of the instance.
    StopOthers,
    /// End everything.
    StopAll,
    /// Delete the instance, where it is a clone.
    DeleteClone,
    /// Start hats, and wait for their threads or not.
    Start {
        hats: Boxed<Filter>,
        wait: bool,
    },
    /// Make a clone of an instance.
    Clone {
        of: InstanceId,
    },
}

/// How a thread stands (scratch-vm, engine/thread.js).
#[derive(Clone, Copy, PartialEq, Eq, Debug)]
pub enum Status {
    Running,
    YieldTick,
    PromiseWait,
    Done,
}

/// What an execution makes of its thread: it goes on; it goes on with a loop that its end uncovered; it yields, yields a
/// tick, waits for a promise; it has nothing left.
#[derive(Clone, Copy, PartialEq, Eq, Debug)]
pub enum Report {
    Go,
    Uncovered,
    Yielded,
    Ticked,
    Waits,
    Ended,
}

/// A place of a thread: a slot of the list, or that of the detached one.
#[derive(Clone, Copy, PartialEq, Eq, Debug)]
pub enum Which {
    Slot(u64),
    Detached,
}
