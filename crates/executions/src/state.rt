//! The state of a run.

use devices::Devices;
use script_words::{Counted, Rng};
use targets::Targets;
use thread_frames::Threads;
use variables::Variables;

/// The state of a run: the number of its next frame, its random words, the numbers that the next thread and the next instance
/// get, whether a redraw is requested, its instances, variables and devices, and its threads. It keeps no project.
#[derive(Drop)]
pub struct State<R> {
    pub frame: u64,
    pub words: Counted<R>,
    pub next_thread: u64,
    pub next_instance: u64,
    pub redraw: bool,
    pub targets: Targets,
    pub variables: Variables,
    pub devices: Devices,
    pub threads: Threads,
}
