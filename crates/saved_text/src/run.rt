//! A run, as it is saved.

ghost use Rattle.std.specs.Prelude.{◌∷◌, [], OnOk};
ghost use Rattle.serde_json.specs.Events.{SendsValue};
ghost use Rattle.saved_spec.specs.Devices.{mouse};
ghost use Rattle.saved_spec.specs.Ranges.{IsRun, IsSigned, IsWhole};
ghost use Rattle.saved_text.specs.Ranges.{IsThread};
ghost use Rattle.saved_spec.specs.Saved.{saved, next};
ghost use Rattle.saved_text.specs.Seen.{seen, seen_with};
ghost use Rattle.saved_text.specs.Threads.{thread};

use crate::instances::send_instances;
use crate::rows::{Saved, send_list, send_member};
use devices::Devices;
use machine_spec::{Instance, Made, Store};
use serde::{Described, Serialize, Serializer};
use thread_frames::Threads;

/// What a run is between two lines of a script: the number of its last frame, the numbers that are given next, its instances
/// in executable order, their variables and lists, whether each monitor of the file is visible, the monitors that blocks
/// added, its devices and its threads; of its random words the seed and how many were drawn; and the SHA-256 of its project
/// file.
#[derive(Clone, Copy, Drop)]
pub struct SavedRun<'a> {
    pub digest: [u8; 32],
    pub seed: u64,
    pub drawn: u64,
    pub frame: u64,
    pub next_thread: u64,
    pub next_instance: u64,
    pub instances: &'a [Instance],
    pub stores: &'a [Store],
    pub file_monitors: &'a [bool],
    pub made: &'a [Made],
    pub devices: &'a Devices,
    pub threads: &'a Threads,
}

// The version of the format.
const VERSION: u64 = 1;

// Sends where the mouse is, and whether its button is down.
fn send_mouse<S: Serializer>(devices: &Devices, out: &mut S) -> Result<(), S::Error>
    ensures sent { OnOk result (SendsValue (mouse devices.now) (S.written out.old) (S.written out.new)) }
    ensures x { OnOk result (IsSigned devices.now.mouse_x) }
    ensures y { OnOk result (IsSigned devices.now.mouse_y) }
{
    out.begin_seq(Some(3))?;
    i64::from(devices.mouse_x()).send(out)?;
    i64::from(devices.mouse_y()).send(out)?;
    out.bool(devices.button())?;
    out.end_seq()
}

// Sends the numbers that are given next.
fn send_next<S: Serializer>(run: &SavedRun<'_>, out: &mut S) -> Result<(), S::Error>
    ensures sent { OnOk result (SendsValue (next (seen run.now)) (S.written out.old) (S.written out.new)) }
    ensures thread { OnOk result (IsWhole run.now.next_thread) }
    ensures instance { OnOk result (IsWhole run.now.next_instance) }
    ensures usage { OnOk result (IsWhole run.now.devices.now.usage) }
{
    out.begin_seq(Some(3))?;
    run.next_thread.send(out)?;
    run.next_instance.send(out)?;
    run.devices.usage().send(out)?;
    out.end_seq()
}

// A run with the hexadecimal digits of its digest.
#[derive(Drop)]
pub(crate) struct Written<'a> {
    pub(crate) run: &'a SavedRun<'a>,
    pub(crate) digits: &'a str,
}

impl Described for Written<'_> {
    ghost writes = { λ w old new. SendsValue (saved thread (seen_with w.run.now w.digits.now)) old new × IsRun IsThread (seen_with w.run.now w.digits.now) };
}

impl Serialize for Written<'_> {
    fn serialize<S: Serializer>(&self, out: &mut S) -> Result<(), S::Error> {
        let run = self.run;
        let devices = run.devices;
        out.begin_map(Some(18))?;
        send_member("answer", devices.last_answer(), out)?;
        send_member("clock", &devices.clock(), out)?;
        send_member("drawn", &run.drawn, out)?;
        send_member("frame", &run.frame, out)?;
        out.key("instances")?;
        send_instances(run.instances, run.stores, out)?;
        send_member("keys", devices.keys(), out)?;
        send_list("made", run.made, out)?;
        send_list("monitors", run.file_monitors, out)?;
        out.key("mouse")?;
        send_mouse(devices, out)?;
        out.key("next")?;
        send_next(run, out)?;
        out.key("project")?;
        out.str(self.digits)?;
        send_member("questions", devices.questions(), out)?;
        send_member("seed", &run.seed, out)?;
        send_member("threads", run.threads, out)?;
        send_member("timer", &devices.timer_start(), out)?;
        send_member("timers", devices.timers(), out)?;
        send_member("turbo", &devices.turbo(), out)?;
        send_member("version", &VERSION, out)?;
        out.end_map()
    }
}
