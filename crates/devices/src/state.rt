//! The devices of a run.

ghost use Rattle.std.specs.Prelude.{◌≡◌, ◌≤◌, ◌<◌, ◌+◌, ◌-◌, ◌^◌, ◌==◌, ◌↔◌, ◌∷◌, [], ◌++◌, drop, filter, not, slice_get, IfOk, OnOk, OnErr, IsErr};
ghost use Rattle.std.specs.List.{list_any};
ghost use Rattle.std.specs.Option.{option_map};
ghost use Rattle.machine_spec.specs.Sensing.{is_key};
ghost use Rattle.machine_spec.specs.Stores.{elapsed as elapsed_since};
ghost use Rattle.machine_spec.specs.Stopping.{is_first_of};
ghost use Rattle.machine_spec.specs.Line.{with_key, without_key};
ghost use Rattle.machine_spec.specs.Frame.{is_empty as is_nil, next_due};
ghost use Rattle.machine_spec.specs.First.{first_devices};
ghost use Rattle.devices.specs.Lists.{without_due};
ghost use Rattle.devices.specs.Parts.{devices_of, HasUsage};

use crate::parts::DeviceParts;
use crate::timers::{self, seconds};
use crate::{keys, questions};
use machine_spec::{BubbleTimer, BubbleTimers, InstanceId, Key, Keys, Question, Questions};
use project_json::Text;
use scratch_number::Num;
use scratch_values::BoundText;
use script_words::{CounterFull, LAST_NUMBER};
use std::alloc::{AllocError, Global};
use std::marker::Model;
use std::mem;

/// The devices of a run. Contracts see the record of the reference machine.
pub struct Devices {
    alloc: Global,
    answer: BoundText,
    clock: u64,
    timer: u64,
    keys: Keys,
    mouse_x: i32,
    mouse_y: i32,
    button: bool,
    questions: Questions,
    timers: BubbleTimers,
    turbo: bool,
    usage: u64,
}

// Not derived: whoever holds one calls this, and does not prove anew how it is taken apart.
impl Drop for Devices {
    fn drop(self) {
        let Devices {
            alloc: _,
            answer: _answer,
            clock: _,
            timer: _,
            keys: _keys,
            mouse_x: _,
            mouse_y: _,
            button: _,
            questions: _questions,
            timers: _timers,
            turbo: _,
            usage: _,
        } = self;
    }
}

impl Model for Devices {
    ghost use Rattle.std.specs.Prelude.{◌<◌, ◌^◌};
    ghost use Rattle.machine_spec.specs.Stores.{Devices as Seen};

    ghost Value = { Seen };

    ghost view = { λ d. record {
      answer = d.answer;
      clock = d.clock;
      timer = d.timer;
      keys = d.keys;
      mouse_x = d.mouse_x;
      mouse_y = d.mouse_y;
      button = d.button;
      questions = d.questions;
      timers = d.timers;
      turbo = d.turbo;
      usage = d.usage;
    } };

    ghost invariant = { λ d. d.usage < 2 ^ 62 };
}

impl Devices {
    /// The devices of a run that begins: nothing is held or asked, all clocks stand at 0, and the first bubble update has
    /// the number 1. The only error is want of memory.
    pub fn new(alloc: Global) -> Result<Devices, AllocError>
        ensures { IfOk result (λ devices. devices ≡ first_devices) }
    {
        let answer = BoundText::from_short(alloc, Text::new(alloc))?;
        Ok(Devices {
            alloc,
            answer,
            clock: 0,
            timer: 0,
            keys: Keys::new(alloc),
            mouse_x: 0,
            mouse_y: 0,
            button: false,
            questions: Questions::new(alloc),
            timers: BubbleTimers::new(alloc),
            turbo: false,
            usage: 1,
        })
    }

    /// The devices that hold just these parts, as a saved run that is read again needs them. The number of the next bubble
    /// update is below 2^62, as every number that a run gives.
    pub fn rebuild(alloc: Global, parts: DeviceParts) -> Devices
        requires { HasUsage parts }
        ensures { result ≡ devices_of parts }
    {
        Devices {
            alloc,
            answer: parts.answer,
            clock: parts.clock,
            timer: parts.timer,
            keys: parts.keys,
            mouse_x: parts.mouse_x,
            mouse_y: parts.mouse_y,
            button: parts.button,
            questions: parts.questions,
            timers: parts.timers,
            turbo: parts.turbo,
            usage: parts.usage,
        }
    }

    /// The clock, in milliseconds.
    pub fn clock(&self) -> u64
        ensures { result ≡ self.now.clock }
    {
        self.clock
    }

    /// The clock at the last reset of the timer, in milliseconds.
    pub fn timer_start(&self) -> u64
        ensures { result ≡ self.now.timer }
    {
        self.timer
    }

    /// Whether turbo is on.
    pub fn turbo(&self) -> bool
        ensures { result ≡ self.now.turbo }
    {
        self.turbo
    }

    /// The keys that are held, in the order of pressing.
    pub fn keys(&self) -> &Keys
        ensures { result.now ≡ self.now.keys }
    {
        &self.keys
    }

    /// The mouse's place from left to right, in stage units.
    pub fn mouse_x(&self) -> i32
        ensures { result ≡ self.now.mouse_x }
    {
        self.mouse_x
    }

    /// The mouse's place from bottom to top, in stage units.
    pub fn mouse_y(&self) -> i32
        ensures { result ≡ self.now.mouse_y }
    {
        self.mouse_y
    }

    /// Whether the mouse's button is down.
    pub fn button(&self) -> bool
        ensures { result ≡ self.now.button }
    {
        self.button
    }

    /// The last answer.
    pub fn last_answer(&self) -> &BoundText
        ensures { result.now ≡ self.now.answer }
    {
        &self.answer
    }

    /// The questions in the order of asking; the first one is shown.
    pub fn questions(&self) -> &Questions
        ensures { result.now ≡ self.now.questions }
    {
        &self.questions
    }

    /// The bubble timers in the order of making.
    pub fn timers(&self) -> &BubbleTimers
        ensures { result.now ≡ self.now.timers }
    {
        &self.timers
    }

    /// The number that the next bubble update gets.
    pub fn usage(&self) -> u64
        ensures value { result ≡ self.now.usage }
        ensures small { result < 2 ^ 62 }
    {
        self.usage
    }

    /// Sets the clock, which does not go back.
    pub fn set_clock(&mut self, ms: u64)
        requires { self.old.clock ≤ ms }
        ensures { self.new ≡ record self.old { clock = ms } }
    {
        self.clock = ms;
    }

    /// The seconds since a reading of the clock.
    pub fn elapsed(&self, start: u64) -> Num
        ensures { result ≡ elapsed_since start self.now }
    {
        seconds(self.clock.saturating_sub(start))
    }

    /// The seconds since the timer was reset.
    pub fn timer(&self) -> Num
        ensures { result ≡ elapsed_since self.now.timer self.now }
    {
        self.elapsed(self.timer)
    }

    /// Resets the timer.
    pub fn reset_timer(&mut self)
        ensures { self.new ≡ record self.old { timer = self.old.clock } }
    {
        self.timer = self.clock;
    }

    /// Sets the place of the mouse, in stage units.
    pub fn set_mouse(&mut self, x: i32, y: i32)
        ensures { self.new ≡ record self.old { mouse_x = x; mouse_y = y } }
    {
        self.mouse_x = x;
        self.mouse_y = y;
    }

    /// Sets the mouse's button.
    pub fn set_button(&mut self, down: bool)
        ensures { self.new ≡ record self.old { button = down } }
    {
        self.button = down;
    }

    /// Turns turbo on or off.
    pub fn set_turbo(&mut self, on: bool)
        ensures { self.new ≡ record self.old { turbo = on } }
    {
        self.turbo = on;
    }

    /// Whether a key is held.
    pub fn is_down(&self, key: &Key) -> bool
        ensures { result ≡ list_any (is_key key.now) self.now.keys }
    {
        keys::is_among(key, self.keys.as_slice())
    }

    /// Holds a key, unless it is held. The only error is want of memory, and then nothing changes.
    pub fn key_down(&mut self, key: Key) -> Result<(), AllocError>
        ensures ok { OnOk result (self.new ≡ record self.old { keys = with_key key self.old.keys }) }
        ensures err { OnErr result (self.new ≡ self.old) }
    {
        if keys::is_among(&key, self.keys.as_slice()) {
            return Ok(());
        }
        self.keys.push(key)
    }

    /// Lets a key go.
    pub fn key_up(&mut self, key: &Key)
        ensures { self.new ≡ record self.old { keys = without_key key.now self.old.keys } }
    {
        let held = mem::replace(&mut self.keys, Keys::new(self.alloc));
        self.keys = keys::without(key, held);
    }

    /// Sets the answer, and nothing else.
    pub fn set_answer(&mut self, text: BoundText)
        ensures { self.new ≡ record self.old { answer = text } }
    {
        self.answer = text;
    }

    /// Asks a question behind the others; true where it is now the first. The only error is want of memory, and then
    /// nothing changes.
    pub fn ask(&mut self, q: Question) -> Result<bool, AllocError>
        ensures first { IfOk result (λ first. first ≡ is_nil self.old.questions) }
        ensures ok { OnOk result (self.new ≡ record self.old { questions = self.old.questions ++ q ∷ [] }) }
        ensures err { OnErr result (self.new ≡ self.old) }
    {
        let first = self.questions.is_empty();
        self.questions.push(q)?;
        Ok(first)
    }

    /// Sets the answer, and takes the first question away, where there is one.
    pub fn answer(&mut self, text: BoundText) -> Option<Question>
        ensures first { result ≡ slice_get self.old.questions 0 }
        ensures new { self.new ≡ record self.old { answer = text; questions = drop 1 self.old.questions } }
    {
        let asked = mem::replace(&mut self.questions, Questions::new(self.alloc));
        let (first, rest) = questions::without_first(asked);
        self.answer = text;
        self.questions = rest;
        first
    }

    /// Drops the questions of an instance; true where the first was among them.
    pub fn drop_questions(&mut self, of: InstanceId) -> bool
        ensures first { result ≡ is_first_of of self.old.questions }
        ensures new { self.new ≡ record self.old { questions = filter (λ q. not (q.of == of)) self.old.questions } }
    {
        let first = questions::is_first(of, self.questions.as_slice());
        let asked = mem::replace(&mut self.questions, Questions::new(self.alloc));
        self.questions = questions::without(of, asked);
        first
    }

    /// The number of a bubble update. CounterFull exactly where the counter stands at 2^62 − 1, and then nothing changes.
    pub fn next_usage(&mut self) -> Result<u64, CounterFull>
        ensures full { IsErr result ↔ (self.old.usage ≡ 2 ^ 62 - 1) }
        ensures number { IfOk result (λ n. n ≡ self.old.usage) }
        ensures ok { OnOk result (self.new ≡ record self.old { usage = self.old.usage + 1 }) }
        ensures err { OnErr result (self.new ≡ self.old) }
    {
        let usage = self.usage;
        if usage == LAST_NUMBER {
            return Err(CounterFull);
        }
        self.usage = usage + 1;
        Ok(usage)
    }

    /// Adds a bubble timer behind the others. The only error is want of memory, and then nothing changes.
    pub fn speak_until(&mut self, t: BubbleTimer) -> Result<(), AllocError>
        ensures ok { OnOk result (self.new ≡ record self.old { timers = self.old.timers ++ t ∷ [] }) }
        ensures err { OnErr result (self.new ≡ self.old) }
    {
        timers::added(&mut self.timers, t)
    }

    /// Takes the due timer with the least due time, the earliest made of equals. None exactly where no timer is due: the time
    /// of a due timer is not after the clock.
    pub fn take_due(&mut self) -> Option<BubbleTimer>
        ensures due { result ≡ option_map (λ x. x.timer) (next_due self.old.clock 0 self.old.timers) }
        ensures new { self.new ≡ without_due (next_due self.old.clock 0 self.old.timers) self.old }
    {
        let made = mem::replace(&mut self.timers, BubbleTimers::new(self.alloc));
        let (due, rest) = timers::without_soonest(self.clock, made);
        self.timers = rest;
        due
    }

    /// Drops the timers of an instance.
    pub fn drop_timers(&mut self, of: InstanceId)
        ensures { self.new ≡ record self.old { timers = filter (λ t. not (t.of == of)) self.old.timers } }
    {
        let made = mem::replace(&mut self.timers, BubbleTimers::new(self.alloc));
        self.timers = timers::without(of, made);
    }

    /// Drops all questions and all bubble timers, as stopping everything does.
    pub fn stop_all(&mut self)
        ensures { self.new ≡ record self.old { questions = []; timers = [] } }
    {
        self.questions = Questions::new(self.alloc);
        self.timers = BubbleTimers::new(self.alloc);
    }
}
