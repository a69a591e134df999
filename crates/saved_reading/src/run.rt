//! A run.

ghost use Rattle.std.specs.Prelude.{ℕ, Bool, List, [], ◌≡◌};
ghost use Rattle.std.specs.List.{list_all};
ghost use Rattle.std.specs.Option.{option_map};
ghost use Rattle.saved_parts.specs.Telling.{made_of, mouse_of, next_of, question_of, shown_of, told_of};
ghost use Rattle.saved_spec.specs.RunShapes as shape;
ghost use Rattle.saved_spec.specs.RunShapes.{Told, is_digest, is_digit};
ghost use Rattle.scratch_values.specs.Named.{item_named};
ghost use Rattle.serde_json.specs.View.{view};
ghost use Rattle.json_shapes.specs.Reads.{Reads};
ghost use Rattle.saved_reading.specs.Words.{shown_words};

use crate::parts::{Shaped, member, part, row, table};
use json_shapes::{Fault, Place};
use machine_spec::{BubbleTimer, InstanceId, Serial};
use project_json::Text;
use saved_parts::{ToldMade, ToldMouse, ToldNext, ToldQuestion, ToldRun};
use serde_json::Value;
use std::alloc::Global;

impl Shaped for ToldQuestion {
    ghost use Rattle.machine_spec.specs.declared.devices.Question.{Question};

    ghost Seen = { Question };

    ghost seen = { question_of };

    ghost shape = { shape.question };

    fn read(alloc: Global, place: &Place, value: &Value) -> Result<ToldQuestion, Fault> {
        let items = row(alloc, place, value, 4)?;
        let of = part(alloc, place, items, 0)?;
        let thread = part(alloc, place, items, 1)?;
        let text = part(alloc, place, items, 2)?;
        let bubble = part(alloc, place, items, 3)?;
        Ok(ToldQuestion {
            of,
            thread,
            text,
            bubble,
        })
    }
}

impl Shaped for BubbleTimer {
    ghost use Rattle.machine_spec.specs.declared.devices.BubbleTimer.{BubbleTimer};

    ghost Seen = { BubbleTimer };

    ghost seen = { λ t. t };

    ghost shape = { shape.timer };

    fn read(alloc: Global, place: &Place, value: &Value) -> Result<BubbleTimer, Fault> {
        let items = row(alloc, place, value, 4)?;
        let due = part(alloc, place, items, 0)?;
        let of: u64 = part(alloc, place, items, 1)?;
        let thread: u64 = part(alloc, place, items, 2)?;
        let usage = part(alloc, place, items, 3)?;
        Ok(BubbleTimer {
            due,
            of: InstanceId(of),
            thread: Serial(thread),
            usage,
        })
    }
}

// Whether an added monitor shows a list, by the word for what it shows.
fn list_named(word: &str) -> Option<bool>
    ensures { option_map shown_of result ≡ item_named word.now shown_words }
{
    match word {
        "variable" => Some(false),
        "list" => Some(true),
        _ => None,
    }
}

// Whether an added monitor shows a list.
#[derive(Clone, Copy, Drop)]
struct IsList(bool);

impl Shaped for IsList {
    ghost use Rattle.machine_spec.specs.declared.variables.Shown.{Shown};

    ghost Seen = { ℕ → ℕ → Shown };

    ghost seen = { λ l. shown_of l.0 };

    ghost shape = { shape.shown };

    fn read(alloc: Global, place: &Place, value: &Value) -> Result<IsList, Fault> {
        match value.as_str().and_then(list_named) {
            Some(is_list) => Ok(IsList(is_list)),
            None => Err(place.fault(alloc)),
        }
    }
}

impl Shaped for ToldMade {
    ghost use Rattle.machine_spec.specs.declared.variables.Made.{Made};

    ghost Seen = { Made };

    ghost seen = { made_of };

    ghost shape = { shape.made };

    fn read(alloc: Global, place: &Place, value: &Value) -> Result<ToldMade, Fault> {
        let items = row(alloc, place, value, 4)?;
        let IsList(is_list) = part(alloc, place, items, 0)?;
        let target = part(alloc, place, items, 1)?;
        let index = part(alloc, place, items, 2)?;
        let visible = part(alloc, place, items, 3)?;
        Ok(ToldMade {
            is_list,
            target,
            index,
            visible,
        })
    }
}

impl Shaped for ToldMouse {
    ghost use Rattle.saved_spec.specs.RunShapes.{Mouse};

    ghost Seen = { Mouse };

    ghost seen = { mouse_of };

    ghost shape = { shape.mouse };

    fn read(alloc: Global, place: &Place, value: &Value) -> Result<ToldMouse, Fault> {
        let items = row(alloc, place, value, 3)?;
        let x = part(alloc, place, items, 0)?;
        let y = part(alloc, place, items, 1)?;
        let down = part(alloc, place, items, 2)?;
        Ok(ToldMouse { x, y, down })
    }
}

impl Shaped for ToldNext {
    ghost use Rattle.saved_spec.specs.RunShapes.{Next};

    ghost Seen = { Next };

    ghost seen = { next_of };

    ghost shape = { shape.next };

    fn read(alloc: Global, place: &Place, value: &Value) -> Result<ToldNext, Fault> {
        let items = row(alloc, place, value, 3)?;
        let thread = part(alloc, place, items, 0)?;
        let instance = part(alloc, place, items, 1)?;
        let usage = part(alloc, place, items, 2)?;
        Ok(ToldNext {
            thread,
            instance,
            usage,
        })
    }
}

// A hexadecimal digit, a letter in lower case.
fn is_digit(byte: u8) -> bool
    ensures { result ≡ is_digit byte }
{
    matches!(byte, b'0'..=b'9' | b'a'..=b'f')
}

fn are_digits(bytes: &[u8]) -> bool
    ensures { result ≡ list_all is_digit bytes.now }
{
    bytes.iter().all(|byte| is_digit(*byte))
}

fn is_digest(text: &str) -> bool
    ensures { result ≡ is_digest text.now }
{
    text.len() == 64 && are_digits(text.as_bytes())
}

// The digest of a project file.
#[derive(Drop)]
struct Digest(Text);

impl Shaped for Digest {
    ghost Seen = { List ℕ };

    ghost seen = { λ d. d.0 };

    ghost shape = { shape.digest };

    fn read(alloc: Global, place: &Place, value: &Value) -> Result<Digest, Fault> {
        match value.as_str() {
            Some(text) => {
                if is_digest(text) {
                    Ok(Digest(Text::from_str(alloc, text)?))
                } else {
                    Err(place.fault(alloc))
                }
            }
            None => Err(place.fault(alloc)),
        }
    }
}

impl Shaped for ToldRun {
    ghost Seen = { Told };

    ghost seen = { told_of };

    ghost shape = { shape.run };

    fn read(alloc: Global, place: &Place, value: &Value) -> Result<ToldRun, Fault> {
        table(alloc, place, value)?;
        let answer = member(alloc, place, value, "answer")?;
        let clock = member(alloc, place, value, "clock")?;
        let drawn = member(alloc, place, value, "drawn")?;
        let frame = member(alloc, place, value, "frame")?;
        let seed = member(alloc, place, value, "seed")?;
        let timer = member(alloc, place, value, "timer")?;
        let instances = member(alloc, place, value, "instances")?;
        let keys = member(alloc, place, value, "keys")?;
        let made = member(alloc, place, value, "made")?;
        let monitors = member(alloc, place, value, "monitors")?;
        let mouse = member(alloc, place, value, "mouse")?;
        let next = member(alloc, place, value, "next")?;
        let Digest(project) = member(alloc, place, value, "project")?;
        let questions = member(alloc, place, value, "questions")?;
        let threads = member(alloc, place, value, "threads")?;
        let timers = member(alloc, place, value, "timers")?;
        let turbo = member(alloc, place, value, "turbo")?;
        let _version: u64 = member(alloc, place, value, "version")?;
        Ok(ToldRun {
            answer,
            clock,
            drawn,
            frame,
            seed,
            timer,
            instances,
            keys,
            made,
            monitors,
            mouse,
            next,
            project,
            questions,
            threads,
            timers,
            turbo,
        })
    }
}

/// The run that a value tells, or the path of the first part that has not its shape, in the order of the table of
/// docs/formats.md; the only other fault is want of memory.
pub fn read_run(alloc: Global, value: &Value) -> Result<ToldRun, Fault>
    ensures { Reads told_of result (shape.run [] (view value.now)) }
{
    ToldRun::read(alloc, &Place::root(), value)
}
