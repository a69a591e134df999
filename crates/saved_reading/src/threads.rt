//! Threads with their levels.

ghost use Rattle.std.specs.Prelude.{ℕ, List, ◌∷◌, ◌≡◌, codes, map};
ghost use Rattle.saved_parts.specs.Telling.{kept_of, level_of, param_of, thread_of};
ghost use Rattle.saved_spec.specs.ThreadShapes as shape;
ghost use Rattle.saved_spec.specs.ThreadShapes.{turns, kept_readers};
ghost use Rattle.scratch_values.specs.Named.{item_named};
ghost use Rattle.serde_json.specs.View.{view};
ghost use Rattle.json_shapes.specs.Places.{path};
ghost use Rattle.json_shapes.specs.Reads.{Reads, IsFaultAt};
ghost use Rattle.saved_reading.specs.Parts.{kept_named};
ghost use Rattle.saved_reading.specs.Words.{count_words, status_words};

use crate::parts::{Shaped, found, items, member, part, row, sized, table};
use json_shapes::{Fault, Place};
use machine_spec::{Count, GlideState, MOST_TURNS, Status, WaitState};
use saved_parts::{ToldKept, ToldLevel, ToldParam, ToldThread};
use serde_json::Value;
use std::alloc::Global;

fn count_named(word: &str) -> Option<Count>
    ensures { result ≡ item_named word.now count_words }
{
    match word {
        "inf" => Some(Count::Infinite),
        _ => None,
    }
}

fn turns(number: i64) -> Option<Count>
    ensures { result ≡ turns number }
{
    if number.unsigned_abs() <= MOST_TURNS {
        Some(Count::Whole(number))
    } else {
        None
    }
}

impl Shaped for Count {
    ghost use Rattle.machine_spec.specs.declared.threads.Count.{Count};

    ghost Seen = { Count };

    ghost seen = { λ n. n };

    ghost shape = { shape.count };

    fn read(alloc: Global, place: &Place, value: &Value) -> Result<Count, Fault> {
        let endless = value.as_str().and_then(count_named);
        let count = endless.or(value.as_i64().and_then(turns));
        found(alloc, place, count)
    }
}

impl Shaped for ToldParam {
    ghost use Rattle.scratch_values.specs.declared.value.Value.{Value};

    ghost Seen = { List ℕ × Value };

    ghost seen = { param_of };

    ghost shape = { shape.param };

    fn read(alloc: Global, place: &Place, value: &Value) -> Result<ToldParam, Fault> {
        let items = row(alloc, place, value, 2)?;
        let name = part(alloc, place, items, 0)?;
        let value = part(alloc, place, items, 1)?;
        Ok(ToldParam { name, value })
    }
}

// What a block keeps that says no more than its word.
fn bare(alloc: Global, place: &Place, items: &[Value], kept: ToldKept) -> Result<ToldKept, Fault>
    ensures { Reads kept_of result (shape.bare (kept_of kept) place.now (map view items.now)) }
{
    sized(alloc, place, items, 1)?;
    Ok(kept)
}

fn repeat(alloc: Global, place: &Place, items: &[Value]) -> Result<ToldKept, Fault>
    ensures { Reads kept_of result (shape.repeat place.now (map view items.now)) }
{
    sized(alloc, place, items, 2)?;
    let turns = part(alloc, place, items, 1)?;
    Ok(ToldKept::Repeat(turns))
}

fn wait(alloc: Global, place: &Place, items: &[Value]) -> Result<ToldKept, Fault>
    ensures { Reads kept_of result (shape.wait place.now (map view items.now)) }
{
    sized(alloc, place, items, 3)?;
    let start = part(alloc, place, items, 1)?;
    let duration = part(alloc, place, items, 2)?;
    Ok(ToldKept::Wait(WaitState { start, duration }))
}

fn glide(alloc: Global, place: &Place, items: &[Value]) -> Result<ToldKept, Fault>
    ensures { Reads kept_of result (shape.glide place.now (map view items.now)) }
{
    sized(alloc, place, items, 7)?;
    let start = part(alloc, place, items, 1)?;
    let duration = part(alloc, place, items, 2)?;
    let x0 = part(alloc, place, items, 3)?;
    let y0 = part(alloc, place, items, 4)?;
    let x1 = part(alloc, place, items, 5)?;
    let y1 = part(alloc, place, items, 6)?;
    Ok(ToldKept::Glide(GlideState {
        start,
        duration,
        x0,
        y0,
        x1,
        y1,
    }))
}

fn started(alloc: Global, place: &Place, items: &[Value]) -> Result<ToldKept, Fault>
    ensures { Reads kept_of result (shape.started place.now (map view items.now)) }
{
    sized(alloc, place, items, 2)?;
    let serials = part(alloc, place, items, 1)?;
    Ok(ToldKept::Started(serials))
}

fn call(alloc: Global, place: &Place, items: &[Value]) -> Result<ToldKept, Fault>
    ensures { Reads kept_of result (shape.call place.now (map view items.now)) }
{
    sized(alloc, place, items, 2)?;
    let params = part(alloc, place, items, 1)?;
    Ok(ToldKept::Call(params))
}

// The fault of a list whose first item is no word of these.
fn fault_of_word(alloc: Global, place: &Place) -> Fault
    ensures { IsFaultAt (path (codes "0" ∷ place.now)) result }
{
    place.item(0).fault(alloc)
}

// What a block keeps, by its word.
fn kept_named(alloc: Global, place: &Place, items: &[Value], word: &str) -> Result<ToldKept, Fault>
    ensures { Reads kept_of result (kept_named word.now place.now (map view items.now)) }
{
    match word {
        "loop" => bare(alloc, place, items, ToldKept::Loop),
        "repeat" => repeat(alloc, place, items),
        "wait" => wait(alloc, place, items),
        "glide" => glide(alloc, place, items),
        "started" => started(alloc, place, items),
        "asked" => bare(alloc, place, items, ToldKept::Asked),
        "spoken" => bare(alloc, place, items, ToldKept::Spoken),
        "call" => call(alloc, place, items),
        _ => Err(fault_of_word(alloc, place)),
    }
}

// What a block keeps, of which the first item is the word.
fn worded(alloc: Global, place: &Place, items: &[Value]) -> Result<ToldKept, Fault>
    ensures { Reads kept_of result (shape.worded place.now (map view items.now)) }
{
    match items {
        [first, ..] => match first.as_str() {
            Some(word) => kept_named(alloc, place, items, word),
            None => Err(fault_of_word(alloc, place)),
        },
        [] => Err(place.fault(alloc)),
    }
}

impl Shaped for ToldKept {
    ghost use Rattle.saved_spec.specs.Kept.{Kept};

    ghost Seen = { Kept };

    ghost seen = { kept_of };

    ghost shape = { shape.kept };

    fn read(alloc: Global, place: &Place, value: &Value) -> Result<ToldKept, Fault> {
        if value.is_null() {
            return Ok(ToldKept::Nothing);
        }
        let items = items(alloc, place, value)?;
        worded(alloc, place, items)
    }
}

impl Shaped for ToldLevel {
    ghost use Rattle.saved_spec.specs.Kept.{SavedLevel};

    ghost Seen = { SavedLevel };

    ghost seen = { level_of };

    ghost shape = { shape.level };

    fn read(alloc: Global, place: &Place, value: &Value) -> Result<ToldLevel, Fault> {
        let items = row(alloc, place, value, 2)?;
        let block = part(alloc, place, items, 0)?;
        let kept = part(alloc, place, items, 1)?;
        Ok(ToldLevel { block, kept })
    }
}

fn status_named(word: &str) -> Option<Status>
    ensures { result ≡ item_named word.now status_words }
{
    match word {
        "run" => Some(Status::Running),
        "tick" => Some(Status::YieldTick),
        "wait" => Some(Status::PromiseWait),
        _ => None,
    }
}

impl Shaped for Status {
    ghost use Rattle.machine_spec.specs.declared.threads.Status.{Status};

    ghost Seen = { Status };

    ghost seen = { λ s. s };

    ghost shape = { shape.status };

    fn read(alloc: Global, place: &Place, value: &Value) -> Result<Status, Fault> {
        found(alloc, place, value.as_str().and_then(status_named))
    }
}

impl Shaped for ToldThread {
    ghost use Rattle.saved_spec.specs.Kept.{SavedThread};

    ghost Seen = { SavedThread };

    ghost seen = { thread_of };

    ghost shape = { shape.thread };

    fn read(alloc: Global, place: &Place, value: &Value) -> Result<ToldThread, Fault> {
        table(alloc, place, value)?;
        let hat = member(alloc, place, value, "hat")?;
        let levels = member(alloc, place, value, "levels")?;
        let serial = member(alloc, place, value, "number")?;
        let of = member(alloc, place, value, "of")?;
        let status = member(alloc, place, value, "status")?;
        Ok(ToldThread {
            serial,
            of,
            hat,
            status,
            levels,
        })
    }
}
