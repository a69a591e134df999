//! Lines with numbers, each in its range.

ghost use Rattle.std.specs.Prelude.{◌≡◌, Some, IfOk, IfSome};
ghost use Rattle.machine_spec.specs.ScriptText.{Good, mouse_line, click_line, frame_line, signed_number, whole_number};
ghost use Rattle.input_script.specs.Reader.{Refuses};

use crate::numbers::{signed_number, whole_number};
use machine_spec::{Budget, LAST_CLOCK, Line, LineRefusal};

const MAX_PASSES: u64 = 10_000;

const MAX_WARP: u64 = 1_000_000;

// Each number beyond a range is read as one of these.
const FAR: u64 = 10_000_000_000_000;

const ASIDE: u32 = 1_000;

// The place of the mouse, where both words are numbers.
fn mouse_at(number: u64, x: Option<i64>, y: Option<i64>) -> Result<Line, LineRefusal>
    ensures ok { IfOk result (λ l. mouse_line number x y ≡ Good l) }
    ensures refused { Refuses result (Some (mouse_line number x y)) }
{
    let Some(x) = x else {
        return Err(LineRefusal::BadNumber { line: number });
    };
    let Some(y) = y else {
        return Err(LineRefusal::BadNumber { line: number });
    };
    if x < -240 || x > 240 || y < -180 || y > 180 {
        return Err(LineRefusal::OutOfRange { line: number });
    }
    Ok(Line::Mouse {
        x: x as i32,
        y: y as i32,
    })
}

// The line of two words that name a place of the mouse.
pub(crate) fn mouse(number: u64, x: &str, y: &str) -> Result<Line, LineRefusal>
    ensures ok { IfOk result (λ l. mouse_line number (signed_number x.now) (signed_number y.now) ≡ Good l) }
    ensures refused { Refuses result (Some (mouse_line number (signed_number x.now) (signed_number y.now))) }
{
    mouse_at(number, signed_number(x, ASIDE), signed_number(y, ASIDE))
}

// The click on an instance, where the word is a number.
fn click_at(number: u64, place: Option<u64>) -> Result<Line, LineRefusal>
    ensures ok { IfOk result (λ l. click_line number place ≡ Good l) }
    ensures refused { Refuses result (Some (click_line number place)) }
{
    match place {
        Some(place) => match u32::try_from(place) {
            Ok(place) => Ok(Line::Click(place)),
            Err(_) => Err(LineRefusal::OutOfRange { line: number }),
        },
        None => Err(LineRefusal::BadNumber { line: number }),
    }
}

// The click on the instance at a place.
pub(crate) fn click(number: u64, place: &str) -> Result<Line, LineRefusal>
    ensures ok { IfOk result (λ l. click_line number (whole_number place.now) ≡ Good l) }
    ensures refused { Refuses result (Some (click_line number (whole_number place.now))) }
{
    click_at(number, whole_number(place, FAR))
}

// A frame of these numbers, in their ranges, the clock not below the last.
fn in_range(number: u64, last: u64, clock: u64, passes: u64, warp: u64) -> Result<Line, LineRefusal>
    ensures ok { IfOk result (λ l. frame_line number last (Some clock) (Some passes) (Some warp) ≡ Good l) }
    ensures refused { Refuses result (Some (frame_line number last (Some clock) (Some passes) (Some warp))) }
{
    if clock > LAST_CLOCK || passes < 1 || passes > MAX_PASSES || warp > MAX_WARP {
        return Err(LineRefusal::OutOfRange { line: number });
    }
    if clock < last {
        return Err(LineRefusal::ClockBack {
            line: number,
            was: last,
            is: clock,
        });
    }
    Ok(Line::Frame(Budget {
        clock,
        passes: passes as u32,
        warp: warp as u32,
    }))
}

// A frame, where all three words are numbers.
fn frame_of(
    number: u64,
    last: u64,
    clock: Option<u64>,
    passes: Option<u64>,
    warp: Option<u64>,
) -> Result<Line, LineRefusal>
    ensures ok { IfOk result (λ l. frame_line number last clock passes warp ≡ Good l) }
    ensures refused { Refuses result (Some (frame_line number last clock passes warp)) }
{
    match (clock, passes, warp) {
        (Some(clock), Some(passes), Some(warp)) => in_range(number, last, clock, passes, warp),
        _ => Err(LineRefusal::BadNumber { line: number }),
    }
}

// A frame by the words of its clock, passes and warp budget.
pub(crate) fn frame(
    number: u64,
    last: u64,
    clock: &str,
    passes: &str,
    warp: &str,
) -> Result<Line, LineRefusal>
    ensures ok { IfOk result (λ l. frame_line number last (whole_number clock.now) (whole_number passes.now) (whole_number warp.now) ≡ Good l) }
    ensures refused { Refuses result (Some (frame_line number last (whole_number clock.now) (whole_number passes.now) (whole_number warp.now))) }
{
    frame_of(
        number,
        last,
        whole_number(clock, FAR),
        whole_number(passes, FAR),
        whole_number(warp, FAR),
    )
}
