//! The parts of devices, as a saved run names them.

use machine_spec::{BubbleTimers, Keys, Questions};
use scratch_values::BoundText;

/// What the devices of a run hold: the last answer; the clock and the clock at the last reset of the timer, in
/// milliseconds; the keys in the order of pressing; the mouse's place in stage units, and its button; the questions in the
/// order of asking; the bubble timers in the order of making; turbo; and the number that the next bubble update gets.
#[derive(Drop)]
pub struct DeviceParts {
    pub answer: BoundText,
    pub clock: u64,
    pub timer: u64,
    pub keys: Keys,
    pub mouse_x: i32,
    pub mouse_y: i32,
    pub button: bool,
    pub questions: Questions,
    pub timers: BubbleTimers,
    pub turbo: bool,
    pub usage: u64,
}
