//! The parts of a text that the stores of a run are made of.

use project_json::Text;
use saved_parts::{
    ToldInstances, ToldKeys, ToldMadeList, ToldMouse, ToldQuestions, ToldTimers, ToldTruths,
};

/// What a text tells of the devices of a run. `usage` is the number of the next bubble update.
#[derive(Debug, Drop)]
pub struct ToldDevices {
    pub answer: Text,
    pub clock: u64,
    pub timer: u64,
    pub keys: ToldKeys,
    pub mouse: ToldMouse,
    pub questions: ToldQuestions,
    pub timers: ToldTimers,
    pub turbo: bool,
    pub usage: u64,
}

/// What a text tells of the stores of a run: its instances with their variables and lists, whether each monitor of the file
/// is visible, the monitors that blocks added, and the devices.
#[derive(Debug, Drop)]
pub struct ToldStores {
    pub instances: ToldInstances,
    pub monitors: ToldTruths,
    pub made: ToldMadeList,
    pub devices: ToldDevices,
}
