//! What the text of a saved run tells, part by part (docs/formats.md, section 5): numbers and texts of any size, as they
//! stand in the text, before any rule is tested.
#![tactic(auto)]

mod instances;
mod run;
mod threads;
mod values;

pub use instances::{ToldBubble, ToldEdges, ToldInstance, ToldInstances};
pub use run::{
    ToldKeys, ToldMade, ToldMadeList, ToldMouse, ToldNext, ToldQuestion, ToldQuestions, ToldRun,
    ToldTimers, ToldTruths,
};
pub use threads::{
    ToldKept, ToldLevel, ToldLevels, ToldParam, ToldParams, ToldSerials, ToldThread, ToldThreads,
};
pub use values::{ToldLists, ToldValue, ToldValues, value};
