//! Tests of the commands `play`, `resume`, `check` and `report`, over shelves and sinks in memory.
#![tactic(auto)]

#[cfg(test)]
mod play_command_tests;
#[cfg(test)]
mod report_command_tests;
