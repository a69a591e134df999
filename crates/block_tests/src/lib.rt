//! Tests of the commands of control and of variables and lists, by worked rows.
#![tactic(auto)]

#[cfg(test)]
mod control_blocks_tests;
#[cfg(test)]
mod data_blocks_tests;
