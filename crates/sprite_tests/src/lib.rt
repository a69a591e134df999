//! Tests of the commands of motion and looks, by worked rows.
#![tactic(auto)]

#[cfg(test)]
mod looks_blocks_tests;
#[cfg(test)]
mod motion_blocks_tests;
