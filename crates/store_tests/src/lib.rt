//! Tests of devices, variables and instances, of the text of a frame, and of how lines of an input script are read.
#![tactic(auto)]

#[cfg(test)]
mod devices_tests;
#[cfg(test)]
mod input_script_tests;
#[cfg(test)]
mod scenes_tests;
#[cfg(test)]
mod stage_frame_tests;
#[cfg(test)]
mod targets_tests;
#[cfg(test)]
mod variables_tests;
