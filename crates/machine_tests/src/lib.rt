//! Tests of threads, hats, the evaluation of inputs, lines and frames, by small projects.
#![tactic(auto)]

#[cfg(test)]
mod evaluate_tests;
#[cfg(test)]
mod frames_tests;
#[cfg(test)]
mod hats_tests;
#[cfg(test)]
mod level_tests;
#[cfg(test)]
mod lines_tests;
#[cfg(test)]
mod sequencer_tests;
#[cfg(test)]
mod thread_frames_tests;
