//! Tests of shelves and sinks: those in memory, whose answers are known to the byte, and those over files and the output.
#![tactic(auto)]

#[cfg(test)]
mod digest_sink_tests;
#[cfg(test)]
mod sv_channels_tests;
