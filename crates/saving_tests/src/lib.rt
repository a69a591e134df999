//! Tests of saved runs: their texts, their rules and the run that is made again, by small runs.
#![tactic(auto)]

#[cfg(test)]
mod run_save_tests;
#[cfg(test)]
mod saved_checks_tests;
#[cfg(test)]
mod saved_json_tests;
#[cfg(test)]
mod saved_levels_tests;
#[cfg(test)]
mod saved_reading_tests;
#[cfg(test)]
mod saved_rules_tests;
