//! Tests of what is read of a project and of each test of a file, by small projects.
#![tactic(auto)]

#[cfg(test)]
mod block_table_tests;
#[cfg(test)]
mod cached_blocks_tests;
#[cfg(test)]
mod linked_blocks_tests;
#[cfg(test)]
mod name_resolving_tests;
#[cfg(test)]
mod project_check_tests;
#[cfg(test)]
mod target_records_tests;
