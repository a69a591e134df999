//! Tests of JSON texts, of the shapes of a file and of mutations, by worked texts.
#![tactic(auto)]

#[cfg(test)]
mod mutations_tests;
#[cfg(test)]
mod project_json_tests;
#[cfg(test)]
mod shapes_tests;
