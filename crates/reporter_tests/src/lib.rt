//! Tests of reporters and of the operators behind them, by worked rows.
#![tactic(auto)]

#[cfg(test)]
mod block_arguments_tests;
#[cfg(test)]
mod operators_tests;
#[cfg(test)]
mod reporters_tests;
