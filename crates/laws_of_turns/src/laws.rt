//! Laws of the numbers of a run, each the contract of a function with an empty body.

ghost use Rattle.laws_of_turns.specs.Laws.{FirstIsWithin, LinesKeepWithin};

/// The first world of a run has its numbers within the limit.
pub fn the_first_world_is_within_the_limit()
    ensures { FirstIsWithin }
{}

/// Every line that reaches no limit keeps the numbers of a legal world within the limit.
pub fn a_line_keeps_numbers_within_the_limit()
    ensures { LinesKeepWithin }
{}
