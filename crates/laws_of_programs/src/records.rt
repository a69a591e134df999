//! What the records of a loaded program hold, each the contract of a function with an empty body.

ghost use Rattle.laws_of_programs.specs.Laws.{NumbersAreWithin, TargetsAreWell};

/// The program of each accepted file has one stage, its targets are well, and its blocks of monitors name what is there.
pub fn targets_of_a_project_are_well()
    ensures { TargetsAreWell }
{}

/// The numbers of the program of each accepted file are within the limit.
pub fn numbers_of_a_project_are_within_the_limit()
    ensures { NumbersAreWithin }
{}
