//! Laws of the variables of a run, each the contract of a function with an empty body.

ghost use Rattle.laws_of_variables.specs.Laws.{FirstIsLegal, LinesKeep};

/// The first world of a run has legal variables.
pub fn the_first_world_has_legal_variables()
    ensures { FirstIsLegal }
{}

/// Every line that reaches no limit keeps variables, lists and monitors legal.
pub fn a_line_keeps_variables_legal()
    ensures { LinesKeep }
{}
