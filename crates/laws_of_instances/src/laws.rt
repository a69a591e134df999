//! Laws of legal instances, each the contract of a function with an empty body.

ghost use Rattle.laws_of_instances.specs.Laws.{FirstIsLegal, LinesKeep};

/// The first world of a run has legal instances.
pub fn the_first_world_has_legal_instances()
    ensures { FirstIsLegal }
{}

/// Every line that reaches no limit keeps instances legal.
pub fn a_line_keeps_instances_legal()
    ensures { LinesKeep }
{}
