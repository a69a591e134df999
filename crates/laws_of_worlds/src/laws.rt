//! Laws of the worlds of a run, each the contract of a function with an empty body.

ghost use Rattle.laws_of_worlds.specs.Laws.{FirstIsLegal, LastIsLegal, LinesKeepLegal};

/// The first world of a run is legal.
pub fn the_first_world_is_legal()
    ensures { FirstIsLegal }
{}

/// Every line that reaches no limit, a frame too, keeps a legal world legal.
pub fn every_line_keeps_it_legal()
    ensures { LinesKeepLegal }
{}

/// The last world of a script that is played to its end is legal, where the first is.
pub fn the_last_world_is_legal()
    ensures { LastIsLegal }
{}
