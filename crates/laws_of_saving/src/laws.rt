//! Laws of the legal worlds of a run and of their saved texts, each the contract of a function with an empty body.

ghost use Rattle.laws_of_saving.specs.Laws.{EachFileIsGood, OneWorldOfAText, TextIsAccepted};

/// The program of each project file that is accepted has runs that can be saved.
pub fn every_accepted_file_is_playable()
    ensures { EachFileIsGood }
{}

/// The text of a legal world, where the types of its run hold what they say, is accepted, and tells it.
pub fn the_text_of_a_run_is_accepted()
    ensures { TextIsAccepted }
{}

/// Legal worlds with the same text differ in their redraw requests alone.
pub fn one_text_tells_one_world()
    ensures { OneWorldOfAText }
{}
