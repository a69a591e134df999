//! Laws of scripts that are played in parts, each the contract of a function with an empty body.

ghost use Rattle.laws_of_resuming.specs.Laws.{ClockIsRead, LinesGoOn, NumbersMove, PartsAreWhole, RedrawIsNotTold, TextsJoin, WorldsGoOn};

/// The lines of two texts together are those of each, where the first ends a line.
pub fn lines_of_texts_join()
    ensures { TextsJoin }
{}

/// Lines behind others are played from the last world, number and clock reading of those.
pub fn lines_go_on_from_the_last_world()
    ensures { LinesGoOn }
{}

/// Where more lines stand in front, refused lines have other numbers, and nothing else differs.
pub fn numbers_are_told_by_refused_lines_alone()
    ensures { NumbersMove }
{}

/// A redraw request changes nothing that is written.
pub fn redraw_requests_are_not_told()
    ensures { RedrawIsNotTold }
{}

/// The clock of the last world is the last clock reading.
pub fn the_clock_is_the_last_reading()
    ensures { ClockIsRead }
{}

/// A script that goes on behind a part of it gives what the part gives and then what the rest gives.
pub fn the_parts_of_a_script_are_the_whole()
    ensures { PartsAreWhole }
{}

/// The same where the clock of each world is taken for the last reading in front of it.
pub fn a_world_goes_on_as_its_script()
    ensures { WorldsGoOn }
{}
