//! Laws of runs that can be told, each the contract of a function with an empty body.

ghost use Rattle.laws_of_reading.specs.Laws.{ShapeIsTold, TextReadsBack, VersionIsKnown};

/// The value of a run that can be told has the shape of a saved run, and tells just what the run is.
pub fn a_run_that_can_be_told_has_its_shape()
    ensures { ShapeIsTold }
{}

/// The value of a run is of the version that is read.
pub fn a_saved_run_is_of_the_known_version()
    ensures { VersionIsKnown }
{}

/// The text of a run that can be told is UTF-8, and is read as the value of the run.
pub fn the_text_of_a_run_reads_back()
    ensures { TextReadsBack }
{}
