//! Laws of the devices and counters of a run, each the contract of a function with an empty body.

ghost use Rattle.laws_of_devices.specs.Laws.{FirstIsLegal, LinesKeep, ReadLinesAreGood};

/// The first world of a run has legal devices.
pub fn the_first_world_has_legal_devices()
    ensures { FirstIsLegal }
{}

/// Every line that reaches no limit keeps the devices legal.
pub fn a_line_keeps_devices_legal()
    ensures { LinesKeep }
{}

/// A line that is read is a good one where the clock stands.
pub fn a_line_that_is_read_is_good()
    ensures { ReadLinesAreGood }
{}
