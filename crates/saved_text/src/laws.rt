//! Laws of the saved run, each the contract of a function with an empty body.

ghost use Rattle.saved_text.specs.Laws.{RangesOfWhatIsLeft, SavesWhatIsLeft};

/// A run whose threads keep levels has the saved text of its world, whose threads keep what they have still to do.
pub fn a_saved_run_is_its_world()
    ensures { SavesWhatIsLeft }
{}

/// What the types say of a run whose threads keep levels is true of its world, whose threads keep what they have still to
/// do.
pub fn what_is_left_is_in_range()
    ensures { RangesOfWhatIsLeft }
{}
