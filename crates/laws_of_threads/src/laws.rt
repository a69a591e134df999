//! Laws of legal threads, each the contract of a function with an empty body.

ghost use Rattle.laws_of_threads.specs.Laws.{ControlsKeep, FirstIsLegal, FramesKeep, LinesKeep, SlicesKeep};

/// Where a control leaves its own thread, what the thread has still to do is legal.
pub fn every_control_keeps_what_is_left_legal()
    ensures { ControlsKeep }
{}

/// The first world of a run is legal.
pub fn the_first_world_is_legal()
    ensures { FirstIsLegal }
{}

/// A slice of executions that reaches no limit keeps a world legal during a frame, wherever it is cut.
pub fn a_slice_keeps_a_world_legal()
    ensures { SlicesKeep }
{}

/// A frame that reaches no limit keeps a legal world legal, where its clock does not go back.
pub fn a_frame_keeps_a_world_legal()
    ensures { FramesKeep }
{}

/// Every line that reaches no limit keeps a legal world legal.
pub fn a_line_keeps_a_world_legal()
    ensures { LinesKeep }
{}
