//! What the saved text of a legal world tells, as the contract of a function with an empty body.

ghost use Rattle.laws_of_saving.specs.Laws.{WorldIsTold};

/// The world that the saved text of a legal world tells is this one, without its redraw request.
pub fn the_world_of_a_run_is_told()
    ensures { WorldIsTold }
{}
