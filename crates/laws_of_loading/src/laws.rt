//! Laws of accepted saved runs, each the contract of a function with an empty body.

ghost use Rattle.laws_of_loading.specs.Laws.{AcceptedIsLegal, AcceptedIsWritten};

/// The world that an accepted saved run tells is legal.
pub fn an_accepted_saved_run_tells_a_legal_world()
    ensures { AcceptedIsLegal }
{}

/// Bytes that are accepted are the saved text of the world that they tell.
pub fn an_accepted_saved_run_is_the_text_of_its_world()
    ensures { AcceptedIsWritten }
{}
