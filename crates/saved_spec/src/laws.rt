//! Laws of the rules, each the contract of a function with an empty body.

ghost use Rattle.saved_spec.specs.Laws.{LegalThreadsAreTold, OneAnswer, OneRefusal, TellsWhatIsSaved, ThreadsAreLegal, WrittenAsRead};

/// Bytes tell one run at most, or are refused in one way at most, and not both.
pub fn one_answer_at_most()
    ensures accepted { OneAnswer }
    ensures refused { OneRefusal }
{}

/// Bytes that are accepted are just the saved text of what they tell.
pub fn an_accepted_text_is_what_is_written()
    ensures { WrittenAsRead }
{}

/// What a text tells of a run of the machine is written just as the run is.
pub fn a_saved_run_tells_its_world()
    ensures { TellsWhatIsSaved }
{}

/// A thread of a saved run that keeps the rules is told by some thread of the machine that is legal.
pub fn a_thread_that_is_accepted_is_legal()
    ensures { ThreadsAreLegal }
{}

/// What a text tells of a legal thread of the machine keeps the rules, where each block begins one script.
pub fn a_legal_thread_is_accepted()
    ensures { LegalThreadsAreTold }
{}
