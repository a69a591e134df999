//! The law over three calls.

ghost use Rattle.play_command.specs.Laws.{CallsAgree};

use laws_of_resuming::a_world_goes_on_as_its_script;
use saved_spec::one_answer_at_most;

/// What `play` writes for the first part of a script, and then `resume` for the second, is what `play` writes for both parts
/// as one script; the second ends as the whole does, and saves the same text (specs/Laws.antt). That the text of the first
/// call is accepted again is the clause `resumable` of `play`.
pub fn two_parts_of_a_script_are_the_whole()
    ensures { CallsAgree }
{
    a_world_goes_on_as_its_script();
    one_answer_at_most();
}
