//! Laws of hats, each the contract of a function that does nothing.

ghost use Rattle.hats.specs.Heads.{StartsAreHeads, EdgesAreHeads};
ghost use Rattle.hats.specs.Indexed.{IndexGivesStarts, IndexGivesHeld};

use hat_index::{a_kind_of_hat_has_one_opcode, the_hats_that_fit_are_those_of_their_keys};
use project_check::every_project_is_linked;

/// Every hat that a filter starts is a head of the target of its instance, and so is every edge hat that is evaluated: a
/// thread that begins with the first block of the script under it has that script to do.
pub fn every_hat_is_a_head()
    ensures starts { StartsAreHeads }
    ensures edges { EdgesAreHeads }
{}

/// Of each filter an index of a project gives the very hats that the machine starts, in its order; the block under each is one
/// of its target.
pub fn an_index_gives_the_hats_that_start()
    ensures starts { IndexGivesStarts }
    ensures held { IndexGivesHeld }
{
    a_kind_of_hat_has_one_opcode();
    the_hats_that_fit_are_those_of_their_keys();
    every_project_is_linked();
}
