//! Laws of the index, each the contract of a function with an empty body.

ghost use Rattle.hat_index.specs.ByIndex.{EachKindHasOneOpcode, SameFolded, FirstByKey, SecondByKey};

/// Two opcodes of hats that are of one kind are the same.
pub fn a_kind_of_hat_has_one_opcode()
    ensures { EachKindHasOneOpcode }
{}

/// Two texts have the same folded characters exactly where they have the same folded text.
pub fn a_text_has_one_list_of_folded_characters()
    ensures { SameFolded }
{}

/// The heads of a target that fit a filter are those that an index has under the filter's opcode and folded text, in block
/// order; for a click those of the stage come behind the others.
pub fn the_hats_that_fit_are_those_of_their_keys()
    ensures first { FirstByKey }
    ensures second { SecondByKey }
{}
