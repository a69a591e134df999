//! What the scripts of a loaded program have, each the contract of a function with an empty body.

ghost use Rattle.laws_of_programs.specs.Laws.{BlocksAreInOrder, BlocksAreTold, ScriptsAreLegal};

/// The statements of the program of each accepted file stand in their targets, and its procedures begin with a statement.
pub fn scripts_of_a_project_are_legal()
    ensures { ScriptsAreLegal }
{}

/// Each block of a target begins one script, wherever it stands in the program of an accepted file.
pub fn each_block_begins_one_script()
    ensures { BlocksAreTold }
{}

/// The heads of the program of each accepted file stand in the order of their blocks, and its statements at blocks.
pub fn blocks_of_a_project_are_in_order()
    ensures { BlocksAreInOrder }
{}
