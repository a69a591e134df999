//! Laws of cached blocks, each the contract of a function that does nothing.

ghost use Rattle.cached_blocks.specs.Told.{ExpressionIsTold, LinksFall, ScriptIsTold};

/// The script at a cached block is the statement that the block tells, then the script at its next link.
pub fn a_script_is_told()
    ensures { ScriptIsTold }
{}

/// The links of a cached block lead to blocks of smaller ranks, those of its inputs to reporters.
pub fn links_fall()
    ensures { LinksFall }
{}

/// The expression at a cached reporter is its operator, with the expressions of its inputs.
pub fn an_expression_is_told()
    ensures { ExpressionIsTold }
{}
