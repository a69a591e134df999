//! Laws of what a project file tells, each the contract of a function that does nothing.

ghost use Rattle.project_spec.specs.TreeAt.{OneScript};
ghost use Rattle.project_spec.specs.Refusals.{OneRefusal, AcceptedIsNotRefused, OneFile};
ghost use Rattle.project_spec.specs.Unrolling.{BranchesAreScripts, ExpressionUnrolls, HasScript, NoLinkIsEmpty, ScriptUnrolls};

use project_json::{one_fault, one_tree, text_has_no_fault};

/// A link has one script: the relation between links and trees leaves no choice.
pub fn a_link_has_one_script()
    ensures { OneScript }
{}

/// A project file is refused for one reason at most, none that is accepted is refused, and what is accepted tells one file.
pub fn a_file_has_one_answer()
    ensures one { OneRefusal }
    ensures apart { AcceptedIsNotRefused }
    ensures file { OneFile }
{
    one_tree();
    one_fault();
    text_has_no_fault();
}

/// Where a rank falls along every link, the expression at a block is the block with the expressions at its links.
pub fn an_expression_unrolls()
    ensures { ExpressionUnrolls }
{}

/// Where a rank falls along every link, the script at a block is its statement and the script at its next link; the
/// branches of the statement are the scripts at their links.
pub fn a_script_unrolls()
    ensures none { NoLinkIsEmpty }
    ensures block { ScriptUnrolls }
    ensures branches { BranchesAreScripts }
{}

/// A link among blocks with ranks has its script.
pub fn a_link_of_ranked_blocks_has_its_script()
    ensures { HasScript }
{}
