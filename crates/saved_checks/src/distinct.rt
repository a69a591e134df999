//! Whether numbers differ from one another, and texts.

ghost use Rattle.std.specs.Prelude.{◌≡◌, IfOk};
ghost use Rattle.saved_spec.specs.Rules as rules;

use project_json::Text;
use std::alloc::{AllocError, Global};
use std::collections::BTreeSet;

// Whether no two numbers are equal.
pub(crate) fn numbers_differ(alloc: Global, numbers: &[u64]) -> Result<bool, AllocError>
    ensures { IfOk result (λ r. r ≡ rules.differ numbers.now) }
{
    let mut seen = BTreeSet::new(alloc);
    for number in numbers {
        if !seen.insert(*number)? {
            return Ok(false);
        }
    }
    Ok(true)
}

// Whether no two texts are equal.
pub(crate) fn texts_differ(alloc: Global, texts: &[Text]) -> Result<bool, AllocError>
    ensures { IfOk result (λ r. r ≡ rules.texts_differ texts.now) }
{
    let mut seen = BTreeSet::new(alloc);
    for text in texts {
        if !seen.insert(text.as_str())? {
            return Ok(false);
        }
    }
    Ok(true)
}
