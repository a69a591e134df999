//! The first rule that is broken.

ghost use Rattle.std.specs.Prelude.{◌≡◌, map};
ghost use Rattle.std.specs.Option.{option_copied};
ghost use Rattle.saved_checks.specs.Groups.{broken_in, rule_of};

/// A rule: the member that it is of, and whether a run keeps it.
pub(crate) type Rule = (&'static str, bool);

// The member of the first of the rules that is broken.
pub(crate) fn first_broken(rules: &[Rule]) -> Option<&'static str>
    ensures { option_copied result ≡ broken_in (map rule_of rules.now) }
{
    for (member, holds) in rules {
        if !*holds {
            return Some(*member);
        }
    }
    None
}
