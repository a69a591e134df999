//! What the command's words name.

ghost use Rattle.std.specs.Prelude.{◌≡◌, map, string_bytes};
ghost use Rattle.std.specs.Option.{option_copied};
ghost use Rattle.report_command.specs.Naming.{name_of};

/// The name of the project file, or `None` where the words are not one name.
pub(crate) fn name_of(words: &[String]) -> Option<&str>
    ensures { option_copied result ≡ name_of (map string_bytes words.now) }
{
    match words {
        [name] => Some(name.as_str()),
        _ => None,
    }
}
