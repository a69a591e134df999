//! Where a script and a line are cut.

ghost use Rattle.std.specs.Prelude.{◌≡◌, ◌<◌, ◌==◌, [], ◌∷◌, length, IfNone, IfSome};
ghost use Rattle.std.specs.List.{position_from, position_or_len, after_first};
ghost use Rattle.machine_spec.specs.ScriptText.{lines_of, words_of};
ghost use Rattle.input_script.specs.Reader.{behind_line, line_in};

// The place of the first line end.
fn line_end(script: &[u8]) -> Option<usize>
    ensures value { result ≡ position_from (λ b. b == 10) 0 script.now }
    ensures within { IfSome result (λ at. at < length script.now) }
{
    script.iter().position(|byte| *byte == b'\n')
}

// How many bytes stand before the first line end, or in all.
fn line_len(script: &[u8]) -> usize
    ensures { result ≡ position_or_len (λ b. b == 10) script.now }
{
    match line_end(script) {
        Some(at) => at,
        None => script.len(),
    }
}

// The first line of a script, without its end, and the bytes of the lines after it; `None` at the end.
pub(crate) fn first_line(script: &[u8]) -> Option<(&[u8], &[u8])>
    ensures end { IfNone result (script.now ≡ []) }
    ensures line { IfSome result (λ x. lines_of script.now ≡ x.0.now ∷ lines_of x.1.now) }
    ensures rest { IfSome result (λ x. x.1.now ≡ behind_line script.now) }
    ensures first { IfSome result (λ x. x.0.now ≡ line_in script.now) }
    ensures shorter { IfSome result (λ x. length x.1.now < length script.now) }
{
    if script.is_empty() {
        return None;
    }
    let len = line_len(script);
    if len < script.len() {
        Some((&script[..len], &script[len + 1..]))
    } else {
        Some((script, &script[script.len()..]))
    }
}

// The first word of a text, and what follows its space, if there is one.
pub(crate) fn cut(text: &str) -> (&str, Option<&str>)
    ensures alone { IfNone result.1 (words_of text.now ≡ result.0.now ∷ []) }
    ensures parted { IfSome result.1 (λ rest. words_of text.now ≡ result.0.now ∷ words_of rest.now) }
    ensures rest { IfSome result.1 (λ rest. after_first (λ b. b == 32) text.now ≡ rest.now) }
{
    match text.split_once(' ') {
        Some((word, rest)) => (word, Some(rest)),
        None => (text, None),
    }
}
