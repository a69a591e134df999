//! How a text is written.

ghost use Rattle.std.specs.Prelude.{◌≡◌};
ghost use Rattle.saved_spec.specs.Refusals.{first_difference};

// How many bytes stand before the first place at which two texts differ.
pub(crate) fn difference(left: &[u8], right: &[u8]) -> Option<u64>
    ensures { result ≡ first_difference left.now right.now }
{
    let mut at = 0;
    while at < left.len() && at < right.len() {
        if left[at] != right[at] {
            return Some(at as u64);
        }
        at += 1;
    }
    if left.len() == right.len() {
        None
    } else {
        Some(at as u64)
    }
}
