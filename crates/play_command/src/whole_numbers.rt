//! Whole numbers as words.

ghost use Rattle.std.specs.Prelude.{◌≡◌, ◌≤◌, IfSome};
ghost use Rattle.play_command.specs.WholeNumbers.{whole_up_to};

use input_script::is_whole;

/// The whole number that the word writes, where it is at most `most`.
pub fn whole_up_to(word: &str, most: u64) -> Option<u64>
    ensures number { result ≡ whole_up_to most word.now }
    ensures most { IfSome result (λ n. n ≤ most) }
{
    if !is_whole(word.as_bytes()) {
        return None;
    }
    match word.parse::<u64>() {
        Ok(number) => { if number <= most { Some(number) } else { None } }
        Err(_) => None,
    }
}
