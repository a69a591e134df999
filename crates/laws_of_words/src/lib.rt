//! The random words of a run: laws over the definitions of the machine. There is no code here.
#![tactic(auto)]

mod laws;

pub use laws::{
    a_word_is_below_two_to_the_32, the_first_words_are_of_the_seed,
    words_of_a_seed_are_told_by_their_number,
};
