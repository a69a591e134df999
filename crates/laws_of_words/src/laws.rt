//! Laws of the random words of a run, each the contract of a function with an empty body.

ghost use Rattle.laws_of_words.specs.Laws.{FirstAreOfSeed, ToldByNumber, WordsAreSmall};

/// Before the first word is drawn the words are those of the seed.
pub fn the_first_words_are_of_the_seed()
    ensures { FirstAreOfSeed }
{}

/// How many words of a seed were drawn tells which are left.
pub fn words_of_a_seed_are_told_by_their_number()
    ensures { ToldByNumber }
{}

/// The next word of a seed is below 2^32.
pub fn a_word_is_below_two_to_the_32()
    ensures { WordsAreSmall }
{}
