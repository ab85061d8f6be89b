//! Laws of compared files: the contract of each function is a law, and its body does nothing.

ghost use Rattle.edf_runs.specs.ComparedLaws.{FirstWordIsNamed, NothingIsMissing};
ghost use Rattle.edf_runs.specs.ComparedLaws.{StretchesAreCut, WordsAreCounts, WordsNameClashes};

/// All words are `known` just where the first file has each data record of the second.
pub fn all_known_is_nothing_missing()
    ensures { NothingIsMissing }
{}

/// Where all words are `known` or `new`, their counts are those that a store answers which holds
/// the first file alone.
pub fn words_are_counts()
    ensures { WordsAreCounts }
{}

/// The first word that is another says which refusal such a store answers.
pub fn first_word_is_named()
    ensures { FirstWordIsNamed }
{}

/// By the words a store that holds the first file alone answers: what is known or new clashes with
/// nothing that it holds, and what differs or overlaps does.
pub fn words_name_clashes()
    ensures { WordsNameClashes }
{}

/// The cut file of a stretch's time has just its data records.
pub fn stretches_are_cut()
    ensures { StretchesAreCut }
{}
