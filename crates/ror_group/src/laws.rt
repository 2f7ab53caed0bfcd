//! Laws of the definitions, each the clause of a function that does nothing.

ghost use Rattle.ror_group.specs.Laws.{OneGroupAnswer, NoJudges, CombinedAreTrue, ProvedPairsAreTrue, ProvedPairPassesEachTest, WordsAreWideByAnswers, NoWideWords};

/// A group has one answer to each question. Without judges all holds for every one of them, and nothing for some one.
pub fn one_group_answer()
    ensures one { OneGroupAnswer }
    ensures none { NoJudges }
{}

/// Where each judge's answers are true or wide, the words that are not wide are the group's answers.
pub fn combined_are_true()
    ensures { CombinedAreTrue }
{}

/// Words that are proved and not wide are the group's answers over all compatible functions.
pub fn proved_pairs_are_true()
    ensures { ProvedPairsAreTrue }
{}

/// No test of the checker fails of answers and words that are proved.
pub fn proved_pair_passes_each_test()
    ensures { ProvedPairPassesEachTest }
{}

/// A word is wide exactly where one of the answers that it goes by is and no answer is a contradiction: so where no answer is
/// wide, no word is.
pub fn words_are_wide_by_answers()
    ensures wide { WordsAreWideByAnswers }
    ensures none { NoWideWords }
{}
