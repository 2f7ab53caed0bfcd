//! Laws of the definitions, each the clause of a function that does nothing.

ghost use Rattle.ror_proof.specs.Laws.{AnswersAreTheirTexts, AnswersHaveOneText, TextsAreReadAlone, TextsAreUtf8, TextsBeginWithAnswer, AnswersFailFirst, RepairsAreTheirTexts, RepairsHaveOneText, RepairsAreReadAlone, NoRepairIsAnAnswer, RepairsBeginWithRepaired, RepairsAreUtf8, RepairsFailFirst};

/// An answer is read exactly where its text stands and no further part follows: what was written is
/// read again, and what is read was so written.
pub fn answers_read_back()
    ensures { AnswersAreTheirTexts }
{}

/// A repair is read exactly where its text stands: what was written is read again, and what is read
/// was so written.
pub fn repairs_read_back()
    ensures { RepairsAreTheirTexts }
{}

/// Two answers that have a text have two texts, and a text of an answer that is followed by no further part is read as
/// that answer alone. Two repairs that have a text have two, each of which is read alone whatever follows, and none is one
/// of an answer.
pub fn one_spelling()
    ensures one_text { AnswersHaveOneText }
    ensures read_alone { TextsAreReadAlone }
    ensures one_text_of_a_repair { RepairsHaveOneText }
    ensures repair_read_alone { RepairsAreReadAlone }
    ensures apart { NoRepairIsAnAnswer }
{}

/// The text of an answer and that of a repair begin with their first word, and are UTF-8.
pub fn texts()
    ensures begin { TextsBeginWithAnswer }
    ensures utf8 { TextsAreUtf8 }
    ensures repairs_begin { RepairsBeginWithRepaired }
    ensures repairs_utf8 { RepairsAreUtf8 }
{}

/// A text is refused as an answer, or as a repair, exactly with the fault of the first faulty word
/// of its first faulty line.
pub fn the_first_fault_is_given()
    ensures of_answers { AnswersFailFirst }
    ensures of_repairs { RepairsFailFirst }
{}
