//! Laws of the definitions, each the clause of a function that does nothing.

ghost use Rattle.std.specs.Prelude.{◌≡◌, ◌↔◌, List, Result, Err};
ghost use Rattle.ror_text.specs.Laws.{LimitsAre, NumbersHaveOneText, SmallNumbersHaveOneText, NumbersAreWords, JoinedWordsAreCutAgain, CutWordsAreJoinedAgain, LinesEndAtTheirEnd, CutLinesGiveTheBytes};
ghost use Rattle.ror_text.specs.Reading.{read_all, IsFirstFault};

/// What is written as a report number is read again, and only its one text is read as it.
pub fn numbers_read_back()
    ensures numbers { NumbersHaveOneText }
    ensures small { SmallNumbersHaveOneText }
    ensures words { NumbersAreWords }
{}

/// Joining words by single spaces and cutting them there undo each other.
pub fn words_read_back()
    ensures joined { JoinedWordsAreCutAgain }
    ensures cut { CutWordsAreJoinedAgain }
{}

/// Ending a line by a line feed and cutting there undo each other.
pub fn lines_read_back()
    ensures ended { LinesEndAtTheirEnd }
    ensures cut { CutLinesGiveTheBytes }
{}

/// Reading lines in order fails with the fault of the first line that has one, and where a line has
/// one.
pub fn first_fault<State, Line, Fault>()
    ensures { (step : State → Line → Result State Fault) (state : State) (lines : List Line)
        (fault : Fault)
        → (read_all step state lines ≡ Err fault) ↔ IsFirstFault step state lines fault }
{}

/// The text of a table or a session has at most 16,777,216 bytes, and a report's numbers are below 2^127.
pub fn limits()
    ensures { LimitsAre }
{}
