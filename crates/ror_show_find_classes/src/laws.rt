//! Each function here states one law, and does nothing.

ghost use Rattle.ror_show_find_classes.specs.ChangeLaws.{ChangesAreTrue, TurnsAreThose};
ghost use Rattle.ror_show_find_classes.specs.Laws.{SignsAreTrue, OneSign, SignsAreWhole, IntervalsAreTrue, BytesAreTrue, RowsAreThose, TimesAreThose, EachIsInOneTime, OneListInATime};

/// By answers that are true of all compatible functions each sign says what is true of them.
pub fn signs_are_true()
    ensures { SignsAreTrue }
{}

/// No two signs that say something are true of one alternative and class.
pub fn one_sign()
    ensures { OneSign }
{}

/// By the answers to all questions on the classes of an alternative, of which none is too wide, each sign says something of it.
pub fn signs_are_whole()
    ensures { SignsAreWhole }
{}

/// By answers that are true each class to which some compatible function lets an alternative belong lies between the ends that are shown
/// of it, and a settled one has one class, to which some function lets it belong.
pub fn intervals_are_true()
    ensures { IntervalsAreTrue }
{}

/// By answers that are true a class with `#` is the only one that compatible functions leave the alternative, and every one leaves it;
/// one with `&` is left by every one, beside another that isn't excluded.
pub fn bytes_are_true()
    ensures { BytesAreTrue }
{}

/// The rows of a time are the answered lines of its desk from its first one on, up to the next change of what stands there.
pub fn rows_are_those()
    ensures { RowsAreThose }
{}

/// A time begins with an answered line of a desk, where what stands there changed since each answered line before it.
pub fn times_are_those()
    ensures { TimesAreThose }
{}

/// Each answered line is a row of one time.
pub fn each_is_in_one_time()
    ensures { EachIsInOneTime }
{}

/// At all lines of a time the same list of statements stood, the one whose numbers stand above its rows.
pub fn one_list_in_a_time()
    ensures { OneListInATime }
{}

/// The times that are shown with one another are those of one desk with none between them.
pub fn turns_are_those()
    ensures { TurnsAreThose }
{}

/// By answers that are true what is said of an alternative's change is true of all functions that agree with what stood before, and of
/// all that agree with what stands now. Something is said where it is known of each class whether it is possible, and some one is.
pub fn changes_are_true()
    ensures { ChangesAreTrue }
{}
