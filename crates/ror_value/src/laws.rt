//! Each function here states one law, for all tables and lists, and does nothing.

ghost use Rattle.ror_value.specs.Laws.{ClassByEachAssignment, ClassIntervals, LinearBetweenEnds, MarginalIsDot, MeetingIsOfEach, NormalisedAndMonotone, OneConclusion, RelationsOfConsistent};

/// A value function of a table has marginal values that start at 0 and never fall from one level to the next better one; those
/// at the best levels sum to its ideal value, which is above 0, so the value of each alternative lies between 0 and that.
pub fn normalised_and_monotone()
    ensures { NormalisedAndMonotone }
{}

/// On a linear criterion the marginal values of the levels are in the ratios of their distances from the worst level.
pub fn linear_between_ends()
    ensures { LinearBetweenEnds }
{}

/// A marginal value is the dot product of the function's numbers on the criterion with the criterion's columns at the rank: 1 at
/// each step up to the rank and 0 at the others, or the weight of the level.
pub fn marginal_is_dot()
    ensures { MarginalIsDot }
{}

/// A question has at most one conclusion over a list of statements.
pub fn one_conclusion()
    ensures { OneConclusion }
{}

/// A function meets a list exactly where it has the comparison of each statement and ranks the alternatives of each two
/// class statements as their classes do.
pub fn meeting_is_of_each()
    ensures { MeetingIsOfEach }
{}

/// Over statements with which some function is compatible, the necessary preference relation is reflexive and transitive
/// and contained in the possible one, the possible one is strongly complete and negatively transitive, and of two
/// alternatives the one is necessarily preferred to the other where the other isn't possibly preferred to it (UTA-GMS).
pub fn relations()
    ensures { RelationsOfConsistent }
{}

/// A function leaves an alternative the classes of the table that no assignment is against: none is that says of an
/// alternative of at most this value that it is in better classes alone, or of one of at least this value that it is in
/// worse classes alone. Each half bounds one end of the interval (UTADIS-GMS).
pub fn class_by_each_assignment()
    ensures { ClassByEachAssignment }
{}

/// The interval of classes that a function leaves an alternative lies within the classes of the table. Over valid class
/// statements it is never empty where the function meets them. That of an assigned alternative lies within its assignment,
/// and an alternative that is worth at least as much as another has neither end lower than the other's.
pub fn class_intervals()
    ensures { ClassIntervals }
{}
