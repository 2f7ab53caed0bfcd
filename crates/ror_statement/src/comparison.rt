//! What is compared, and how.

/// Two alternatives, by their places in the table from 0.
#[derive(Clone, Copy, Debug, PartialEq, Eq)]
pub struct Pair {
    pub first: usize,
    pub second: usize,
}

/// Over which criteria values are taken.
#[derive(Clone, Copy, Debug, PartialEq, Eq)]
pub enum Scope {
    /// Over all: comprehensive values.
    Whole,
    /// Over the criterion at this place, from 0: its marginal values.
    One(usize),
}

/// Two quantities that a value function gives, the one to be set against the other.
#[derive(Clone, Copy, Debug, PartialEq, Eq)]
pub enum Form {
    /// The values of two alternatives.
    Value(usize, usize),
    /// The intensities of two preferences, over all criteria or on one: by how much the first alternative of each pair is
    /// worth more than its second (GRIP).
    Strength(Pair, Pair, Scope),
}

/// How the first of two quantities stands to the second.
#[derive(Clone, Copy, Debug, PartialEq, Eq)]
pub enum Relation {
    /// It is greater.
    Above,
    /// It is at least as great.
    AtLeast,
    /// They are equal.
    Equal,
}

/// Two quantities, and how the first stands to the second.
#[derive(Clone, Copy, Debug, PartialEq, Eq)]
pub struct Comparison {
    pub relation: Relation,
    pub form: Form,
}
