//! How large a table may be.

/// How many alternatives a table has at most.
pub const MOST_ALTERNATIVES: usize = 200;

/// How many criteria a table has at most.
pub const MOST_CRITERIA: usize = 64;

/// How many columns all criteria together have at most: steps, and one for each linear criterion.
pub const MOST_STEPS: usize = 2000;

/// How many classes a table has at most.
pub const MOST_CLASSES: u32 = 100;

/// The numbers of a performance are of absolute value below this one, and so are the common denominator of a linear criterion
/// and the distances of its levels, times that.
pub const AMOUNT_LIMIT: u64 = 1_000_000_000_000_000_000;
