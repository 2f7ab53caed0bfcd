//! Why a certificate is not accepted.

use thiserror::Error;

/// Why a certificate is not accepted: the first test that fails. Places count from 0; rows are numbered weak first,
/// then strict, and multipliers likewise.
#[derive(Clone, Copy, Debug, PartialEq, Eq, Error)]
pub enum Reject {
    /// Not one number for each column, or not one multiplier for each row.
    #[error("not one number for each")]
    Length,
    /// The first number below 0.
    #[error("the number at {0} is below 0")]
    Negative(usize),
    /// The steps sum to 0, or past 2^127 - 1.
    #[error("the total is 0 or too large")]
    Total,
    /// The absolute terms of the row sum past 2^127 - 1.
    #[error("the terms of row {0} are too large")]
    RowWide(usize),
    /// A weak row is below 0, or a strict row is not above 0.
    #[error("row {0} does not hold")]
    Row(usize),
    /// No multiplier of a strict row is positive.
    #[error("no multiplier of a strict row is positive")]
    NoStrict,
    /// The absolute terms of the column sum past 2^127 - 1.
    #[error("the terms of column {0} are too large")]
    ColumnWide(usize),
    /// The column's weighted sum is above 0.
    #[error("the sum of column {0} is above 0")]
    Column(usize),
}
