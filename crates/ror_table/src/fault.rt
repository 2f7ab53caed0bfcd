//! Why there is no table.

ghost use Rattle.std.specs.Prelude.{◌≡◌};

use std::alloc::{AllocError, AllocFailed};
use thiserror::Error;

/// What there is too much of.
#[derive(Clone, Copy, Debug, PartialEq, Eq)]
pub enum What {
    /// More than 200 alternatives.
    Alternatives,
    /// More than 64 criteria.
    Criteria,
    /// More than 2,000 columns of all criteria together: a step each, and one for each linear criterion.
    Steps,
    /// More than 100 classes.
    Classes,
    /// Elements more than 64 deep.
    Levels,
    /// More than 200 statements that come with a table.
    Statements,
    /// More than 2,000 rows of the statements that come with a table.
    Rows,
}

/// What of XMCDA is not supported.
#[derive(Clone, Copy, Debug, PartialEq, Eq)]
pub enum Kind {
    /// A document type declaration.
    Doctype,
    /// Another encoding than UTF-8.
    Encoding,
    /// An entity other than the five of XML.
    Entity,
    /// A qualitative scale.
    Qualitative,
    /// A direction other than `max` and `min`.
    Direction,
    /// A value that is no number.
    Value,
    /// A set in the place of an alternative or of a category.
    Member,
    /// An id that is missing, or that no line of a session could name.
    Id,
    /// A category without a rank.
    Rank,
}

/// The kinds of fault of a table's text.
#[derive(Clone, Copy, Debug, PartialEq, Eq)]
pub enum TableKind {
    /// The first line that is not passed over is not `ror-table 1`, `2` or `3`, or the root is not `XMCDA`.
    Form,
    /// The bytes are no UTF-8.
    NotUtf8,
    /// A line of no known form, with a bad id, or out of order; bad markup.
    BadLine,
    /// An id that an earlier criterion, alternative or category has.
    RepeatedId,
    /// An id that is missing, or that nothing has.
    UnknownId,
    /// An alternative without a performance on some criterion.
    MissingPerformance,
    /// A second performance of an alternative on a criterion.
    RepeatedPerformance,
    /// A performance, a count or a rank that is none.
    BadNumber,
    /// Past a limit.
    TooMany(What),
    /// No criterion or no alternative.
    Empty,
    /// More than 16,777,216 bytes.
    TooLong,
    /// The bytes end inside an element, or before the root.
    Unclosed,
    /// An end tag with another name than the innermost open element.
    Mismatched,
    /// What of XMCDA is not supported.
    Unsupported(Kind),
    /// A linear criterion whose common denominator, or whose best level's distance from the worst one times that, is 10^18
    /// or more.
    WideScale,
}

/// A fault and its line, from 1; a fault of the whole file has line 0.
#[derive(Clone, Copy, Debug, PartialEq, Eq)]
pub struct TableFault {
    pub kind: TableKind,
    pub line: u32,
}

/// Why no table was read.
#[derive(Debug, Drop, Error)]
pub enum TableError {
    #[error("bad table")]
    Bad(TableFault),
    #[error("out of memory")]
    Memory,
}

impl From<AllocError> for TableError {
    ghost use Rattle.ror_table.specs.declared.fault.TableError.TheVariants.{Memory};

    ghost from_gives = { λ _ e. e ≡ Memory };

    fn from(_e: AllocError) -> TableError {
        TableError::Memory
    }
}

impl<T: Drop> From<AllocFailed<T>> for TableError {
    ghost use Rattle.ror_table.specs.declared.fault.TableError.TheVariants.{Memory};

    ghost from_gives = { λ _ e. e ≡ Memory };

    fn from(_e: AllocFailed<T>) -> TableError {
        TableError::Memory
    }
}

/// Why a draft refused, in the order in which a call tests them, but that `Empty` is tested before too many steps; want of
/// memory may come at any time.
#[derive(Debug, Drop, Error)]
pub enum DraftFault {
    #[error("not an id")]
    BadId,
    #[error("the id is there already")]
    RepeatedId,
    #[error("too many")]
    TooMany(What),
    #[error("no criterion or no alternative")]
    Empty,
    #[error("out of memory")]
    Memory,
    #[error("a linear criterion's scale is too wide")]
    WideScale,
}

impl From<AllocError> for DraftFault {
    ghost use Rattle.ror_table.specs.declared.fault.DraftFault.TheVariants.{Memory};

    ghost from_gives = { λ _ e. e ≡ Memory };

    fn from(_e: AllocError) -> DraftFault {
        DraftFault::Memory
    }
}

impl<T: Drop> From<AllocFailed<T>> for DraftFault {
    ghost use Rattle.ror_table.specs.declared.fault.DraftFault.TheVariants.{Memory};

    ghost from_gives = { λ _ e. e ≡ Memory };

    fn from(_e: AllocFailed<T>) -> DraftFault {
        DraftFault::Memory
    }
}
