//! Why a spreadsheet is no table.

ghost use Rattle.std.specs.Prelude.{◌≡◌};
ghost use Rattle.ror_show_cells.specs.Faults as spec;

use ror_table::{TableFault, TableKind, What};
use std::alloc::{AllocError, AllocFailed};
use thiserror::Error;

/// What is at fault.
#[derive(Clone, Copy, Debug, PartialEq, Eq)]
pub enum SheetKind {
    /// More than 16,777,216 bytes.
    TooLong,
    /// The bytes begin as those of UTF-16 do.
    Utf16,
    /// The bytes are no UTF-8.
    NotUtf8,
    /// A byte 0, which no text has.
    Nul,
    /// More than 1,000 rows.
    TooManyRows,
    /// The first row has fewer than two cells.
    OneColumn,
    /// A row with fewer or more cells than the first one: the first cell that is missing, or that is too much.
    Ragged,
    /// No name where one has to stand.
    NoName,
    /// A name whose id an earlier criterion or alternative has.
    RepeatedId,
    /// A cell of the row of directions that says none.
    BadDirection,
    /// A criterion without a direction.
    NoDirection,
    /// A criterion whose direction is said twice.
    TwoDirections,
    /// An option names no criterion of the first row.
    UnknownName(OptionName),
    /// Nothing where a number has to stand.
    NoValue,
    /// A number with marks between thousands, or that may have them.
    Thousands,
    /// A number with another decimal mark than the sheet has.
    OtherMark,
    /// A number with an exponent.
    Exponent,
    /// A number of more than 18 digits.
    TooManyDigits,
    /// A word where a number has to stand.
    NoNumber,
    /// Past a limit of tables.
    TooMany(What),
    /// No alternative.
    Empty,
    /// A linear criterion's scale is too wide.
    WideScale,
}

/// The options that name criteria.
#[derive(Clone, Copy, Debug, PartialEq, Eq)]
pub enum OptionName {
    Min,
    Max,
    Linear,
}

/// A fault and its place: row and column from 1. Of a fault of the whole sheet both are 0; of bytes that are no text the row is that of the
/// line, and of an option the column is the place of the name in it.
#[derive(Clone, Copy, Debug, PartialEq, Eq)]
pub struct SheetFault {
    pub kind: SheetKind,
    pub row: usize,
    pub column: usize,
}

/// Why no table was read.
#[derive(Debug, Drop, Error)]
pub enum SheetError {
    #[error("bad spreadsheet")]
    Bad(SheetFault),
    #[error("out of memory")]
    Memory,
}

impl From<AllocError> for SheetError {
    ghost use Rattle.ror_show_cells.specs.declared.fault.SheetError.TheVariants.{Memory};

    ghost from_gives = { λ _ e. e ≡ Memory };

    fn from(_e: AllocError) -> SheetError {
        SheetError::Memory
    }
}

impl<T: Drop> From<AllocFailed<T>> for SheetError {
    ghost use Rattle.ror_show_cells.specs.declared.fault.SheetError.TheVariants.{Memory};

    ghost from_gives = { λ _ e. e ≡ Memory };

    fn from(_e: AllocFailed<T>) -> SheetError {
        SheetError::Memory
    }
}

/// The error of a fault.
pub fn bad(kind: SheetKind, row: usize, column: usize) -> SheetError
    ensures { result ≡ SheetError.Bad (spec.fault_at kind row column) }
{
    SheetError::Bad(SheetFault { kind, row, column })
}

/// What the fault is among those of tables, with the row in the place of a line.
pub fn table_fault(fault: SheetFault) -> TableFault
    ensures { result ≡ spec.table_fault fault }
{
    TableFault {
        kind: table_kind(fault.kind),
        line: u32::try_from(fault.row).unwrap_or(0),
    }
}

fn table_kind(kind: SheetKind) -> TableKind
    ensures { result ≡ spec.table_kind kind }
{
    match kind {
        SheetKind::TooLong => TableKind::TooLong,
        SheetKind::Utf16 | SheetKind::NotUtf8 | SheetKind::Nul => TableKind::NotUtf8,
        SheetKind::TooManyRows => TableKind::TooMany(What::Alternatives),
        SheetKind::OneColumn => TableKind::Form,
        SheetKind::Ragged
        | SheetKind::NoName
        | SheetKind::BadDirection
        | SheetKind::NoDirection
        | SheetKind::TwoDirections
        | SheetKind::UnknownName(_) => TableKind::BadLine,
        SheetKind::RepeatedId => TableKind::RepeatedId,
        SheetKind::NoValue => TableKind::MissingPerformance,
        SheetKind::Thousands
        | SheetKind::OtherMark
        | SheetKind::Exponent
        | SheetKind::TooManyDigits
        | SheetKind::NoNumber => TableKind::BadNumber,
        SheetKind::TooMany(what) => TableKind::TooMany(what),
        SheetKind::Empty => TableKind::Empty,
        SheetKind::WideScale => TableKind::WideScale,
    }
}
