//! Rows as runs of equal entries.

use ror_system::Row;
use std::alloc::{AllocError, Global};

/// A row with an entry past this is left to the path.
const WIDEST: i64 = 1 << 40;

/// Equal entries other than 0, from `start` up to and without `end`.
#[derive(Clone, Copy, Debug, PartialEq, Eq)]
pub(crate) struct Run {
    pub start: usize,
    pub end: usize,
    pub times: i64,
}

/// A row of a system, and the runs that it consists of.
#[derive(Debug, Drop)]
pub(crate) struct RunRow {
    pub strict: bool,
    pub entries: Vec<i64>,
    pub runs: Vec<Run>,
    /// The greatest absolute value of an entry.
    pub widest: i64,
}

impl RunRow {
    /// The runs of a row, unless an entry is too wide.
    ///
    /// # Errors
    ///
    /// Only want of memory.
    pub(crate) fn new(
        alloc: Global,
        row: &Row,
        strict: bool,
    ) -> Result<Option<RunRow>, AllocError> {
        let mut entries = Vec::with_capacity(alloc, row.len())?;
        let mut widest = 0;
        for j in 0..row.len() {
            let Some(entry) = narrow(row.entry(j)) else {
                return Ok(None);
            };
            widest = widest.max(entry.wrapping_abs());
            entries.push(entry)?;
        }
        let runs = runs_of(alloc, entries.as_slice())?;
        Ok(Some(RunRow {
            strict,
            entries,
            runs,
            widest,
        }))
    }

    /// What the row comes to at the steps whose sums before each place are given, unless a number is too wide.
    pub(crate) fn at(&self, sums: &[i64]) -> Option<i128> {
        let mut value: i128 = 0;
        for run in self.runs.iter() {
            let steps = i128::from(*sums.get(run.end)?) - i128::from(*sums.get(run.start)?);
            value = value.checked_add(i128::from(run.times).checked_mul(steps)?)?;
        }
        Some(value)
    }

    /// Whether the row holds at the steps whose sums before each place are given.
    pub(crate) fn holds_at(&self, sums: &[i64]) -> bool {
        match self.at(sums) {
            Some(value) if self.strict => value > 0,
            Some(value) => value >= 0,
            None => false,
        }
    }
}

/// The entry as a word, where it isn't too wide.
fn narrow(entry: i128) -> Option<i64> {
    match i64::try_from(entry) {
        Ok(word) if -WIDEST <= word && word <= WIDEST => Some(word),
        _ => None,
    }
}

/// The runs of these entries, from the first one on.
fn runs_of(alloc: Global, entries: &[i64]) -> Result<Vec<Run>, AllocError> {
    let mut runs = Vec::new(alloc);
    let mut start = 0;
    let mut times = 0;
    for (place, entry) in entries.iter().enumerate() {
        if *entry != times {
            if times != 0 {
                runs.push(Run {
                    start,
                    end: place,
                    times,
                })?;
            }
            start = place;
            times = *entry;
        }
    }
    if times != 0 {
        runs.push(Run {
            start,
            end: entries.len(),
            times,
        })?;
    }
    Ok(runs)
}
