//! The rows of a time: of each statement, in how many alternatives' classes something changes.

ghost use Rattle.std.specs.Prelude.{◌≡◌, ◌++◌, option_map, IfOk, OnOk};
ghost use Rattle.std.specs.List.{find};
ghost use Rattle.ror_show_text_whatif.specs.Times as spec;

use crate::rows::Row;
use crate::told::{Counts, Remark, Told, remark_for, told_by};
use crate::ways::{Way, outcome_in, said_in};
use ror_show_find_whatif::{Agreement, Case, ClassEffect, ClassShift, Effect, Outcome, WhatIf};
use std::alloc::{AllocError, Global};

/// Those of a time with these lines, in the order of the statements.
pub(crate) fn time_rows(alloc: Global, way: Way, lines: &[WhatIf]) -> Result<Vec<Row>, AllocError>
    ensures { IfOk result (λ rows. rows.items ≡ spec.time_rows way lines.now) }
{
    let mut rows = Vec::new(alloc);
    for k in 0..cases_in(lines) {
        push_row(&mut rows, way, lines, k)?;
    }
    Ok(rows)
}

/// How many statements stood: at one line as at each.
pub(crate) fn cases_in(lines: &[WhatIf]) -> usize
    ensures { result ≡ spec.cases_in lines.now }
{
    match lines.first() {
        Some(line) => line.cases.len(),
        None => 0,
    }
}

/// The statement at a place.
pub(crate) fn case_at(lines: &[WhatIf], k: usize) -> Option<&Case>
    ensures { option_map (λ x. x.now) result ≡ spec.case_at lines.now k }
{
    match lines.first() {
        Some(line) => line.cases.as_slice().get(k),
        None => None,
    }
}

/// Adds the row of the statement at a place.
fn push_row(rows: &mut Vec<Row>, way: Way, lines: &[WhatIf], k: usize) -> Result<(), AllocError>
    ensures { OnOk result (rows.new.items ≡ rows.old.items ++ spec.rows_at way lines.now k) }
{
    if let Some(case) = case_at(lines, k) {
        rows.push(row_of(way, lines, k, case))?;
    }
    Ok(())
}

fn row_of(way: Way, lines: &[WhatIf], k: usize, case: &Case) -> Row
    ensures { result ≡ spec.row_of way lines.now k case.now }
{
    Row {
        number: case.stated.number,
        said: said_in(way, case),
        told: told_over(way, lines, k, outcome_in(way, case)),
    }
}

fn told_over(way: Way, lines: &[WhatIf], k: usize, outcome: Option<&Outcome>) -> Told
    ensures { result ≡ spec.told_over way lines.now k (option_map (λ x. x.now) outcome.entry) }
{
    match outcome {
        Some(_) => told_by(remark_over(way, lines, k), counts_over(way, lines, k)),
        None => Told::Remark(Remark::NoContrary),
    }
}

fn remark_over(way: Way, lines: &[WhatIf], k: usize) -> Option<Remark>
    ensures { result ≡ spec.remark_over way lines.now k }
{
    remark_for(way, agreement_over(lines), later_over(way, lines, k))
}

/// How many alternatives have classes in each list.
fn counts_over(way: Way, lines: &[WhatIf], k: usize) -> Counts
    ensures { result ≡ spec.counts_over way lines.now k }
{
    Counts {
        first: count_of(ClassShift::Opened, way, lines, k),
        second: count_of(ClassShift::Closed, way, lines, k),
        third: count_of(ClassShift::Loosened, way, lines, k),
        fourth: count_of(ClassShift::Bound, way, lines, k),
        unknown: count_of(ClassShift::Unknown, way, lines, k),
    }
}

fn count_of(shift: ClassShift, way: Way, lines: &[WhatIf], k: usize) -> usize
    ensures { result ≡ spec.count_of shift way lines.now k }
{
    lines
        .iter()
        .filter(|line| lists_some(shift, way, line, k))
        .count()
}

fn lists_some(shift: ClassShift, way: Way, line: &WhatIf, k: usize) -> bool
    ensures { result ≡ spec.lists_some shift way k line.now }
{
    !listed_at(shift, way, line, k).is_empty()
}

/// The classes that a line has in a list, where the statement at a place is changed.
pub(crate) fn listed_at(shift: ClassShift, way: Way, line: &WhatIf, k: usize) -> &[u32]
    ensures { result.now ≡ spec.listed_at shift way k line.now }
{
    match outcome_at(way, line, k) {
        Some(outcome) => listed_in(shift, &outcome.effect),
        None => &[],
    }
}

fn outcome_at(way: Way, line: &WhatIf, k: usize) -> Option<&Outcome>
    ensures { option_map (λ x. x.now) result ≡ spec.outcome_at way k line.now }
{
    match line.cases.as_slice().get(k) {
        Some(case) => outcome_in(way, case),
        None => None,
    }
}

fn listed_in(shift: ClassShift, effect: &Effect) -> &[u32]
    ensures { result.now ≡ spec.listed_in shift effect.now }
{
    match effect {
        Effect::OfClasses(classes) => listed_among(shift, classes),
        Effect::OfPairs(_) => &[],
    }
}

fn listed_among(shift: ClassShift, classes: &ClassEffect) -> &[u32]
    ensures { result.now ≡ spec.listed_among shift classes.now }
{
    match shift {
        ClassShift::Opened => classes.opened.as_slice(),
        ClassShift::Closed => classes.closed.as_slice(),
        ClassShift::Loosened => classes.loosened.as_slice(),
        ClassShift::Bound => classes.bound.as_slice(),
        ClassShift::Unknown => classes.unknown.as_slice(),
    }
}

/// Whether some function agrees with what stands, by the first line that concludes it.
pub(crate) fn agreement_over(lines: &[WhatIf]) -> Agreement
    ensures { result ≡ spec.agreement_over lines.now }
{
    match first_known(lines) {
        Some(line) => line.agreement,
        None => Agreement::Unknown,
    }
}

fn first_known(lines: &[WhatIf]) -> Option<&WhatIf>
    ensures { option_map (λ x. x.now) result ≡ find spec.is_known_at lines.now }
{
    lines.iter().find(|line| is_known(line.agreement))
}

fn is_known(agreement: Agreement) -> bool
    ensures { result ≡ spec.is_known agreement }
{
    !matches!(agreement, Agreement::Unknown)
}

/// Whether some does where the statement at a place is changed.
fn later_over(way: Way, lines: &[WhatIf], k: usize) -> Agreement
    ensures { result ≡ spec.later_over way lines.now k }
{
    match first_known_later(way, lines, k) {
        Some(line) => later_at(way, line, k),
        None => Agreement::Unknown,
    }
}

fn first_known_later(way: Way, lines: &[WhatIf], k: usize) -> Option<&WhatIf>
    ensures { option_map (λ x. x.now) result ≡ find (spec.is_known_later way k) lines.now }
{
    lines.iter().find(|line| is_known(later_at(way, line, k)))
}

fn later_at(way: Way, line: &WhatIf, k: usize) -> Agreement
    ensures { result ≡ spec.later_at way k line.now }
{
    match outcome_at(way, line, k) {
        Some(outcome) => outcome.agreement,
        None => Agreement::Unknown,
    }
}
