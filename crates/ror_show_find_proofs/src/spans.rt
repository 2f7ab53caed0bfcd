//! Steps of criteria, joined where they neighbour each other.

ghost use Rattle.std.specs.Prelude.{◌≡◌, ◌<◌, ◌++◌, length, IfOk, OnOk};
ghost use Rattle.ror_show_find_proofs.specs.Spans as spec;

use ror_table::Table;
use std::alloc::{AllocError, Global};

/// Neighbouring steps of a criterion, from the rank of the worse level of the first to that of the better level of the last.
#[derive(Clone, Copy, Debug)]
pub struct Span {
    pub criterion: usize,
    pub worse: usize,
    pub better: usize,
}

/// Those of the columns that are used, from the worst steps of the first criterion on.
pub fn spans_of(alloc: Global, table: &Table, used: &[bool]) -> Result<Vec<Span>, AllocError>
    ensures { IfOk result (λ spans. spans.items ≡ spec.spans_of table.now used.now) }
{
    let mut spans = Vec::new(alloc);
    for i in 0..table.criteria() {
        push_spans(&mut spans, table, used, i)?;
    }
    Ok(spans)
}

/// Adds those of a criterion.
fn push_spans(
    spans: &mut Vec<Span>,
    table: &Table,
    used: &[bool],
    i: usize,
) -> Result<(), AllocError>
    requires { i < length table.now.criteria }
    ensures { OnOk result (spans.new.items ≡ spans.old.items ++ spec.spans_on table.now used.now i) }
{
    for k in 0..table.width(i) {
        push_span(spans, table, used, i, k)?;
    }
    Ok(())
}

/// Adds the one that begins at a step, where one does.
#[tactic(auto, unfolding(crate::specs::Spans::span_at))]
fn push_span(
    spans: &mut Vec<Span>,
    table: &Table,
    used: &[bool],
    i: usize,
    k: usize,
) -> Result<(), AllocError>
    requires { i < length table.now.criteria }
    ensures { OnOk result (spans.new.items ≡ spans.old.items ++ spec.span_at table.now used.now i k) }
{
    if begins(table, used, i, k) {
        spans.push(Span {
            criterion: i,
            worse: k,
            better: end_of(table, used, i, k),
        })?;
    }
    Ok(())
}

fn begins(table: &Table, used: &[bool], i: usize, k: usize) -> bool
    requires { i < length table.now.criteria }
    ensures { result ≡ spec.begins table.now used.now i k }
{
    is_step_used(table, used, i, k) && (k == 0 || !is_step_used(table, used, i, k - 1))
}

/// The first step from one on that isn't used, or the one behind the last.
fn end_of(table: &Table, used: &[bool], i: usize, k: usize) -> usize
    requires { i < length table.now.criteria }
    ensures { result ≡ spec.end_of table.now used.now i k }
{
    let mut end = k;
    'steps: while end < table.width(i) {
        if !is_step_used(table, used, i, end) {
            return end;
        }
        end += 1;
    }
    end
}

fn is_step_used(table: &Table, used: &[bool], i: usize, k: usize) -> bool
    requires { i < length table.now.criteria }
    ensures { result ≡ spec.is_step_used table.now used.now i k }
{
    if k >= table.width(i) {
        return false;
    }
    match used.get(table.column(i, k + 1)) {
        Some(is_used) => *is_used,
        None => false,
    }
}
