//! What statements sum up to, and what is used besides, in words.

ghost use Rattle.std.specs.Prelude.{◌≡◌, ◌<◌, ◌≤◌, ◌++◌, option_copied, length, IfOk, OnOk};
ghost use Rattle.std.specs.List.{AllByRecursion};
ghost use Rattle.ror_table.specs.Table.{criterion_id_of, steps};
ghost use Rattle.ror_show_kit.specs.Words.{word};
ghost use Rattle.ror_show_find_proofs.specs.Findings.{IsSumIn};
ghost use Rattle.ror_show_find_proofs.specs.Spans.{IsSpanIn};
ghost use Rattle.ror_show_text_reasons.specs.SumText as spec;

use ror_show_find_proofs::{Span, Sum};
use ror_show_kit::write_amount;
use ror_table::Table;
use std::alloc::{AllocError, Global};

/// The words of what is used in the sum.
pub(crate) fn sum_words(alloc: Global, table: &Table, sum: &Sum) -> Result<Vec<u8>, AllocError>
    requires { IsSumIn table.now sum.now }
    ensures { IfOk result (λ words. words.items ≡ spec.sum_words table.now sum.now) }
{
    let mut words = Vec::new(alloc);
    words.extend_from_slice(said(sum.clashes))?;
    let linear = sum.linear.as_slice();
    write_besides(
        &mut words,
        table,
        sum.positive,
        linear,
        sum.spans.as_slice(),
    )?;
    Ok(words)
}

fn said(clashes: bool) -> &'static [u8]
    ensures { result.now ≡ spec.said clashes }
{
    if clashes {
        b"summed up they say that something is worth more than itself"
    } else {
        b"summed up they say so"
    }
}

/// What is used besides the statements, or that no other statement is.
fn write_besides(
    text: &mut Vec<u8>,
    table: &Table,
    positive: bool,
    linear: &[usize],
    spans: &[Span],
) -> Result<(), AllocError>
    requires linear { AllByRecursion (λ i. i < length table.now.criteria) linear.now }
    requires spans { AllByRecursion (IsSpanIn table.now) spans.now }
    ensures { OnOk result (text.new.items ≡ text.old.items ++ spec.besides table.now positive linear.now spans.now) }
{
    text.extend_from_slice(positive_text(positive))?;
    write_linear(text, table, positive, linear)?;
    write_steps(text, table, positive || !linear.is_empty(), spans)?;
    text.extend_from_slice(alone_text(positive, !spans.is_empty()))
}

fn joint(before: bool) -> &'static [u8]
    ensures { result.now ≡ spec.joint before }
{
    if before { b" and " } else { b", as " }
}

fn positive_text(positive: bool) -> &'static [u8]
    ensures { result.now ≡ spec.positive_text positive }
{
    if positive {
        b", as some criterion counts"
    } else {
        b""
    }
}

fn alone_text(positive: bool, steps: bool) -> &'static [u8]
    ensures { result.now ≡ spec.alone_text positive steps }
{
    if positive || steps {
        b""
    } else {
        b", and no other statement is used"
    }
}

/// That these criteria are linear, where there are any.
fn write_linear(
    text: &mut Vec<u8>,
    table: &Table,
    before: bool,
    linear: &[usize],
) -> Result<(), AllocError>
    requires { AllByRecursion (λ i. i < length table.now.criteria) linear.now }
    ensures { OnOk result (text.new.items ≡ text.old.items ++ spec.linear_text table.now before linear.now) }
{
    if linear.is_empty() {
        return Ok(());
    }
    write_some_linear(text, table, before, linear)
}

fn write_some_linear(
    text: &mut Vec<u8>,
    table: &Table,
    before: bool,
    linear: &[usize],
) -> Result<(), AllocError>
    requires { AllByRecursion (λ i. i < length table.now.criteria) linear.now }
    ensures { OnOk result (text.new.items ≡ text.old.items ++ spec.some_linear table.now before linear.now) }
{
    text.extend_from_slice(joint(before))?;
    write_names(text, table, linear)?;
    text.extend_from_slice(linear_end(linear))
}

fn linear_end(linear: &[usize]) -> &'static [u8]
    ensures { result.now ≡ spec.linear_end linear.now }
{
    if linear.len() == 1 {
        b" is linear"
    } else {
        b" are linear"
    }
}

fn write_names(text: &mut Vec<u8>, table: &Table, linear: &[usize]) -> Result<(), AllocError>
    requires { AllByRecursion (λ i. i < length table.now.criteria) linear.now }
    ensures { OnOk result (text.new.items ≡ text.old.items ++ spec.linear_names table.now linear.now) }
{
    for k in 0..linear.len() {
        write_name_in(text, table, linear, k)?;
    }
    Ok(())
}

fn write_name_in(
    text: &mut Vec<u8>,
    table: &Table,
    linear: &[usize],
    k: usize,
) -> Result<(), AllocError>
    requires within { k < length linear.now }
    requires linear { AllByRecursion (λ i. i < length table.now.criteria) linear.now }
    ensures { OnOk result (text.new.items ≡ text.old.items ++ spec.linear_in table.now linear.now k) }
{
    let i = linear[k];
    write_name(text, table, k, i)
}

fn write_name(text: &mut Vec<u8>, table: &Table, k: usize, i: usize) -> Result<(), AllocError>
    requires { i < length table.now.criteria }
    ensures { OnOk result (text.new.items ≡ text.old.items ++ spec.linear_name table.now k i) }
{
    text.extend_from_slice(name_after(k))?;
    text.extend_from_slice(table.criterion_id(i).as_bytes())
}

fn name_after(k: usize) -> &'static [u8]
    ensures { result.now ≡ spec.name_after k }
{
    if k == 0 { b"" } else { b" and " }
}

/// At which steps better is never worth less, where there are any.
fn write_steps(
    text: &mut Vec<u8>,
    table: &Table,
    before: bool,
    spans: &[Span],
) -> Result<(), AllocError>
    requires { AllByRecursion (IsSpanIn table.now) spans.now }
    ensures { OnOk result (text.new.items ≡ text.old.items ++ spec.steps_text table.now before spans.now) }
{
    if spans.is_empty() {
        return Ok(());
    }
    write_some_steps(text, table, before, spans)
}

fn write_some_steps(
    text: &mut Vec<u8>,
    table: &Table,
    before: bool,
    spans: &[Span],
) -> Result<(), AllocError>
    requires { AllByRecursion (IsSpanIn table.now) spans.now }
    ensures { OnOk result (text.new.items ≡ text.old.items ++ spec.some_steps table.now before spans.now) }
{
    text.extend_from_slice(some_step(before))?;
    write_spans(text, table, spans)
}

fn some_step(before: bool) -> &'static [u8]
    ensures { result.now ≡ spec.some_step before }
{
    if before {
        b" and better is never worth less:"
    } else {
        b", as better is never worth less:"
    }
}

fn write_spans(text: &mut Vec<u8>, table: &Table, spans: &[Span]) -> Result<(), AllocError>
    requires { AllByRecursion (IsSpanIn table.now) spans.now }
    ensures { OnOk result (text.new.items ≡ text.old.items ++ spec.spans_text table.now spans.now) }
{
    for k in 0..spans.len() {
        write_span_in(text, table, spans, k)?;
    }
    Ok(())
}

fn write_span_in(
    text: &mut Vec<u8>,
    table: &Table,
    spans: &[Span],
    k: usize,
) -> Result<(), AllocError>
    requires within { k < length spans.now }
    requires spans { AllByRecursion (IsSpanIn table.now) spans.now }
    ensures { OnOk result (text.new.items ≡ text.old.items ++ spec.span_in table.now spans.now k) }
{
    let span = spans[k];
    write_span(text, table, before(spans, k), span)
}

/// The span before the one at a place.
fn before(spans: &[Span], k: usize) -> Option<Span>
    ensures { result ≡ spec.before spans.now k }
{
    if k == 0 {
        return None;
    }
    spans.get(k - 1).copied()
}

fn write_span(
    text: &mut Vec<u8>,
    table: &Table,
    before: Option<Span>,
    span: Span,
) -> Result<(), AllocError>
    requires { IsSpanIn table.now span }
    ensures { OnOk result (text.new.items ≡ text.old.items ++ spec.span_text table.now before span) }
{
    write_criterion(text, table, span.criterion, before)?;
    write_extent(text, table, span)
}

/// Adds the criterion's id, unless the span before is of the same criterion.
fn write_criterion(
    text: &mut Vec<u8>,
    table: &Table,
    i: usize,
    before: Option<Span>,
) -> Result<(), AllocError>
    requires { i < length table.now.criteria }
    ensures { OnOk result (text.new.items ≡ text.old.items ++ spec.criterion_text table.now i before) }
{
    match before {
        None => write_id(text, table, i),
        Some(span) if span.criterion == i => text.extend_from_slice(b" and"),
        Some(_) => {
            text.push(b',')?;
            write_id(text, table, i)
        }
    }
}

fn write_id(text: &mut Vec<u8>, table: &Table, i: usize) -> Result<(), AllocError>
    requires { i < length table.now.criteria }
    ensures { OnOk result (text.new.items ≡ text.old.items ++ word (criterion_id_of table.now i)) }
{
    text.push(b' ')?;
    text.extend_from_slice(table.criterion_id(i).as_bytes())
}

fn write_extent(text: &mut Vec<u8>, table: &Table, span: Span) -> Result<(), AllocError>
    requires { IsSpanIn table.now span }
    ensures { OnOk result (text.new.items ≡ text.old.items ++ spec.extent_text table.now span) }
{
    if table.linear(span.criterion) {
        text.extend_from_slice(b" (linear)")
    } else {
        write_levels(text, table, span)
    }
}

fn write_levels(text: &mut Vec<u8>, table: &Table, span: Span) -> Result<(), AllocError>
    requires { IsSpanIn table.now span }
    ensures { OnOk result (text.new.items ≡ text.old.items ++ spec.levels_text table.now span) }
{
    text.extend_from_slice(b" ")?;
    write_amount(text, table.level(span.criterion, span.worse))?;
    text.extend_from_slice(b" to ")?;
    write_amount(text, table.level(span.criterion, span.better))
}
