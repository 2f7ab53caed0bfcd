//! The number that a value's first element writes.

ghost use Rattle.std.specs.Prelude.{◌≡◌, ◌<◌, ◌^◌, ◌≢◌, pos, unsigned_abs, IfOk};
ghost use Rattle.std.specs.Ordering.{int_eq};
ghost use Rattle.ror_text.specs.Reading.{Gives};
ghost use Rattle.ror_table.specs.Amounts.{IsAmount, lowest};
ghost use Rattle.ror_table.specs.Plain.{table_fault};
ghost use Rattle.ror_elements.specs.Tree.{tree_of};
ghost use Rattle.ror_xmcda.specs.Numbers as spec;

use crate::fault::{fault, unsupported};
use crate::nodes::{first_named, line_of, text_of};
use ror_elements::Element;
use ror_table::{Amount, Kind, TableError, TableKind, read_real, read_whole};
use ror_text::numbers::read_performance;
use ror_text::reading::{need, refuse_if};

/// The whole number that the text of an element writes.
#[tactic(auto, unfolding(crate::specs::Numbers::number_at))]
fn number_at(element: &Element) -> Result<i64, TableError>
    ensures exact { Gives (λ z. z) table_fault result (spec.number_at (tree_of element.now)) }
    ensures small { IfOk result (λ z. unsigned_abs z < 10 ^ 18) }
{
    need(
        read_performance(text_of(element).as_bytes()),
        fault(TableKind::BadNumber, line_of(element)),
    )
}

fn is_zero(number: i64) -> bool
    ensures { result ≡ int_eq number (pos 0) }
{
    number == 0
}

/// The fraction of two numbers; where the second is negative both signs are turned.
fn fraction(numerator: i64, denominator: i64) -> Amount
    requires some { denominator ≢ pos 0 }
    requires numerator { unsigned_abs numerator < 10 ^ 18 }
    requires denominator { unsigned_abs denominator < 10 ^ 18 }
    ensures value { result ≡ lowest numerator denominator }
    ensures amount { IsAmount result }
{
    if denominator < 0 {
        Amount::new(-numerator, -denominator).unwrap()
    } else {
        Amount::new(numerator, denominator).unwrap()
    }
}

/// The fraction of a numerator and a denominator.
#[tactic(auto, unfolding(crate::specs::Numbers::rational))]
fn rational(element: &Element) -> Result<Amount, TableError>
    ensures exact { Gives (λ p. p) table_fault result (spec.rational (tree_of element.now)) }
    ensures amount { IfOk result IsAmount }
{
    let line = line_of(element);
    let above = need(
        first_named(element, "numerator"),
        fault(TableKind::BadNumber, line),
    )?;
    let numerator = number_at(above)?;
    let below = need(
        first_named(element, "denominator"),
        fault(TableKind::BadNumber, line),
    )?;
    let denominator = number_at(below)?;
    refuse_if(
        is_zero(denominator),
        fault(TableKind::BadNumber, line_of(below)),
    )?;
    Ok(fraction(numerator, denominator))
}

/// The number that an element writes, by its name.
#[tactic(auto, unfolding(crate::specs::Numbers::number_of))]
pub(crate) fn number_of(element: &Element) -> Result<Amount, TableError>
    ensures exact { Gives (λ p. p) table_fault result (spec.number_of (tree_of element.now)) }
    ensures amount { IfOk result IsAmount }
{
    match element.name() {
        "integer" => need(
            read_whole(text_of(element).as_bytes()),
            fault(TableKind::BadNumber, line_of(element)),
        ),
        "real" => need(
            read_real(text_of(element).as_bytes()),
            fault(TableKind::BadNumber, line_of(element)),
        ),
        "rational" => rational(element),
        _ => Err(unsupported(Kind::Value, line_of(element))),
    }
}
