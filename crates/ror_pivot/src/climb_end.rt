//! The optimum that is read at the end of a climbing path.

ghost use Rattle.std.specs.Prelude.{◌≡◌, ◌<◌, ◌∷◌, ◌++◌, ℤ, List, length, map, pos, unsigned_abs, ◌*ℤ◌, IfOk, MatchOption};
ghost use Rattle.std.specs.List.{AllByRecursion};
ghost use Rattle.ror_integers.specs.Vectors.{total, entry, NoneNegative};
ghost use Rattle.ror_text.specs.Reading.{Gives};
ghost use Rattle.ror_word.specs.Within.{IsWithin, GivesExact};
ghost use Rattle.ror_pivot.specs.Ends.{basic_solution, weak_multipliers_at};
ghost use Rattle.ror_pivot.specs.Optimality.{AreTops, IsNarrowOptimum};
ghost use Rattle.ror_pivot.specs.Climbing.{climbing_shape, climbed_strict, optimum_of, steps_numbers, columns_from, columns_numbers, optimum_numbers};
ghost use Rattle.ror_pivot.specs.Calls.{unless_too_wide};
ghost use Rattle.ror_pivot.specs.ClimbCalls.{stop_place, IsClimbEnd};

use crate::fault::ClimbStop;
use crate::feasible::{self, solution_values};
use crate::infeasible::{self, column_sum, entries_from};
use crate::optimum::{ClimbPlace, Optimum};
use crate::shape::Shape;
use crate::sums::{absolute_product, absolute_row_sum, sum_of};
use ror_fraction::FracRow;
use ror_system::{Multipliers, Row, Solution, System};
use ror_word::Word;
use std::alloc::Global;

/// The optimum that the rows give at the end of a system's climbing path.
///
/// # Errors
///
/// `Wide` at the first number that is too wide: the common denominators, the sums of the rows' absolute terms, the total, and
/// column by column its scale and the sum of its absolute terms. Want of memory.
pub(crate) fn climb_end<W: Word>(
    alloc: Global,
    s: &System,
    top: &Row,
    rows: &[FracRow<W>],
) -> Result<Optimum, ClimbStop>
    requires second { 1 < length s.now.strict }
    requires tops { AreTops s.now.columns top.now }
    requires end { IsClimbEnd s.now rows.now }
    ensures exact { Gives (λ x. x) stop_place result
        (unless_too_wide W.most (optimum_numbers s.now top.now rows.now)
        (optimum_of s.now rows.now)) }
    ensures narrow { IfOk result (IsNarrowOptimum W.most) }
{
    let solution = best_solution(alloc, s, top, rows)?;
    let multipliers = best_multipliers(alloc, s, top, rows)?;
    Ok(Optimum {
        solution,
        multipliers,
    })
}

/// The solution, whose total is tested too.
fn best_solution<W: Word>(
    alloc: Global,
    s: &System,
    top: &Row,
    rows: &[FracRow<W>],
) -> Result<Solution, ClimbStop>
    requires second { 1 < length s.now.strict }
    requires tops { AreTops s.now.columns top.now }
    requires end { IsClimbEnd s.now rows.now }
    ensures exact { Gives (λ x. x.steps) stop_place result
        (unless_too_wide W.most (steps_numbers s.now top.now rows.now)
        (basic_solution (climbing_shape s.now) rows.now)) }
    ensures narrow { IfOk result (λ x. AllByRecursion (IsWithin W.most) x.steps) }
{
    let values = solution_values(alloc, s, Shape::climbing(s), rows)?;
    let fault = ClimbStop::Wide(ClimbPlace::Total);
    absolute_row_sum(top, values.as_slice()).ok_or(fault)?;
    let steps = feasible::numbers_of(alloc, values.as_slice())?;
    Ok(Solution { steps })
}

/// The multipliers, with the numbers of the columns over them.
fn best_multipliers<W: Word>(
    alloc: Global,
    s: &System,
    top: &Row,
    rows: &[FracRow<W>],
) -> Result<Multipliers, ClimbStop>
    requires second { 1 < length s.now.strict }
    requires tops { AreTops s.now.columns top.now }
    requires end { IsClimbEnd s.now rows.now }
    ensures exact { Gives {Y = List ℤ × List ℤ} (λ y. (y.weak, y.strict)) stop_place result
        (unless_too_wide W.most (columns_numbers s.now top.now rows.now) (
          weak_multipliers_at (climbing_shape s.now) rows.now,
          climbed_strict s.now rows.now,
        )) }
    ensures narrow { IfOk result (λ y. AllByRecursion (IsWithin W.most) y.weak
        × AllByRecursion (IsWithin W.most) y.strict) }
{
    let shape = Shape::climbing(s);
    let objective = &rows[shape.objective_row()];
    let weak = entries_from(alloc, objective, shape.slack_column(0), shape.weak)?;
    let first = shape.slack_column(shape.weak);
    let mut strict = entries_from(alloc, objective, first, shape.strict)?;
    // The row of ones has no slack.
    strict.insert(0, W::ZERO)?;
    test_columns(s, top, weak.as_slice(), strict.as_slice())?;
    Ok(Multipliers {
        weak: infeasible::numbers_of(alloc, weak.as_slice())?,
        strict: infeasible::numbers_of(alloc, strict.as_slice())?,
    })
}

/// Tests that no column's number over these multipliers is too wide.
///
/// # Errors
///
/// `Wide` at the first that is: what the column counts times the sum of the strict multipliers, then the sum of its absolute
/// terms.
fn test_columns<W: Word>(s: &System, top: &Row, weak: &[W], strict: &[W]) -> Result<(), ClimbStop>
    requires tops { AreTops s.now.columns top.now }
    requires weak_length { length weak.now ≡ length s.now.weak }
    requires strict_length { length strict.now ≡ length s.now.strict }
    requires weak_values { AllByRecursion (λ word. IsWithin W.most (W.value word)) weak.now }
    requires strict_values { AllByRecursion (λ word. IsWithin W.most (W.value word)) strict.now }
    requires strict_not_negative { NoneNegative (map W.value strict.now) }
    ensures { Gives {Y = Unit {0}} (λ _. tt) stop_place result
        (unless_too_wide W.most
        (columns_from s.now top.now (map W.value weak.now) (map W.value strict.now) 0 s.now.columns)
        tt) }
{
    let sum = sum_of(strict);
    for j in 0..s.columns() {
        let fault = ClimbStop::Wide(ClimbPlace::Scale(j));
        scale(sum, top.entry(j)).ok_or(fault)?;
        let fault = ClimbStop::Wide(ClimbPlace::ColumnSum(j));
        column_sum(s, weak, strict, j).ok_or(fault)?;
    }
    Ok(())
}

/// The absolute value of a sum, where it is narrow, times a number, or `None` where the sum isn't, or the product passes
/// `MOST`.
fn scale<W: Word>(sum: Option<W>, number: i128) -> Option<W>
    requires { MatchOption sum (Unit {0}) (λ word. IsWithin W.most (W.value word)) }
    ensures { MatchOption sum (result ≡ None) (λ word. GivesExact W.value W.most result
        (pos (unsigned_abs (number *ℤ W.value word)))) }
{
    absolute_product(sum?, number)
}
