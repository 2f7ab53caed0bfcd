//! The multipliers that are read at an infeasible end.

ghost use Rattle.std.specs.Prelude.{◌≡◌, ◌<◌, ◌≤◌, ◌+◌, ◌^◌, ◌++◌, ℕ, map, length, ℤ, List, pos, ◌≤ℤ◌, IfOk};
ghost use Rattle.std.specs.List.{AllByRecursion, range_with_len};
ghost use Rattle.ror_integers.specs.Vectors.{entry, absolute_dot, column};
ghost use Rattle.ror_text.specs.Reading.{Gives};
ghost use Rattle.ror_system.specs.Acceptance.{rows_of};
ghost use Rattle.ror_word.specs.Within.{IsWithin, GivesExact};
ghost use Rattle.ror_pivot.specs.Tableau.{IsTableau, shape_of};
ghost use Rattle.ror_pivot.specs.Ends.{IsInfeasibleEnd, weak_multipliers_at, strict_multipliers_at};
ghost use Rattle.ror_pivot.specs.Notes.{infeasible_numbers};
ghost use Rattle.ror_pivot.specs.Calls.{wide_place, unless_too_wide};

use crate::fault::NumberFault;
use crate::note::Place;
use crate::shape::Shape;
use crate::sums::plus_column;
use ror_fraction::FracRow;
use ror_system::{Multipliers, Numbers, System};
use ror_word::Word;
use std::alloc::{AllocError, Global};

/// The multipliers that the objective of a system's infeasible end gives.
///
/// # Errors
///
/// `Wide` at the first column whose sum of absolute terms is too wide, and want of memory.
pub(crate) fn infeasible_end<W: Word>(
    alloc: Global,
    s: &System,
    rows: &[FracRow<W>],
) -> Result<Multipliers, NumberFault>
    requires tableau { IsTableau (shape_of s.now) rows.now }
    ensures exact { Gives {Y = List ℤ × List ℤ} (λ y. (y.weak, y.strict)) wide_place result
        (unless_too_wide W.most (infeasible_numbers s.now rows.now) (
          weak_multipliers_at (shape_of s.now) rows.now,
          strict_multipliers_at (shape_of s.now)
              rows.now,
        )) }
    ensures narrow { IfOk result (λ y. AllByRecursion (IsWithin W.most) y.weak
        × AllByRecursion (IsWithin W.most) y.strict) }
{
    let shape = Shape::of(s);
    let objective = &rows[shape.objective_row()];
    let weak = entries_from(alloc, objective, shape.slack_column(0), shape.weak)?;
    let strict = entries_from(
        alloc,
        objective,
        shape.slack_column(shape.weak),
        shape.strict,
    )?;
    for j in 0..shape.steps {
        let fault = NumberFault::Wide(Place::ColumnSum(j));
        column_sum(s, weak.as_slice(), strict.as_slice(), j).ok_or(fault)?;
    }
    Ok(Multipliers {
        weak: numbers_of(alloc, weak.as_slice())?,
        strict: numbers_of(alloc, strict.as_slice())?,
    })
}

/// So many entries of a row from a column on.
pub(crate) fn entries_from<W: Word>(
    alloc: Global,
    row: &FracRow<W>,
    first: usize,
    count: usize,
) -> Result<Vec<W>, AllocError>
    requires within { first + count ≤ length row.now.entries }
    requires small { first + count < 2 ^ 64 }
    ensures exact { IfOk result (λ words. map W.value words.items
        ≡ map (entry row.now.entries) (range_with_len first count)) }
    ensures within { IfOk result (λ words. AllByRecursion (λ word. IsWithin W.most (W.value word))
        words.items) }
{
    let mut words = Vec::with_capacity(alloc, count)?;
    for k in 0..count {
        words.push(row.entry(first + k))?;
    }
    Ok(words)
}

/// The sum of a column's absolute terms over the multipliers, or `None` where it passes `MOST`.
pub(crate) fn column_sum<W: Word>(s: &System, weak: &[W], strict: &[W], j: usize) -> Option<W>
    requires within { j < s.now.columns }
    requires weak_length { length weak.now ≡ length s.now.weak }
    requires strict_length { length strict.now ≡ length s.now.strict }
    requires weak_values { AllByRecursion (λ word. IsWithin W.most (W.value word)) weak.now }
    requires strict_values { AllByRecursion (λ word. IsWithin W.most (W.value word)) strict.now }
    ensures { GivesExact W.value W.most result
        (pos (absolute_dot (map W.value weak.now ++ map W.value strict.now)
        (column (rows_of s.now) j))) }
{
    let weak_sum = plus_column(W::ZERO, weak, s.weak(), j)?;
    plus_column(weak_sum, strict, s.strict(), j)
}

/// The values of these words.
pub(crate) fn numbers_of<W: Word>(alloc: Global, words: &[W]) -> Result<Numbers, AllocError>
    requires { AllByRecursion (λ word. IsWithin W.most (W.value word)) words.now }
    ensures { IfOk result (λ numbers. numbers ≡ map W.value words.now) }
{
    let mut numbers = Numbers::new(alloc);
    for word in words {
        numbers.push(word.to_i128())?;
    }
    Ok(numbers)
}
