//! Optima that are checked alone.

use ror_discriminate::{OptimalFault, check_optimal};
use ror_made::{is_lawful, three_alternatives};
use ror_pivot::Optimum;
use ror_statement::Statement;
use ror_system::{Multipliers, Numbers, Solution};
use ror_table::Table;
use std::alloc::{AllocError, Global};
use std::test::Fail;

/// The row of a over b is (0, 1, 0, -1), that of b over c (1, 0, 1, 1): no function has both above half of its total.
const A_OVER_B_OVER_C: &[Statement] = &[Statement::Prefer(0, 1), Statement::Prefer(1, 2)];

/// The optimum of these steps, by which both statements weigh the same.
fn optimum_of(alloc: Global, steps: &[i128]) -> Result<Optimum, AllocError> {
    let solution = Solution {
        steps: Numbers::of(alloc, steps)?,
    };
    let multipliers = Multipliers {
        weak: Numbers::of(alloc, &[])?,
        strict: Numbers::of(alloc, &[0, 1, 1])?,
    };
    Ok(Optimum {
        solution,
        multipliers,
    })
}

/// What a check of these steps says.
fn checked(alloc: Global, table: &Table, steps: &[i128]) -> Result<Result<(), OptimalFault>, Fail> {
    if !is_lawful(table, A_OVER_B_OVER_C) {
        return Err(Fail::new("the list is lawful"));
    }
    let x = optimum_of(alloc, steps)?;
    Ok(check_optimal(alloc, table, A_OVER_B_OVER_C, &x))
}

#[test]
fn an_optimum_is_accepted_and_another_function_refused(rt: HostRuntime) -> Result<(), Fail> {
    let table = three_alternatives(rt.alloc())?;
    assert!(rt; checked(rt.alloc(), &table, &[1, 1, 0, 0])?.is_ok());
    let refused = checked(rt.alloc(), &table, &[1, 2, 0, 0])?;
    assert!(rt; matches!(refused, Err(OptimalFault::Column(0))));
    Ok(())
}
