//! How many pivots an engine takes, which no command writes.

use crate::made::system;
use ror_pivot::{Bits, Outcome};
use ror_system::System;
use ror_warm::Engine;
use std::test::Fail;

/// Whether the engine finds a solution of a system.
fn is_solved(engine: &mut Engine, s: &System) -> bool {
    matches!(engine.solve_warm(s, Bits::B31), Ok(Outcome::Feasible(_)))
}

// The system's own path takes three pivots.
#[test]
fn a_tableau_takes_fewer_pivots_than_the_path_and_a_kept_solution_none(
    rt: HostRuntime,
) -> Result<(), Fail> {
    let s = system(rt.alloc(), &[200, -199]).ok_or("a system")?;
    let mut engine = Engine::new(rt.alloc());
    assert!(rt; is_solved(&mut engine, &s));
    let made = engine.pivots();
    assert!(rt; made > 0 && made < 3);
    assert!(rt; is_solved(&mut engine, &s));
    assert!(rt; engine.pivots() == made);
    Ok(())
}
