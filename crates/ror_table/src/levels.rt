//! The levels of a criterion.

ghost use Rattle.std.specs.Prelude.{◌≡◌, ◌||◌, length, filter, All, IfOk, OnOk};
ghost use Rattle.std.specs.Set.{is_member};
ghost use Rattle.ror_table.specs.Amounts.{IsAmount, is_same};
ghost use Rattle.ror_table.specs.Amounts as spec;
ghost use Rattle.ror_table.specs.Levels.{IsLevels, Rises};

use crate::amount::Amount;
use crate::direction::{Direction, is_worse};
use std::alloc::{AllocError, Global};

/// The distinct performances, from the worst to the best.
pub(crate) fn levels_of(
    alloc: Global,
    direction: Direction,
    performances: &[Amount],
) -> Result<Vec<Amount>, AllocError>
    requires { All IsAmount performances.now }
    ensures { IfOk result (λ levels. IsLevels direction performances.now levels.items) }
{
    let mut levels = Vec::new(alloc);
    for performance in performances {
        add_level(direction, &mut levels, *performance)?;
    }
    Ok(levels)
}

/// Puts a performance in its place among the levels, unless it is there.
fn add_level(
    direction: Direction,
    levels: &mut Vec<Amount>,
    performance: Amount,
) -> Result<(), AllocError>
    requires rises { Rises direction levels.old.items }
    requires amounts { All IsAmount levels.old.items }
    requires amount { IsAmount performance }
    ensures rises { OnOk result (Rises direction levels.new.items) }
    ensures amounts { OnOk result (All IsAmount levels.new.items) }
    ensures members { OnOk result ((q : Amount) → is_member is_same levels.new.items q
        ≡ (is_same q performance || is_member is_same levels.old.items q)) }
{
    let place = worse_count(direction, levels, performance);
    if place < levels.len() && levels[place].is_same(&performance) {
        return Ok(());
    }
    levels.insert(place, performance)?;
    Ok(())
}

/// How many of the levels are worse than a performance.
pub(crate) fn worse_count(direction: Direction, levels: &[Amount], performance: Amount) -> usize
    requires rises { Rises direction levels.now }
    requires amounts { All IsAmount levels.now }
    requires amount { IsAmount performance }
    ensures { result ≡ length
        (filter (λ level. spec.is_worse direction level performance) levels.now) }
{
    levels.partition_point(|level| is_worse(direction, level, &performance))
}
