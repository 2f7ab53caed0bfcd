//! The conflicts of one member, which come first: the alternatives that count by every compatible function.

ghost use Rattle.std.specs.Prelude.{◌≤◌, OnOk};
ghost use Rattle.ror_ranks_find.specs.Search.{IsFoundFor, IsOther, IsSought};

use crate::found::Found;
use crate::smaller::alone;
use crate::sought::{Sought, Tried, try_without};
use ror_ranks::others::all_but;
use ror_warm::Engine;
use std::alloc::{AllocError, Global};

/// Adds each other alternative that counts by every compatible function, as a conflict of its own. One of which this is too wide to say
/// is passed over.
pub(crate) fn add_singles(
    alloc: Global,
    engine: &mut Engine,
    sought: &Sought,
    found: &mut Found,
) -> Result<(), AllocError>
    requires sought { IsSought sought.now }
    requires found { IsFoundFor sought.now found.old }
    ensures found { OnOk result (IsFoundFor sought.now found.new) }
    ensures counted { engine.old.pivots ≤ engine.new.pivots }
{
    let others = all_but(alloc, sought.asked.table, sought.asked.alternative, &[])?;
    for other in others.as_slice() {
        add_single(alloc, engine, sought, found, *other)?;
    }
    Ok(())
}

/// Adds the alternative, where it counts by every compatible function.
fn add_single(
    alloc: Global,
    engine: &mut Engine,
    sought: &Sought,
    found: &mut Found,
    other: usize,
) -> Result<(), AllocError>
    requires sought { IsSought sought.now }
    requires found { IsFoundFor sought.now found.old }
    requires other { IsOther sought.now.asked other }
    ensures found { OnOk result (IsFoundFor sought.now found.new) }
    ensures counted { engine.old.pivots ≤ engine.new.pivots }
{
    let mut members = Vec::new(alloc);
    members.push(other)?;
    match try_without(alloc, engine, sought, members)? {
        Tried::Conflict(conflict) => found.add(sought, alone(alloc, conflict)?),
        _ => Ok(()),
    }
}
