//! Finding the extreme ranks of all alternatives.

ghost use Rattle.std.specs.Prelude.{◌≡◌, ◌≢◌, ◌↔◌, ◌≤◌, ◌<◌, [], length, IsTrue, IfOk, IfErr, OnOk};
ghost use Rattle.ror_value.specs.Over.{IsLawfulIn};
ghost use Rattle.ror_pivot.specs.Answers.{most_of};
ghost use Rattle.ror_ranks.specs.Finding.{AreGivenRanks};
ghost use Rattle.ror_ranks_find.specs.RankingFaults.{IsDueFault};
ghost use Rattle.ror_ranks.specs.Ranks as ranks;
ghost use Rattle.ror_ranks_find.specs.Search.{HasFunction, IsBaseFunction, IsConcluded, IsDone, IsFoundFor, IsLastWide, IsOver, IsPushed, IsSaidOf, IsSought, IsWithin, RefusesBase, ends_by};

use crate::fault::RankingFault;
use crate::found::Found;
use crate::growing::{State, Tree, first_tree, grow};
use crate::shown::shown_by;
use crate::singles::add_singles;
use crate::sought::Sought;
use ror_pivot::{Bits, Outcome, SolveFault};
use ror_ranks::sides::Asked;
use ror_ranks::{Extreme, Interval, Said, Side};
use ror_rows::system_of;
use ror_statement::Statement;
use ror_system::{Solution, System};
use ror_table::Table;
use ror_text::Items;
use ror_warm::Engine;
use std::alloc::{AllocError, Global};

/// The best and the worst rank of each alternative over the list, in order of the table, each with its proof, which `check_ranks`
/// accepts. The engine decides the systems at this width, one rank after another, and no number of a proof passes it. An extreme rank is
/// known, or lies between two ranks where a tree of `MOST_NODES` nodes wasn't enough, or a number on the path of a system is too wide.
///
/// The list is lawful.
///
/// # Errors
///
/// `Contradictory` only where the list is, with accepted multipliers of which no number passes the width. `BaseWide` only with the first
/// number on the path of the list's system that does. Want of memory.
pub fn find_ranks(
    alloc: Global,
    engine: &mut Engine,
    table: &Table,
    list: &[Statement],
    bits: Bits,
) -> Result<Vec<Extreme>, RankingFault>
    requires lawful { IsLawfulIn table.now list.now }
    ensures given { IfOk result (λ extremes. AreGivenRanks (most_of bits) table.now list.now extremes.items) }
    ensures fault { IfErr result (IsDueFault (most_of bits) table.now list.now) }
    ensures counted { engine.old.pivots ≤ engine.new.pivots }
{
    let base = system_of(alloc, table, list)?;
    let function = decide_base(engine, &base, bits)?;
    let over = Over {
        table,
        base: &base,
        function: &function,
        bits,
    };
    let mut extremes = Vec::with_capacity(alloc, 2 * table.alternatives())?;
    for alternative in 0..table.alternatives() {
        push_extreme(alloc, engine, &over, alternative, Side::Best, &mut extremes)?;
        push_extreme(
            alloc,
            engine,
            &over,
            alternative,
            Side::Worst,
            &mut extremes,
        )?;
    }
    Ok(extremes)
}

/// A list's base, and a function that solves it.
#[derive(Clone, Copy)]
pub(crate) struct Over<'a> {
    table: &'a Table,
    base: &'a System,
    function: &'a Solution,
    bits: Bits,
}

/// Decides the system of a list at this width: a function that is compatible with it.
///
/// # Errors
///
/// `Contradictory` where it is not solvable, `BaseWide`, and want of memory.
fn decide_base(engine: &mut Engine, base: &System, bits: Bits) -> Result<Solution, RankingFault>
    ensures function { IfOk result (HasFunction (most_of bits) base.now) }
    ensures fault { IfErr result (RefusesBase (most_of bits) base.now) }
    ensures counted { engine.old.pivots ≤ engine.new.pivots }
{
    match engine.solve_warm(base, bits) {
        Ok(Outcome::Feasible(solution)) => Ok(solution),
        Ok(Outcome::Infeasible(multipliers)) => Err(RankingFault::Contradictory(multipliers)),
        Err(SolveFault::Wide(note)) => Err(RankingFault::BaseWide(note)),
        Err(SolveFault::Memory) => Err(RankingFault::Memory),
    }
}

/// Adds what is said of the extreme rank of an alternative on a side.
fn push_extreme(
    alloc: Global,
    engine: &mut Engine,
    over: &Over,
    alternative: usize,
    side: Side,
    extremes: &mut Vec<Extreme>,
) -> Result<(), AllocError>
    requires over { IsOver over.now }
    requires alternative { alternative < length over.now.table.now.alternatives }
    ensures pushed { OnOk result (IsPushed over.now alternative side extremes.old.items extremes.new.items) }
    ensures counted { engine.old.pivots ≤ engine.new.pivots }
{
    let asked = Asked {
        table: over.table,
        base: over.base,
        alternative,
        side,
    };
    let sought = Sought {
        asked,
        bits: over.bits,
    };
    let said = find_extreme(alloc, engine, &sought, over.function)?;
    extremes.push(Extreme {
        alternative,
        side,
        said,
    })?;
    Ok(())
}

/// What is said of the extreme rank that is sought, where a function solves the base.
fn find_extreme(
    alloc: Global,
    engine: &mut Engine,
    sought: &Sought,
    function: &Solution,
) -> Result<Said, AllocError>
    requires sought { IsSought sought.now }
    requires function { IsBaseFunction sought.now function.now }
    ensures said { IfOk result (IsSaidOf sought.now) }
    ensures counted { engine.old.pivots ≤ engine.new.pivots }
{
    let mut found = Found::start(alloc, sought, function)?;
    add_singles(alloc, engine, sought, &mut found)?;
    let mut done = first_tree(alloc, found.conflicts.as_slice())?;
    let mut next = grow(alloc, engine, sought, &mut found, done.goal + 1)?;
    'levels: while next.is_whole() {
        let goal = next.goal + 1;
        done = next;
        next = grow(alloc, engine, sought, &mut found, goal)?;
    }
    conclude(alloc, sought, found, done, next.state)
}

/// What is said, where the last tree that was whole is this one, and the next is in this state.
fn conclude(
    alloc: Global,
    sought: &Sought,
    found: Found,
    done: Tree,
    state: State,
) -> Result<Said, AllocError>
    requires sought { IsSought sought.now }
    requires found { IsFoundFor sought.now found }
    requires done { IsDone found.conflicts.items done }
    ensures { IfOk result (IsConcluded sought.now found done state) }
{
    if is_given_up(&found, state) {
        return wide(found);
    }
    within(alloc, sought, found, done)
}

/// Whether a tree in this state ended since a number was too wide.
fn is_given_up(found: &Found, state: State) -> bool
    ensures { IsTrue result ↔ ((state ≡ State.Wide) × (found.now.wide.items ≢ [])) }
{
    state == State::Wide && !found.wide.is_empty()
}

/// That a number is too wide.
fn wide(found: Found) -> Result<Said, AllocError>
    ensures { IfOk result (IsLastWide found.wide.items) }
{
    let mut wide = found.wide;
    match wide.pop() {
        Some(wide) => Ok(Said::Wide(wide)),
        None => Err(AllocError),
    }
}

/// The interval from what the tree shows to what the function does.
fn within(alloc: Global, sought: &Sought, found: Found, done: Tree) -> Result<Said, AllocError>
    requires sought { IsSought sought.now }
    requires found { IsFoundFor sought.now found }
    requires done { IsDone found.conflicts.items done }
    ensures { IfOk result (IsWithin sought.now found done) }
{
    let count = sought.asked.table.alternatives();
    let of_all = rank_of_count(sought.asked.side, count, done.goal);
    let of_one = rank_of_count(sought.asked.side, count, found.except.len());
    let (from, to) = ends(sought.asked.side, of_all, of_one);
    let shown = shown_by(alloc, found.conflicts, done.goal, done.nodes)?;
    Ok(Said::Within(Interval {
        from,
        to,
        except: found.except,
        function: found.function,
        conflicts: Items::from(shown.conflicts),
        tree: Items::from(shown.nodes),
    }))
}

/// The ends of an interval that has these bounds, of all functions and of one.
fn ends(side: Side, of_all: u32, of_one: u32) -> (u32, u32)
    ensures { result ≡ ends_by side of_all of_one }
{
    match side {
        Side::Best => (of_all, of_one),
        Side::Worst => (of_one, of_all),
    }
}

/// The rank of an alternative of so many where so many of the others count.
fn rank_of_count(side: Side, alternatives: usize, count: usize) -> u32
    requires few { alternatives ≤ 200 }
    requires within { count < alternatives }
    ensures { result ≡ ranks.rank_of_count side alternatives count }
{
    match side {
        Side::Best => count as u32 + 1,
        Side::Worst => (alternatives - count) as u32,
    }
}
