//! The check of extreme ranks. It multiplies out what it is given and never searches.

ghost use Rattle.std.specs.Prelude.{◌≡◌, ◌≢◌, ◌≤◌, ◌<◌, ◌+◌, ◌↔◌, ⊤, length, map, IsTrue, OnOk, IfOk, IfErr, MatchOption, MatchResult};
ghost use Rattle.std.specs.List.{AllByRecursion};
ghost use Rattle.ror_text.specs.FirstFault.{IsFirst, IsRefusedBy};
ghost use Rattle.ror_system.specs.Acceptance.{AreAcceptedMultipliers, FailsMultipliers, IsEarlierTest};
ghost use Rattle.ror_value.specs.Meaning.{IsContradictory};
ghost use Rattle.ror_statement.specs.declared.row_number.TheConstants.{MOST_ROWS};
ghost use Rattle.ror_table.specs.Table.{IsTable, columns};
ghost use Rattle.ror_value.specs.Over.{IsLawfulIn};
ghost use Rattle.ror_check.specs.Proof.{base_system};
ghost use Rattle.ror_ranks.specs.Ranks as ranks;
ghost use Rattle.ror_ranks.specs.Conflicts.{IsProvedConflict};
ghost use Rattle.ror_ranks.specs.Proof as proof;
ghost use Rattle.ror_ranks.specs.Proof.{AreEnds, AreProvedRanks, AreTrueRanks, IsProvedInterval, IsProvedOfOne, IsProvedSaid, extreme_of};
ghost use Rattle.ror_ranks.specs.Faults.{FailsRanks, IsEarlierRanksFault};
ghost use Rattle.ror_ranks.specs.Steps as steps;
ghost use Rattle.ror_ranks.specs.Steps.{IsAsked, RefusesConflict, RefusesConflicts, RefusesFunction, RefusesInterval, RefusesSaid, due_from};

use crate::extreme::{Conflict, Extreme, Interval, Said, Side};
use crate::fault::{ExtremeFault, RanksFault};
use crate::others::{all_but, are_others};
use crate::sides::{Asked, system_without};
use crate::tree::check_tree;
use ror_rows::system_of;
use ror_statement::Statement;
use ror_system::{Multipliers, Reject, System, accept_multipliers, accept_solution};
use ror_table::Table;
use std::alloc::{AllocError, Global};

/// Whether the extreme ranks are those of each alternative over the list, each proved but for what is too wide. What is too wide
/// concludes nothing, and is passed over. The list is lawful. What is accepted is true of all value functions that are compatible with
/// the list.
///
/// # Errors
///
/// `NotDue`, and the first that is not accepted, by its place from 1, with the first test that it fails.
pub fn check_ranks(
    alloc: Global,
    table: &Table,
    list: &[Statement],
    extremes: &[Extreme],
) -> Result<(), RanksFault>
    requires lawful { IsLawfulIn table.now list.now }

    ensures accepted { OnOk result (AreProvedRanks table.now list.now extremes.now) }
    ensures true_ranks { OnOk result (AreTrueRanks table.now list.now extremes.now) }

    // Nothing that is proved is refused, and a refusal names the first test that fails.
    ensures not_proved { IfErr result (λ e. e ≢ RanksFault.Memory
        → AreProvedRanks table.now list.now extremes.now → ⊥) }
    ensures refused { IfErr result (IsRefusedBy (FailsRanks table.now list.now extremes.now)
        IsEarlierRanksFault RanksFault.Memory) }
{
    if !are_due(0, table.alternatives(), extremes) {
        return Err(RanksFault::NotDue);
    }
    let base = system_of(alloc, table, list)?;
    for (place, extreme) in extremes.iter().enumerate() {
        if let Err(fault) = check_extreme(alloc, table, &base, extreme) {
            return Err(refused_at(place as u32 + 1, fault));
        }
    }
    Ok(())
}

/// Whether the extreme ranks are those of the alternatives from one on, up to so many, in order.
fn are_due(first: usize, count: usize, extremes: &[Extreme]) -> bool
    requires { first ≤ count }
    ensures { IsTrue result ↔ (map extreme_of extremes.now ≡ due_from first count) }
{
    match extremes {
        [best, worst, rest @ ..] => {
            first < count
                && is_due(best, first, Side::Best)
                && is_due(worst, first, Side::Worst)
                && are_due(first + 1, count, rest)
        }
        [] => first == count,
        _ => false,
    }
}

/// Whether this is the extreme rank on the side of the alternative.
fn is_due(extreme: &Extreme, alternative: usize, side: Side) -> bool
    ensures { IsTrue result ↔ (extreme_of extreme.now ≡ (alternative, side)) }
{
    extreme.alternative == alternative && extreme.side == side
}

/// The fault of extreme ranks of which the one at a place is refused; want of memory is no fault of it.
fn refused_at(place: u32, fault: ExtremeFault) -> RanksFault
    ensures { result ≡ steps.refused_at place fault }
{
    match fault {
        ExtremeFault::Memory => RanksFault::Memory,
        fault => RanksFault::Extreme(place, fault),
    }
}

/// Whether the extreme rank is proved, or too wide, where the statements have this base.
fn check_extreme(
    alloc: Global,
    table: &Table,
    base: &System,
    x: &Extreme,
) -> Result<(), ExtremeFault>
    requires table { IsTable table.now }
    requires alternative { x.now.alternative < length table.now.alternatives }
    requires columns { base.now.columns ≡ columns table.now }
    requires rows { length base.now.weak + length base.now.strict ≤ MOST_ROWS }
    ensures { MatchResult result
        (λ _. IsProvedSaid table.now base.now x.now.side x.now.alternative x.now.said)
        (RefusesSaid table.now base.now x.now.side x.now.alternative x.now.said) }
{
    let asked = Asked {
        table,
        base,
        alternative: x.alternative,
        side: x.side,
    };
    match &x.said {
        Said::Within(interval) => check_interval(alloc, &asked, interval),
        Said::Wide(_) => Ok(()),
    }
}

/// Whether the interval is proved.
fn check_interval(alloc: Global, asked: &Asked, x: &Interval) -> Result<(), ExtremeFault>
    requires asked { IsAsked asked.now }
    ensures { MatchResult result
        (λ _. IsProvedInterval asked.now.table.now asked.now.base.now asked.now.side asked.now.alternative x.now)
        (RefusesInterval asked.now.table.now asked.now.base.now asked.now.side asked.now.alternative x.now) }
{
    let count = asked.table.alternatives();
    if !are_ends(count, x.from, x.to) {
        return Err(ExtremeFault::Ends);
    }
    check_function(alloc, asked, x)?;
    check_conflicts(alloc, asked, x.conflicts.as_slice())?;
    let goal = fewest(asked.side, count, x);
    check_tree(alloc, x.conflicts.as_slice(), goal, x.tree.as_slice())
}

/// Whether these are ranks of so many alternatives, in order.
fn are_ends(count: usize, from: u32, to: u32) -> bool
    ensures { IsTrue result ↔ ((1 ≤ from) × (from ≤ to) × (to ≤ count)) }
{
    1 <= from && from <= to && to as usize <= count
}

/// The count by which an alternative of so many has a rank.
fn count_of_rank(side: Side, count: usize, rank: u32) -> usize
    requires first { 1 ≤ rank }
    requires last { rank ≤ count }
    ensures { result ≡ ranks.count_of_rank side count rank }
{
    match side {
        Side::Best => rank as usize - 1,
        Side::Worst => count - rank as usize,
    }
}

/// How many count at least by every compatible function.
fn fewest(side: Side, count: usize, x: &Interval) -> usize
    requires ends { (1 ≤ x.now.from) × (x.now.from ≤ x.now.to) × (x.now.to ≤ count) }
    ensures { result ≡ proof.fewest side count x.now }
{
    match side {
        Side::Best => count_of_rank(side, count, x.from),
        Side::Worst => count_of_rank(side, count, x.to),
    }
}

/// How many may count by the one function.
fn allowed(side: Side, count: usize, x: &Interval) -> usize
    requires ends { (1 ≤ x.now.from) × (x.now.from ≤ x.now.to) × (x.now.to ≤ count) }
    ensures { result ≡ proof.allowed side count x.now }
{
    match side {
        Side::Best => count_of_rank(side, count, x.to),
        Side::Worst => count_of_rank(side, count, x.from),
    }
}

/// The tests of the function and of its exceptions.
fn check_function(alloc: Global, asked: &Asked, x: &Interval) -> Result<(), ExtremeFault>
    requires asked { IsAsked asked.now }
    requires ends { AreEnds asked.now.table.now x.now }
    ensures { MatchResult result
        (λ _. IsProvedOfOne asked.now.table.now asked.now.base.now asked.now.side asked.now.alternative x.now)
        (RefusesFunction asked.now.table.now asked.now.base.now asked.now.side asked.now.alternative x.now) }
{
    let table = asked.table;
    let except = x.except.as_slice();
    if !are_others(table, asked.alternative, except) {
        return Err(ExtremeFault::Except);
    }
    if except.len() != allowed(asked.side, table.alternatives(), x) {
        return Err(ExtremeFault::Except);
    }
    let rest = all_but(alloc, table, asked.alternative, except)?;
    let system = system_without(alloc, asked, rest.as_slice())?;
    match accept_solution(&system, &x.function) {
        Ok(()) => Ok(()),
        Err(reject) => Err(ExtremeFault::Function(reject)),
    }
}

/// Whether each conflict is one, from the first on.
fn check_conflicts(alloc: Global, asked: &Asked, conflicts: &[Conflict]) -> Result<(), ExtremeFault>
    requires asked { IsAsked asked.now }
    ensures { MatchResult result
        (λ _. AllByRecursion (IsProvedConflict asked.now.table.now asked.now.base.now asked.now.side asked.now.alternative) conflicts.now)
        (RefusesConflicts asked.now.table.now asked.now.base.now asked.now.side asked.now.alternative conflicts.now) }
{
    for (place, conflict) in conflicts.iter().enumerate() {
        check_conflict(alloc, asked, place, conflict)?;
    }
    Ok(())
}

/// Whether the conflict that stands at a place is one.
fn check_conflict(
    alloc: Global,
    asked: &Asked,
    place: usize,
    conflict: &Conflict,
) -> Result<(), ExtremeFault>
    requires asked { IsAsked asked.now }
    ensures { MatchResult result
        (λ _. IsProvedConflict asked.now.table.now asked.now.base.now asked.now.side asked.now.alternative conflict.now)
        (RefusesConflict asked.now.table.now asked.now.base.now asked.now.side asked.now.alternative place conflict.now) }
{
    let members = conflict.members.as_slice();
    if !are_others(asked.table, asked.alternative, members) {
        return Err(ExtremeFault::Members(place));
    }
    let system = system_without(alloc, asked, members)?;
    match accept_multipliers(&system, &conflict.multipliers) {
        Ok(()) => Ok(()),
        Err(reject) => Err(ExtremeFault::Conflict(place, reject)),
    }
}

/// Why these multipliers don't refute the system of the list, which is lawful; nothing, where they do: then the list is contradictory.
/// Its one error is want of memory.
pub fn refutation_fault(
    alloc: Global,
    table: &Table,
    list: &[Statement],
    multipliers: &Multipliers,
) -> Result<Option<Reject>, AllocError>
    requires lawful { IsLawfulIn table.now list.now }
    ensures fault { IfOk result (λ fault. MatchOption fault
        (AreAcceptedMultipliers (base_system table.now list.now) multipliers.now.weak multipliers.now.strict)
        (IsFirst (FailsMultipliers (base_system table.now list.now) multipliers.now.weak multipliers.now.strict) IsEarlierTest)) }
    ensures contradictory { IfOk result (λ fault. MatchOption fault
        (IsContradictory table.now list.now) (λ _. ⊤)) }
{
    let system = system_of(alloc, table, list)?;
    match accept_multipliers(&system, multipliers) {
        Ok(()) => Ok(None),
        Err(reject) => Ok(Some(reject)),
    }
}
