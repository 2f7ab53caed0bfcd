//! The readers of what follows the first line of an extreme rank.

ghost use Rattle.std.specs.Prelude.{◌≤◌, ◌<◌, length, IfErr, IfOk};
ghost use Rattle.ror_text.specs.Reading.{Gives};
ghost use Rattle.ror_text.specs.Cursor.{cursor_at};
ghost use Rattle.ror_proof.specs.Reading.{proof_fault, IsProofFaultWithin};
ghost use Rattle.ror_ranks_text.specs.Reading as reading;

use crate::read::{Ends, Opening};
use crate::words::{ids_words, node_words};
use ror_discriminate::{multipliers_line, solution_line};
use ror_pivot::WideNote;
use ror_proof::ProofFault;
use ror_ranks::{Conflict, Interval, Node, Said, WideExtreme};
use ror_table::Table;
use ror_text::Items;
use ror_text::reading::need;
use ror_text::spaced::{Words, line_at};
use std::alloc::Global;

/// What follows the first line of an extreme rank, and where it ends.
pub(crate) fn said_at(
    alloc: Global,
    table: &Table,
    opening: Opening,
    bytes: &[u8],
    from: usize,
) -> Result<(Said, usize), ProofFault>
    requires { from ≤ length bytes.now }
    ensures exact { Gives (λ x. (x.0, cursor_at bytes.now x.1)) proof_fault result
        (reading.said_at table.now opening (cursor_at bytes.now from)) }
    ensures onward { IfOk result (λ x. from < x.1) }
    ensures within { IfOk result (λ x. x.1 ≤ length bytes.now) }
    ensures placed { IfErr result (IsProofFaultWithin (length bytes.now)) }
{
    match opening {
        Opening::Within(ends) => interval_at(alloc, table, ends, bytes, from),
        Opening::Wide(note) => wide_at(alloc, table, note, bytes, from),
    }
}

/// The exceptions, the function, and as many conflicts and nodes as there are to be.
#[tactic(auto, unfolding(crate::specs::Reading::interval_at))]
fn interval_at(
    alloc: Global,
    table: &Table,
    ends: Ends,
    bytes: &[u8],
    from: usize,
) -> Result<(Said, usize), ProofFault>
    requires { from ≤ length bytes.now }
    ensures exact { Gives (λ x. (x.0, cursor_at bytes.now x.1)) proof_fault result
        (reading.interval_at table.now ends (cursor_at bytes.now from)) }
    ensures onward { IfOk result (λ x. from < x.1) }
    ensures within { IfOk result (λ x. x.1 ≤ length bytes.now) }
    ensures placed { IfErr result (IsProofFaultWithin (length bytes.now)) }
{
    let (except, next) = ids_line(alloc, table, b"except", bytes, from)?;
    let (function, next) = solution_line(alloc, bytes, next)?;
    let (conflicts, next) = conflicts_at(alloc, table, ends.conflicts, bytes, next)?;
    let (tree, next) = nodes_at(alloc, ends.nodes, bytes, next)?;
    let interval = Interval {
        from: ends.from,
        to: ends.to,
        except: Items::from(except),
        function,
        conflicts: Items::from(conflicts),
        tree: Items::from(tree),
    };
    Ok((Said::Within(interval), next))
}

/// The alternatives of a number that is too wide, and where the next line begins.
#[tactic(auto, unfolding(crate::specs::Reading::wide_extreme_at))]
fn wide_at(
    alloc: Global,
    table: &Table,
    note: WideNote,
    bytes: &[u8],
    from: usize,
) -> Result<(Said, usize), ProofFault>
    requires { from ≤ length bytes.now }
    ensures exact { Gives (λ x. (x.0, cursor_at bytes.now x.1)) proof_fault result
        (reading.wide_extreme_at table.now note (cursor_at bytes.now from)) }
    ensures onward { IfOk result (λ x. from < x.1) }
    ensures within { IfOk result (λ x. x.1 ≤ length bytes.now) }
    ensures placed { IfErr result (IsProofFaultWithin (length bytes.now)) }
{
    let (members, next) = ids_line(alloc, table, b"over", bytes, from)?;
    let members = Items::from(members);
    Ok((Said::Wide(WideExtreme { members, note }), next))
}

/// The line of this word and of alternatives, and where the next line begins.
#[tactic(auto, using(ror_proof::proofs::Places::placed_on), unfolding(ror_proof::specs::Reading::ended))]
fn ids_line(
    alloc: Global,
    table: &Table,
    word: &[u8],
    bytes: &[u8],
    from: usize,
) -> Result<(Vec<usize>, usize), ProofFault>
    requires { from ≤ length bytes.now }
    ensures exact { Gives (λ x. (x.0.items, cursor_at bytes.now x.1)) proof_fault result
        (reading.ids_line table.now word.now (cursor_at bytes.now from)) }
    ensures onward { IfOk result (λ x. from < x.1) }
    ensures within { IfOk result (λ x. x.1 ≤ length bytes.now) }
    ensures placed { IfErr result (IsProofFaultWithin (length bytes.now)) }
{
    let (line, next) = line_at(bytes, from);
    let ids = ids_words(alloc, table, word, from, Words::of(line))?;
    let next = need(next, ProofFault::BadLine(from))?;
    Ok((ids, next))
}

/// So many conflicts, and where they end.
fn conflicts_at(
    alloc: Global,
    table: &Table,
    count: u32,
    bytes: &[u8],
    from: usize,
) -> Result<(Vec<Conflict>, usize), ProofFault>
    requires { from ≤ length bytes.now }
    ensures exact { Gives (λ x. (x.0.items, cursor_at bytes.now x.1)) proof_fault result
        (reading.so_many (reading.conflict_at table.now) count (cursor_at bytes.now from)) }
    ensures onward { IfOk result (λ x. from ≤ x.1) }
    ensures within { IfOk result (λ x. x.1 ≤ length bytes.now) }
    ensures placed { IfErr result (IsProofFaultWithin (length bytes.now)) }
{
    let mut conflicts = Vec::new(alloc);
    let mut next = from;
    'conflicts: for _ in 0..count {
        let (conflict, after) = conflict_at(alloc, table, bytes, next)?;
        conflicts.push(conflict)?;
        next = after;
    }
    Ok((conflicts, next))
}

/// The members of a conflict and its multipliers, and where the next line begins.
#[tactic(auto, unfolding(crate::specs::Reading::conflict_at))]
fn conflict_at(
    alloc: Global,
    table: &Table,
    bytes: &[u8],
    from: usize,
) -> Result<(Conflict, usize), ProofFault>
    requires { from ≤ length bytes.now }
    ensures exact { Gives (λ x. (x.0, cursor_at bytes.now x.1)) proof_fault result
        (reading.conflict_at table.now (cursor_at bytes.now from)) }
    ensures onward { IfOk result (λ x. from < x.1) }
    ensures within { IfOk result (λ x. x.1 ≤ length bytes.now) }
    ensures placed { IfErr result (IsProofFaultWithin (length bytes.now)) }
{
    let (members, next) = ids_line(alloc, table, b"conflict", bytes, from)?;
    let (multipliers, next) = multipliers_line(alloc, bytes, next)?;
    let conflict = Conflict {
        members: Items::from(members),
        multipliers,
    };
    Ok((conflict, next))
}

/// So many nodes, and where they end.
fn nodes_at(
    alloc: Global,
    count: u32,
    bytes: &[u8],
    from: usize,
) -> Result<(Vec<Node>, usize), ProofFault>
    requires { from ≤ length bytes.now }
    ensures exact { Gives (λ x. (x.0.items, cursor_at bytes.now x.1)) proof_fault result
        (reading.so_many reading.node_line count (cursor_at bytes.now from)) }
    ensures onward { IfOk result (λ x. from ≤ x.1) }
    ensures within { IfOk result (λ x. x.1 ≤ length bytes.now) }
    ensures placed { IfErr result (IsProofFaultWithin (length bytes.now)) }
{
    let mut nodes = Vec::new(alloc);
    let mut next = from;
    'nodes: for _ in 0..count {
        let (node, after) = node_line(alloc, bytes, next)?;
        nodes.push(node)?;
        next = after;
    }
    Ok((nodes, next))
}

/// The line of a node, and where the next line begins.
#[tactic(auto, using(ror_proof::proofs::Places::placed_on), unfolding(ror_proof::specs::Reading::ended))]
fn node_line(alloc: Global, bytes: &[u8], from: usize) -> Result<(Node, usize), ProofFault>
    requires { from ≤ length bytes.now }
    ensures exact { Gives (λ x. (x.0, cursor_at bytes.now x.1)) proof_fault result
        (reading.node_line (cursor_at bytes.now from)) }
    ensures onward { IfOk result (λ x. from < x.1) }
    ensures within { IfOk result (λ x. x.1 ≤ length bytes.now) }
    ensures placed { IfErr result (IsProofFaultWithin (length bytes.now)) }
{
    let (line, next) = line_at(bytes, from);
    let node = node_words(alloc, from, Words::of(line))?;
    let next = need(next, ProofFault::BadLine(from))?;
    Ok((node, next))
}
