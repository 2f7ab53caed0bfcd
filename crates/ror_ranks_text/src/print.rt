//! The printer of an entry's text.
#![tactic(auto, using(ror_proof::proofs::PrintLemmas::in_front))]

ghost use Rattle.std.specs.Prelude.{◌≡◌, ◌<◌, [], ◌∷◌, ◌++◌, codes, decimal, length, map, IfOk, OnOk};
ghost use Rattle.std.specs.List.{flat_map};
ghost use Rattle.ror_text.specs.SpacedLines.{line_text};
ghost use Rattle.ror_table.specs.Table.{id_of};
ghost use Rattle.ror_proof.specs.Printing.{spaced, StandsInFront};
ghost use Rattle.ror_ranks.specs.SideNames.{side_word};
ghost use Rattle.ror_ranks_text.specs.Text.{body_text, conflict_text, entry_text, extreme_text, ids_text, interval_line, interval_text, node_text, wide_text, AreOfTable, IsPrintableBody, IsPrintableConflict, IsPrintableEntry, IsPrintableExtreme, IsPrintableInterval, IsPrintableWide};
ghost use Rattle.std.specs.List.{AllByRecursion};

use crate::entry::{Entry, EntryBody};
use crate::names::NodeName;
use ror_discriminate::{
    write_base_wide, write_contradiction, write_multipliers_line, write_path, write_place,
    write_solution,
};
use ror_proof::names::Name;
use ror_proof::write::{end_line, write_alternative, write_number, write_word};
use ror_ranks::{Conflict, Extreme, Interval, Node, Said, Side, WideExtreme};
use ror_report::desk::write_desk;
use ror_table::Table;
use std::alloc::{AllocError, Global};

/// The text of an entry. It asks what `write_entry` asks.
pub fn print_entry(alloc: Global, table: &Table, x: &Entry) -> Result<Vec<u8>, AllocError>
    requires printable { IsPrintableEntry table.now x.now }
    ensures text { IfOk result (λ text. text.items ≡ entry_text table.now x.now) }
{
    let mut text = Vec::new(alloc);
    write_entry(&mut text, table, x)?;
    Ok(text)
}

/// Writes the text of an entry behind what is there, which stays in front also where memory runs out. It asks that a session may
/// have a desk of the entry's name, that all alternatives are of the table, that every number of a function and of multipliers is of
/// absolute value at most 2^127 - 1, and that every other number is below 2^32, so that the text is read again.
#[tactic(auto, using(ror_proof::proofs::PrintLemmas::in_front), unfolding(crate::specs::Text::entry_text))]
pub fn write_entry(text: &mut Vec<u8>, table: &Table, x: &Entry) -> Result<(), AllocError>
    requires printable { IsPrintableEntry table.now x.now }
    ensures ok { OnOk result (text.new.items ≡ text.old.items ++ entry_text table.now x.now) }
    ensures front { StandsInFront text.old.items text.new.items }
{
    write_desk(text, x.desk.as_str().as_bytes())?;
    write_body(text, table, &x.body)
}

/// What is said of a desk.
fn write_body(text: &mut Vec<u8>, table: &Table, body: &EntryBody) -> Result<(), AllocError>
    requires printable { IsPrintableBody table.now body.now }
    ensures ok { OnOk result (text.new.items ≡ text.old.items ++ body_text table.now body.now) }
    ensures front { StandsInFront text.old.items text.new.items }
{
    match body {
        EntryBody::Ranks(extremes) => write_ranks(text, table, extremes.as_slice()),
        EntryBody::Contradiction(multipliers) => write_contradiction(text, multipliers),
        EntryBody::BaseWide(note) => write_base_wide(text, note),
    }
}

/// How many extreme ranks there are, and each of them.
fn write_ranks(text: &mut Vec<u8>, table: &Table, extremes: &[Extreme]) -> Result<(), AllocError>
    requires printable { AllByRecursion (IsPrintableExtreme table.now) extremes.now }
    ensures ok { OnOk result (text.new.items ≡ text.old.items
        ++ (line_text (codes "ranks" ∷ decimal (length extremes.now) ∷ [])
        ++ flat_map (extreme_text table.now) extremes.now)) }
    ensures front { StandsInFront text.old.items text.new.items }
{
    write_count(text, extremes.len())?;
    write_extremes(text, table, extremes)
}

fn write_count(text: &mut Vec<u8>, count: usize) -> Result<(), AllocError>
    ensures ok { OnOk result (text.new.items
        ≡ text.old.items ++ line_text (codes "ranks" ∷ decimal count ∷ [])) }
    ensures front { StandsInFront text.old.items text.new.items }
{
    text.extend_from_slice(b"ranks")?;
    write_number(text, count)?;
    end_line(text)
}

fn write_extremes(text: &mut Vec<u8>, table: &Table, extremes: &[Extreme]) -> Result<(), AllocError>
    requires printable { AllByRecursion (IsPrintableExtreme table.now) extremes.now }
    ensures ok { OnOk result (text.new.items
        ≡ text.old.items ++ flat_map (extreme_text table.now) extremes.now) }
    ensures front { StandsInFront text.old.items text.new.items }
{
    'extremes: for extreme in extremes {
        write_extreme(text, table, extreme)?;
    }
    Ok(())
}

fn write_extreme(text: &mut Vec<u8>, table: &Table, x: &Extreme) -> Result<(), AllocError>
    requires printable { IsPrintableExtreme table.now x.now }
    ensures ok { OnOk result (text.new.items ≡ text.old.items ++ extreme_text table.now x.now) }
    ensures front { StandsInFront text.old.items text.new.items }
{
    match &x.said {
        Said::Within(interval) => write_interval(text, table, x.side, x.alternative, interval),
        Said::Wide(wide) => write_wide(text, table, x.side, x.alternative, wide),
    }
}

/// The first line of an interval, its exceptions, its function, the conflicts and the nodes.
fn write_interval(
    text: &mut Vec<u8>,
    table: &Table,
    side: Side,
    alternative: usize,
    x: &Interval,
) -> Result<(), AllocError>
    requires alternative { alternative < length table.now.alternatives }
    requires printable { IsPrintableInterval table.now x.now }
    ensures ok { OnOk result (text.new.items
        ≡ text.old.items ++ interval_text table.now side alternative x.now) }
    ensures front { StandsInFront text.old.items text.new.items }
{
    write_ends(text, table, side, alternative, x)?;
    write_ids(text, table, b"except", x.except.as_slice())?;
    write_solution(text, &x.function)?;
    write_conflicts(text, table, x.conflicts.as_slice())?;
    write_nodes(text, x.tree.as_slice())
}

/// The first line of an interval.
fn write_ends(
    text: &mut Vec<u8>,
    table: &Table,
    side: Side,
    alternative: usize,
    x: &Interval,
) -> Result<(), AllocError>
    requires alternative { alternative < length table.now.alternatives }
    ensures ok { OnOk result (text.new.items
        ≡ text.old.items ++ interval_line table.now side alternative x.now) }
    ensures front { StandsInFront text.old.items text.new.items }
{
    write_extreme_words(text, table, side, alternative)?;
    write_labelled(text, b"from", x.from as usize)?;
    write_labelled(text, b"to", x.to as usize)?;
    write_labelled(text, b"conflicts", x.conflicts.len())?;
    write_labelled(text, b"nodes", x.tree.len())?;
    end_line(text)
}

/// The word of a side and the id of an alternative, with which the first line of an extreme rank begins.
fn write_extreme_words(
    text: &mut Vec<u8>,
    table: &Table,
    side: Side,
    alternative: usize,
) -> Result<(), AllocError>
    requires { alternative < length table.now.alternatives }
    ensures ok { OnOk result (text.new.items
        ≡ text.old.items ++ (side_word side ++ 32 ∷ id_of table.now alternative)) }
    ensures front { StandsInFront text.old.items text.new.items }
{
    text.extend_from_slice(side.word())?;
    write_alternative(text, table, alternative)
}

/// A word and a number, as the next words of a line.
fn write_labelled(text: &mut Vec<u8>, word: &[u8], number: usize) -> Result<(), AllocError>
    ensures ok { OnOk result (text.new.items
        ≡ text.old.items ++ spaced (word.now ∷ decimal number ∷ [])) }
    ensures front { StandsInFront text.old.items text.new.items }
{
    write_word(text, word)?;
    write_number(text, number)
}

/// The line of a number that is too wide, and that of the alternatives.
fn write_wide(
    text: &mut Vec<u8>,
    table: &Table,
    side: Side,
    alternative: usize,
    x: &WideExtreme,
) -> Result<(), AllocError>
    requires alternative { alternative < length table.now.alternatives }
    requires printable { IsPrintableWide table.now x.now }
    ensures ok { OnOk result (text.new.items
        ≡ text.old.items ++ wide_text table.now side alternative x.now) }
    ensures front { StandsInFront text.old.items text.new.items }
{
    write_extreme_words(text, table, side, alternative)?;
    write_word(text, b"wide")?;
    write_place(text, x.note.place)?;
    write_path(text, x.note.path.as_slice())?;
    end_line(text)?;
    write_ids(text, table, b"over", x.members.as_slice())
}

/// The line of a word and of the ids of alternatives.
fn write_ids(
    text: &mut Vec<u8>,
    table: &Table,
    word: &[u8],
    members: &[usize],
) -> Result<(), AllocError>
    requires { AreOfTable table.now members.now }
    ensures ok { OnOk result (text.new.items
        ≡ text.old.items ++ ids_text table.now word.now members.now) }
    ensures front { StandsInFront text.old.items text.new.items }
{
    text.extend_from_slice(word)?;
    write_each_id(text, table, members)?;
    end_line(text)
}

fn write_each_id(text: &mut Vec<u8>, table: &Table, members: &[usize]) -> Result<(), AllocError>
    requires { AreOfTable table.now members.now }
    ensures ok { OnOk result (text.new.items
        ≡ text.old.items ++ spaced (map (id_of table.now) members.now)) }
    ensures front { StandsInFront text.old.items text.new.items }
{
    'members: for member in members {
        write_alternative(text, table, *member)?;
    }
    Ok(())
}

fn write_conflicts(
    text: &mut Vec<u8>,
    table: &Table,
    conflicts: &[Conflict],
) -> Result<(), AllocError>
    requires { AllByRecursion (IsPrintableConflict table.now) conflicts.now }
    ensures ok { OnOk result (text.new.items
        ≡ text.old.items ++ flat_map (conflict_text table.now) conflicts.now) }
    ensures front { StandsInFront text.old.items text.new.items }
{
    'conflicts: for conflict in conflicts {
        write_conflict(text, table, conflict)?;
    }
    Ok(())
}

/// The line of the members, and that of the multipliers.
fn write_conflict(text: &mut Vec<u8>, table: &Table, x: &Conflict) -> Result<(), AllocError>
    requires { IsPrintableConflict table.now x.now }
    ensures ok { OnOk result (text.new.items ≡ text.old.items ++ conflict_text table.now x.now) }
    ensures front { StandsInFront text.old.items text.new.items }
{
    write_ids(text, table, b"conflict", x.members.as_slice())?;
    write_multipliers_line(text, &x.multipliers)
}

fn write_nodes(text: &mut Vec<u8>, nodes: &[Node]) -> Result<(), AllocError>
    ensures ok { OnOk result (text.new.items ≡ text.old.items ++ flat_map node_text nodes.now) }
    ensures front { StandsInFront text.old.items text.new.items }
{
    'nodes: for node in nodes {
        write_node(text, node)?;
    }
    Ok(())
}

fn write_node(text: &mut Vec<u8>, node: &Node) -> Result<(), AllocError>
    ensures ok { OnOk result (text.new.items ≡ text.old.items ++ node_text node.now) }
    ensures front { StandsInFront text.old.items text.new.items }
{
    match node {
        Node::Leaf(places) => write_leaf(text, places.as_slice()),
        Node::Branch(place) => write_branch(text, *place),
    }
}

fn write_leaf(text: &mut Vec<u8>, places: &[u32]) -> Result<(), AllocError>
    ensures ok { OnOk result (text.new.items
        ≡ text.old.items ++ line_text (codes "leaf" ∷ map decimal places.now)) }
    ensures front { StandsInFront text.old.items text.new.items }
{
    text.extend_from_slice(NodeName::Leaf.word())?;
    write_places(text, places)?;
    end_line(text)
}

fn write_places(text: &mut Vec<u8>, places: &[u32]) -> Result<(), AllocError>
    ensures ok { OnOk result (text.new.items ≡ text.old.items ++ spaced (map decimal places.now)) }
    ensures front { StandsInFront text.old.items text.new.items }
{
    'places: for place in places {
        write_number(text, *place)?;
    }
    Ok(())
}

fn write_branch(text: &mut Vec<u8>, place: u32) -> Result<(), AllocError>
    ensures ok { OnOk result (text.new.items
        ≡ text.old.items ++ line_text (codes "branch" ∷ decimal place ∷ [])) }
    ensures front { StandsInFront text.old.items text.new.items }
{
    text.extend_from_slice(NodeName::Branch.word())?;
    write_number(text, place)?;
    end_line(text)
}
