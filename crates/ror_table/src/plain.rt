//! The plain text of a table.

ghost use Rattle.std.specs.Prelude.{◌≡◌, ◌+◌, ◌*◌, ◌<◌, ◌≤◌, [], ◌∷◌, None, Some, not, length, map, All, IfOk, IfSome, MatchOption};
ghost use Rattle.std.specs.Str.{is_utf8};
ghost use Rattle.ror_text.specs.declared.lines.TheConstants.{MOST_TEXT_BYTES};
ghost use Rattle.ror_text.specs.Lines.{numbered_lines_from, numbered_lines, bad_utf8_line};
ghost use Rattle.ror_text.specs.Reading.{Gives, refuse, need, read_all};
ghost use Rattle.ror_table.specs.declared.fault.TableKind.TheVariants.{NotUtf8, BadNumber, Empty, TooMany, WideScale};
ghost use Rattle.ror_table.specs.declared.fault.What.TheVariants.{Steps};
ghost use Rattle.ror_table.specs.Amounts.{IsAmount};
ghost use Rattle.ror_table.specs.Draft.{finished};
ghost use Rattle.ror_table.specs.Table.{IsTable};
ghost use Rattle.ror_table.specs.Plain as spec;
ghost use Rattle.ror_table.specs.Plain.{table_fault, at_line, body_line, after_head, plain_table};
ghost use Rattle.ror_table.specs.Spellings.{performance_in};

use crate::amount::Amount;
use crate::direction::{Direction, Scale};
use crate::draft::Draft;
use crate::fault::{DraftFault, TableError, TableFault, TableKind, What};
use crate::limits::{MOST_ALTERNATIVES, MOST_CLASSES, MOST_CRITERIA};
use crate::spelling::{read_amount, read_whole};
use crate::table::Table;
use ror_text::ids::id_text;
use ror_text::lines::{MOST_TEXT_BYTES, bad_utf8_line, has_control, next_line, word_at};
use ror_text::numbers::read_count;
use ror_text::reading::{need, refuse_if};
use std::alloc::{AllocError, Global};

/// Which of the three kinds of plain table it is, by the number in its first line: a `ror-table 1` has whole numbers, a
/// `ror-table 2` decimals and ratios besides, and a `ror-table 3` linear criteria besides these.
#[derive(Clone, Copy, Debug, PartialEq, Eq)]
pub enum Version {
    One,
    Two,
    Three,
}

fn fault(kind: TableKind, line: u32) -> TableError
    ensures { result ≡ TableError.Bad (at_line line kind) }
{
    TableError::Bad(TableFault { kind, line })
}

fn direction_of(word: &[u8]) -> Option<Direction>
    ensures { result ≡ spec.direction_of word.now }
{
    if word == b"max".as_slice() {
        Some(Direction::Max)
    } else if word == b"min".as_slice() {
        Some(Direction::Min)
    } else {
        None
    }
}

fn version_of(word: &[u8]) -> Option<Version>
    ensures { result ≡ spec.version_of word.now }
{
    match word {
        b"1" => Some(Version::One),
        b"2" => Some(Version::Two),
        b"3" => Some(Version::Three),
        _ => None,
    }
}

fn head_of(words: &[&[u8]]) -> Option<Version>
    ensures { result ≡ spec.head_of (map (λ word. word.now) words.now) }
{
    if words.len() != 2 {
        return None;
    }
    if word_at(words, 0) != b"ror-table".as_slice() {
        return None;
    }
    version_of(word_at(words, 1))
}

fn takes_linear(version: Version) -> bool
    ensures { result ≡ spec.takes_linear version }
{
    matches!(version, Version::Three)
}

fn linear_of(version: Version, words: &[&[u8]]) -> Option<bool>
    ensures { result ≡ spec.linear_of version (map (λ word. word.now) words.now) }
{
    if words.len() == 3 {
        return Some(false);
    }
    if !takes_linear(version) {
        return None;
    }
    if words.len() != 4 {
        return None;
    }
    if word_at(words, 3) == b"linear".as_slice() {
        Some(true)
    } else {
        None
    }
}

fn read_performance(version: Version, word: &[u8]) -> Option<Amount>
    ensures value { result ≡ performance_in version word.now }
    ensures amount { IfSome result IsAmount }
{
    match version {
        Version::One => read_whole(word),
        Version::Two | Version::Three => read_amount(word),
    }
}

/// The performances that words write.
fn performances_of(
    alloc: Global,
    version: Version,
    line: u32,
    words: &[&[u8]],
) -> Result<Vec<Amount>, TableError>
    ensures exact { Gives (λ v. v.items) table_fault result
        (need (at_line line BadNumber)
        (spec.performances_of version (map (λ word. word.now) words.now))) }
    ensures number { IfOk result (λ v. length v.items ≡ length words.now) }
    ensures amounts { IfOk result (λ v. All IsAmount v.items) }
{
    let mut performances = Vec::new(alloc);
    for word in words {
        let performance = need(
            read_performance(version, word),
            fault(TableKind::BadNumber, line),
        )?;
        performances.push(performance)?;
    }
    Ok(performances)
}

/// A line `criterion ID max` or `criterion ID min`, with `linear` behind it where the table may have that.
#[tactic(auto, unfolding(crate::specs::Plain::criterion_line, crate::specs::Draft::with_criterion))]
fn criterion_line(
    draft: &mut Draft,
    version: Version,
    line: u32,
    words: &[&[u8]],
) -> Result<(), TableError>
    ensures { Gives (λ _. draft.new) table_fault result
        (spec.criterion_line version line draft.old (map (λ word. word.now) words.now)) }
{
    refuse_if(words.len() < 3, fault(TableKind::BadLine, line))?;
    let direction = need(
        direction_of(word_at(words, 2)),
        fault(TableKind::BadLine, line),
    )?;
    let linear = need(linear_of(version, words), fault(TableKind::BadLine, line))?;
    refuse_if(draft.is_past_criteria(), fault(TableKind::BadLine, line))?;
    let id = need(id_text(word_at(words, 1)), fault(TableKind::BadLine, line))?;
    refuse_if(
        draft.find_criterion(id).is_some(),
        fault(TableKind::RepeatedId, line),
    )?;
    refuse_if(
        draft.criteria_count() >= MOST_CRITERIA,
        fault(TableKind::TooMany(What::Criteria), line),
    )?;
    draft.put_criterion(id, Scale { direction, linear })?;
    Ok(())
}

/// A line `classes COUNT`.
#[tactic(auto, unfolding(crate::specs::Plain::classes_line))]
fn classes_line(draft: &mut Draft, line: u32, words: &[&[u8]]) -> Result<(), TableError>
    ensures { Gives (λ _. draft.new) table_fault result
        (spec.classes_line line draft.old (map (λ word. word.now) words.now)) }
{
    refuse_if(words.len() != 2, fault(TableKind::BadLine, line))?;
    refuse_if(draft.is_past_criteria(), fault(TableKind::BadLine, line))?;
    let count = need(
        read_count(word_at(words, 1)),
        fault(TableKind::BadNumber, line),
    )?;
    refuse_if(count == 0, fault(TableKind::BadNumber, line))?;
    refuse_if(
        count > MOST_CLASSES,
        fault(TableKind::TooMany(What::Classes), line),
    )?;
    draft.classes(count);
    Ok(())
}

/// A line `alternative ID PERFORMANCE ..`.
#[tactic(auto, unfolding(crate::specs::Plain::alternative_line))]
fn alternative_line(
    alloc: Global,
    draft: &mut Draft,
    version: Version,
    line: u32,
    words: &[&[u8]],
) -> Result<(), TableError>
    ensures { Gives (λ _. draft.new) table_fault result
        (spec.alternative_line version line draft.old (map (λ word. word.now) words.now)) }
{
    let due = draft.criteria_count() + 2;
    refuse_if(words.len() < 2, fault(TableKind::BadLine, line))?;
    refuse_if(words.len() > due, fault(TableKind::BadLine, line))?;
    let id = need(id_text(word_at(words, 1)), fault(TableKind::BadLine, line))?;
    refuse_if(
        draft.find_alternative(id).is_some(),
        fault(TableKind::RepeatedId, line),
    )?;
    refuse_if(
        words.len() < due,
        fault(TableKind::MissingPerformance, line),
    )?;
    let performances = performances_of(alloc, version, line, &words[2..])?;
    refuse_if(
        draft.alternatives_count() >= MOST_ALTERNATIVES,
        fault(TableKind::TooMany(What::Alternatives), line),
    )?;
    draft.put_alternative(id, &performances)?;
    Ok(())
}

/// A line, by its first word.
#[tactic(auto, unfolding(crate::specs::Plain::known_line))]
fn known_line(
    alloc: Global,
    draft: &mut Draft,
    version: Version,
    line: u32,
    words: &[&[u8]],
) -> Result<(), TableError>
    ensures { Gives (λ _. draft.new) table_fault result
        (spec.known_line version line draft.old (map (λ word. word.now) words.now)) }
{
    let word = word_at(words, 0);
    if word == b"criterion".as_slice() {
        criterion_line(draft, version, line, words)
    } else if word == b"classes".as_slice() {
        classes_line(draft, line, words)
    } else if word == b"alternative".as_slice() {
        alternative_line(alloc, draft, version, line, words)
    } else {
        Err(fault(TableKind::BadLine, line))
    }
}

/// A line after the first.
#[tactic(auto, unfolding(crate::specs::Plain::body_line))]
fn body_line(
    alloc: Global,
    draft: &mut Draft,
    version: Version,
    line: u32,
    words: &[&[u8]],
) -> Result<(), TableError>
    ensures { Gives (λ _. draft.new) table_fault result
        (body_line version draft.old (line, map (λ word. word.now) words.now)) }
{
    refuse_if(has_control(words), fault(TableKind::BadLine, line))?;
    known_line(alloc, draft, version, line, words)
}

/// What the first line says, and the lines after it: the number of the next one, and the bytes from it on.
#[derive(Drop)]
struct Begun<'a> {
    version: Version,
    number: u32,
    rest: &'a [u8],
}

/// The first line, which has to be `ror-table 1`, `ror-table 2` or `ror-table 3`.
fn after_head(alloc: Global, bytes: &[u8]) -> Result<Begun, TableError>
    requires { length bytes.now ≤ MOST_TEXT_BYTES }
    ensures exact { Gives (λ begun. record {
      version = begun.version;
      rest = numbered_lines_from begun.number begun.rest.now;
    }) table_fault result
        (after_head (numbered_lines bytes.now)) }
    ensures shorter { IfOk result (λ begun. begun.number + length begun.rest.now ≤ 1 + length bytes.now) }
{
    match next_line(alloc, 1, bytes)? {
        None => Err(fault(TableKind::Form, 1)),
        Some(line) => match head_of(&line.words) {
            Some(version) => Ok(Begun {
                version,
                number: line.number + 1,
                rest: line.rest,
            }),
            None => Err(fault(TableKind::Form, line.number)),
        },
    }
}

/// The lines after the first, added to a draft.
fn read_lines(
    alloc: Global,
    draft: &mut Draft,
    version: Version,
    first: u32,
    bytes: &[u8],
) -> Result<(), TableError>
    requires { first + length bytes.now ≤ 2 * MOST_TEXT_BYTES }
    ensures { Gives (λ _. draft.new) table_fault result
        (read_all (body_line version) draft.old (numbered_lines_from first bytes.now)) }
{
    let mut number = first;
    let mut left = bytes;
    'lines: while let Some(line) = next_line(alloc, number, left)? {
        body_line(alloc, draft, version, line.number, &line.words)?;
        number = line.number + 1;
        left = line.rest;
    }
    Ok(())
}

/// The table of a draft that a file's text gave. A draft that lacks something, has too many steps, or a linear criterion of too
/// wide a scale, is a fault of no line.
#[tactic(auto, unfolding(crate::specs::Draft::finished))]
pub fn whole_table(draft: Draft) -> Result<Table, TableError>
    ensures exact { Gives (λ t. t) table_fault result
        (finished (at_line 0 Empty) (at_line 0 (TooMany Steps)) (at_line 0 WideScale) draft) }
    ensures table { IfOk result IsTable }
{
    match draft.finish() {
        Ok(table) => Ok(table),
        Err(DraftFault::Empty) => Err(fault(TableKind::Empty, 0)),
        Err(DraftFault::TooMany(what)) => Err(fault(TableKind::TooMany(what), 0)),
        Err(DraftFault::WideScale) => Err(fault(TableKind::WideScale, 0)),
        Err(_) => Err(TableError::Memory),
    }
}

/// Whether the bytes are UTF-8.
fn check_utf8(bytes: &[u8]) -> Result<(), TableError>
    requires { length bytes.now ≤ MOST_TEXT_BYTES }
    ensures { Gives (λ _. tt) table_fault result
        (refuse (at_line (bad_utf8_line bytes.now) NotUtf8) (not (is_utf8 bytes.now))) }
{
    match bad_utf8_line(bytes) {
        None => Ok(()),
        Some(line) => Err(fault(TableKind::NotUtf8, line)),
    }
}

/// Reads a plain table: the table, or the first fault of the text.
#[tactic(auto, unfolding(crate::specs::Plain::plain_table))]
pub fn read_plain(alloc: Global, bytes: &[u8]) -> Result<Table, TableError>
    ensures exact { Gives (λ t. t) table_fault result (plain_table bytes.now) }
    ensures table { IfOk result IsTable }
{
    refuse_if(bytes.len() > MOST_TEXT_BYTES, fault(TableKind::TooLong, 0))?;
    check_utf8(bytes)?;
    let begun = after_head(alloc, bytes)?;
    let mut draft = Draft::new(alloc);
    read_lines(alloc, &mut draft, begun.version, begun.number, begun.rest)?;
    whole_table(draft)
}
