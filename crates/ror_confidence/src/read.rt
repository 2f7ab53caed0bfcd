//! The reader of a file of levels.

ghost use Rattle.std.specs.Prelude.{◌≡◌, ◌<◌, ◌≤◌, ◌+◌, ◌^◌, ◌++◌, [], ◌∷◌, Ok, nat_eq, length, map, IfOk};
ghost use Rattle.std.specs.List.{list_any};
ghost use Rattle.ror_text.specs.Lines.{line_count, numbered_lines, numbered_lines_from};
ghost use Rattle.ror_text.specs.Reading.{Gives, read_all};
ghost use Rattle.ror_confidence.specs.Levels.{AreLevelsOf};
ghost use Rattle.ror_confidence.specs.Reading as spec;
ghost use Rattle.ror_confidence.specs.Reading.{add_line, counted_lines, levels_fault, levels_of};

use crate::fault::LevelsFault;
use crate::levels::{Levels, MOST_LEVELS};
use ror_statement::Numbered;
use ror_text::Items;
use ror_text::lines::{NumberedLine, first_line, is_utf8, next_line, word_at};
use ror_text::numbers::read_count;
use ror_text::reading::{need, refuse_if};
use std::alloc::Global;

/// The greatest length of a file of levels, in bytes.
pub const MOST_LEVELS_BYTES: usize = 1_048_576;

/// `ror-levels 1`.
#[tactic(auto, unfolding(crate::specs::Reading::header))]
fn read_header(line: u32, words: &[&[u8]]) -> Result<(), LevelsFault>
    ensures { Gives (λ x. x) levels_fault result
        (spec.header (line, map (λ word. word.now) words.now)) }
{
    refuse_if(words.len() != 2, LevelsFault::BadLine(line))?;
    refuse_if(
        word_at(words, 0) != b"ror-levels".as_slice(),
        LevelsFault::BadLine(line),
    )?;
    refuse_if(
        word_at(words, 1) != b"1".as_slice(),
        LevelsFault::BadLine(line),
    )
}

/// `count N`.
#[tactic(auto, unfolding(crate::specs::Reading::level_count))]
fn read_level_count(line: u32, words: &[&[u8]]) -> Result<u32, LevelsFault>
    ensures { Gives (λ n. n) levels_fault result
        (spec.level_count (line, map (λ word. word.now) words.now)) }
{
    refuse_if(words.len() != 2, LevelsFault::BadLine(line))?;
    refuse_if(
        word_at(words, 0) != b"count".as_slice(),
        LevelsFault::BadLine(line),
    )?;
    let n = need(read_count(word_at(words, 1)), LevelsFault::BadLine(line))?;
    refuse_if(n == 0 || n > MOST_LEVELS, LevelsFault::BadLine(line))?;
    Ok(n)
}

/// `put NUMBER LEVEL`.
#[tactic(auto, unfolding(crate::specs::Reading::placement))]
fn read_placement(count: u32, line: u32, words: &[&[u8]]) -> Result<(u32, u32), LevelsFault>
    ensures { Gives (λ p. p) levels_fault result
        (spec.placement count (line, map (λ word. word.now) words.now)) }
{
    refuse_if(words.len() != 3, LevelsFault::BadLine(line))?;
    refuse_if(
        word_at(words, 0) != b"put".as_slice(),
        LevelsFault::BadLine(line),
    )?;
    let number = need(read_count(word_at(words, 1)), LevelsFault::BadLine(line))?;
    let level = need(read_count(word_at(words, 2)), LevelsFault::BadLine(line))?;
    refuse_if(level == 0 || level > count, LevelsFault::BadLine(line))?;
    Ok((number, level))
}

/// Whether a line before puts the statement with this number.
fn is_put(put: &[(u32, u32)], number: u32) -> bool
    ensures { result ≡ list_any (λ p. nat_eq number p.0) put.now }
{
    put.iter().any(|p| number == p.0)
}

/// Whether a statement with this number stands.
fn stands(standing: &[Numbered], number: u32) -> bool
    ensures { result ≡ list_any (λ x. nat_eq number x.number) standing.now }
{
    standing.iter().any(|x| number == x.number)
}

/// What the next line puts.
#[tactic(auto, unfolding(crate::specs::Reading::add_line))]
fn read_next(
    standing: &[Numbered],
    count: u32,
    put: &[(u32, u32)],
    line: u32,
    words: &[&[u8]],
) -> Result<(u32, u32), LevelsFault>
    ensures { Gives (λ p. record { count = count; put = put.now ++ p ∷ [] }) levels_fault result
        (spec.add_line standing.now (record { count = count; put = put.now })
        (line, map (λ word. word.now) words.now)) }
{
    let placed = read_placement(count, line, words)?;
    refuse_if(is_put(put, placed.0), LevelsFault::Repeated(line))?;
    refuse_if(
        !stands(standing, placed.0),
        LevelsFault::UnknownStatement(line),
    )?;
    Ok(placed)
}

/// How many lines there are.
fn count_lines(bytes: &[u8]) -> u32
    requires { length bytes.now < 2 ^ 31 }
    ensures value { result ≡ line_count bytes.now }
    ensures small { result < 2 ^ 31 }
{
    let mut rest = bytes;
    let mut count = 0;
    'lines: while let Some((_, after)) = first_line(rest) {
        rest = after;
        count += 1;
    }
    count
}

/// The levels of the lines after the count, the first of which has this number.
fn read_placements(
    alloc: Global,
    standing: &[Numbered],
    count: u32,
    first: u32,
    bytes: &[u8],
) -> Result<Levels, LevelsFault>
    requires { first + length bytes.now < 2 ^ 32 }
    ensures { Gives (λ levels. levels) levels_fault result
        (read_all (add_line standing.now) (record { count = count; put = [] })
        (numbered_lines_from first bytes.now)) }
{
    let mut put = Vec::new(alloc);
    let mut rest = bytes;
    let mut number = first;
    'lines: while let Some(line) = next_line(alloc, number, rest)? {
        put.push(read_next(standing, count, &put, line.number, &line.words)?)?;
        number = line.number + 1;
        rest = line.rest;
    }
    Ok(Levels {
        count,
        put: Items::from(put),
    })
}

/// The levels of the lines after the header, the first of which has this number.
fn read_counted(
    alloc: Global,
    standing: &[Numbered],
    past: u32,
    first: u32,
    bytes: &[u8],
) -> Result<Levels, LevelsFault>
    requires { first + length bytes.now < 2 ^ 32 }
    ensures { Gives (λ levels. levels) levels_fault result
        (counted_lines standing.now past (numbered_lines_from first bytes.now)) }
{
    match next_line(alloc, first, bytes)? {
        Some(line) => {
            let count = read_level_count(line.number, &line.words)?;
            read_placements(alloc, standing, count, line.number + 1, line.rest)
        }
        None => Err(LevelsFault::BadLine(past)),
    }
}

/// Reads a file of levels for the statements that stand: the levels, or the first fault of the text.
///
/// The file has the line `ror-levels 1`, the line `count N`, N from 1 to 9, and a line `put NUMBER LEVEL` for each statement that
/// is put on a level from 1 to N.
#[tactic(auto, unfolding(crate::specs::Reading::levels_of))]
pub fn read_levels(
    alloc: Global,
    standing: &[Numbered],
    bytes: &[u8],
) -> Result<Levels, LevelsFault>
    ensures exact { Gives (λ levels. levels) levels_fault result
        (levels_of standing.now bytes.now) }
    ensures sound { IfOk result (AreLevelsOf standing.now) }
{
    refuse_if(bytes.len() > MOST_LEVELS_BYTES, LevelsFault::TooLong)?;
    refuse_if(!is_utf8(bytes), LevelsFault::NotUtf8)?;
    let past = count_lines(bytes) + 1;
    match next_line(alloc, 1, bytes)? {
        Some(line) => {
            read_header(line.number, &line.words)?;
            read_counted(alloc, standing, past, line.number + 1, line.rest)
        }
        None => Err(LevelsFault::BadLine(past)),
    }
}
