//! A span of a pair, found by a search that decides, and checked.

ghost use Rattle.std.specs.Prelude.{◌<◌, length, IfOk, OnOk};
ghost use Rattle.ror_statement.specs.Statements.{statements_in};
ghost use Rattle.ror_value.specs.Over.{IsLawfulIn};
ghost use Rattle.ror_confidence.specs.Levels.{AreLevelsOf};
ghost use Rattle.ror_pivot.specs.Answers.{most_of};
ghost use Rattle.ror_given.specs.Answers.{IsGiven};

use ror_confidence::{Decider, Levelled, Levels, Span, check_span, find_span, read_levels};
use ror_made::{may_stand, three_alternatives};
use ror_pivot::Bits;
use ror_proof::Answer;
use ror_relation::decide;
use ror_statement::{Numbered, Pair, Question, Statement};
use ror_table::Table;
use std::alloc::{AllocError, Global};
use std::test::Fail;

const A_OVER_B: &[Numbered] = &[Numbered {
    number: 1,
    statement: Statement::Prefer(0, 1),
}];

const FIRST_TWO: Pair = Pair {
    first: 0,
    second: 1,
};

/// Two levels, of which the second alone has the statement.
const TWO_LEVELS: &[u8] = b"ror-levels 1\ncount 2\nput 1 2\n";

/// Decides each question anew, and counts them.
#[derive(Drop)]
struct Counting {
    asked: u32,
}

impl Decider for Counting {
    fn decide(
        &mut self,
        alloc: Global,
        table: &Table,
        list: &[Statement],
        q: &Question,
        bits: Bits,
    ) -> Result<Answer, AllocError> {
        self.asked = self.asked.saturating_add(1);
        decide(alloc, table, list, q, bits)
    }
}

/// The levels of this text.
fn levels_in(alloc: Global, standing: &[Numbered], text: &[u8]) -> Result<Levels, Fail>
    ensures { IfOk result (AreLevelsOf standing.now) }
{
    match read_levels(alloc, standing, text) {
        Ok(levels) => Ok(levels),
        Err(_) => Err(Fail::new("these are levels")),
    }
}

/// Says so where the statements may not stand, or the table has no pair.
fn need_a_pair(alloc: Global, table: &Table, standing: &[Numbered]) -> Result<(), Fail>
    ensures lawful { OnOk result (IsLawfulIn table.now (statements_in standing.now)) }
    ensures two { OnOk result (1 < length table.now.alternatives) }
{
    if !may_stand(alloc, table, standing)? || table.alternatives() < 2 {
        return Err(Fail::new("the statements may stand, and there is a pair"));
    }
    Ok(())
}

/// The span of the first two alternatives, and how often the decider was asked.
fn found(
    alloc: Global,
    table: &Table,
    standing: &[Numbered],
    text: &[u8],
) -> Result<(Span, u32), Fail> {
    need_a_pair(alloc, table, standing)?;
    let levels = levels_in(alloc, standing, text)?;
    let mut decider = Counting { asked: 0 };
    let levelled = Levelled {
        standing,
        levels: &levels,
    };
    match find_span(alloc, &mut decider, table, levelled, FIRST_TWO, Bits::B127) {
        Ok(span) => Ok((span, decider.asked)),
        Err(_) => Err(Fail::new("nothing is too wide")),
    }
}

/// Where the span's statements contradict each other, where a preference is necessary, and where it is possible.
fn ends_of(x: &Span) -> (u32, u32, u32) {
    (x.contradictory, x.necessary, x.possible)
}

/// Whether a check of a span of the first two alternatives accepts it.
fn is_accepted(
    alloc: Global,
    table: &Table,
    standing: &[Numbered],
    text: &[u8],
    x: &Span,
) -> Result<bool, Fail> {
    need_a_pair(alloc, table, standing)?;
    let levels = levels_in(alloc, standing, text)?;
    let levelled = Levelled {
        standing,
        levels: &levels,
    };
    Ok(check_span(alloc, table, levelled, FIRST_TWO, x).is_ok())
}

// Two levels for the base, and each of two levels for each of two questions, are decided at most.
#[test]
fn a_span_is_found_and_accepted_at_its_level_alone(rt: HostRuntime) -> Result<(), Fail> {
    let table = three_alternatives(rt.alloc())?;
    let (mut x, asked) = found(rt.alloc(), &table, A_OVER_B, TWO_LEVELS)?;
    assert!(rt; asked <= 6);
    assert!(rt; ends_of(&x) == (3, 2, 2));
    assert!(rt; is_accepted(rt.alloc(), &table, A_OVER_B, TWO_LEVELS, &x)?);
    x.necessary = 1;
    assert!(rt; !is_accepted(rt.alloc(), &table, A_OVER_B, TWO_LEVELS, &x)?);
    Ok(())
}
