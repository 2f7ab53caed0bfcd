//! An entry of a group that is read and checked at once, with all judges' lists.

ghost use Rattle.std.specs.Prelude.{IsTrue};
ghost use Rattle.std.specs.List.{AllByRecursion};
ghost use Rattle.ror_value.specs.Over.{IsLawfulIn};

use ror_group::{List, check_pair, read_entry};
use ror_made::{is_lawful, three_alternatives};
use ror_statement::{Pair, Statement};
use ror_table::Table;
use ror_text::Items;
use std::alloc::{AllocError, Global};
use std::test::Fail;

const A_OVER_B: &[Statement] = &[Statement::Prefer(0, 1)];

/// The only judge has a above b. The row of a over b is (0, 1, 0, -1).
const SETTLED: &[u8] = b"pair a b
answer necessary a b yes
base solution 0 1 0 0
part 1 multipliers | 0 1 1
answer possible a b yes
base solution 0 1 0 0
part 1 solution 0 1 0 0
group yes yes yes yes
";

const NOBODY: &[u8] = b"pair a b\ngroup yes no yes no\n";

/// Whether all lists may be those of judges.
fn are_lawful(table: &Table, lists: &[List]) -> bool
    ensures { IsTrue result
        → AllByRecursion (λ list. IsLawfulIn table.now list.statements) lists.now }
{
    match lists {
        [] => true,
        [first, rest @ ..] => {
            is_lawful(table, first.statements.as_slice()) && are_lawful(table, rest)
        }
    }
}

fn one_list(alloc: Global) -> Result<Vec<List>, AllocError> {
    let mut statements = Vec::new(alloc);
    statements.extend_from_slice(A_OVER_B)?;
    let mut lists = Vec::new(alloc);
    lists.push(List {
        statements: Items::from(statements),
    })?;
    Ok(lists)
}

/// Whether a check of the entry over these lists accepts it.
fn is_accepted(alloc: Global, table: &Table, lists: &[List], text: &[u8]) -> Result<bool, Fail> {
    let (x, _) = read_entry(alloc, table, text, 0)
        .ok()
        .ok_or("this is an entry")?;
    let count = table.alternatives();
    if !are_lawful(table, lists) || lists.len() > 64 || x.first >= count || x.second >= count {
        return Err(Fail::new("the lists are lawful and few, and the alternatives are there"));
    }
    let answers = x.answers.as_slice();
    let pair = Pair {
        first: x.first,
        second: x.second,
    };
    Ok(check_pair(alloc, table, lists, pair, answers, &x.quartet).is_ok())
}

#[test]
fn a_pair_is_accepted_with_its_answers_alone(rt: HostRuntime) -> Result<(), Fail> {
    let table = three_alternatives(rt.alloc())?;
    let lists = one_list(rt.alloc())?;
    assert!(rt; is_accepted(rt.alloc(), &table, lists.as_slice(), SETTLED)?);
    assert!(rt; !is_accepted(rt.alloc(), &table, lists.as_slice(), NOBODY)?);
    Ok(())
}
