//! Answers and repairs as texts of their own.

use ror_made::{is_asked, three_alternatives};
use ror_proof::{print_answer, print_kept, read_answer, read_kept};
use ror_table::Table;
use std::alloc::Global;
use std::test::Fail;

const ANSWER: &[u8] =
    b"answer possible a b b c on p no\nbase solution 0 -1\npart 1 multipliers 1 | 0 1\n";

/// The text that is printed of the answer whose text this is.
fn answer_again(alloc: Global, table: &Table, text: &[u8]) -> Result<Vec<u8>, Fail> {
    let (answer, _) = read_answer(alloc, table, text, 0)?;
    if !is_asked(table, &answer.question) {
        return Err(Fail::from("this question is valid"));
    }
    Ok(print_answer(alloc, table, &answer)?)
}

#[test]
fn an_answer_is_read_and_printed_again(rt: HostRuntime) -> Result<(), Fail> {
    let table = three_alternatives(rt.alloc())?;
    let text = answer_again(rt.alloc(), &table, ANSWER)?;
    assert!(rt; text.as_slice() == ANSWER);
    Ok(())
}

const REPAIR: &[u8] = b"repaired 1\ndropped 2 multipliers | 0 1 1\nbase solution 0 1 0 0\n";

/// The text that is printed of the repair whose text this is.
fn repair_again(alloc: Global, text: &[u8]) -> Result<Vec<u8>, Fail> {
    let (kept, _) = read_kept(alloc, text, 0)?;
    Ok(print_kept(alloc, &kept)?)
}

#[test]
fn a_repair_is_read_and_printed_again(rt: HostRuntime) -> Result<(), Fail> {
    let text = repair_again(rt.alloc(), REPAIR)?;
    assert!(rt; text.as_slice() == REPAIR);
    Ok(())
}
