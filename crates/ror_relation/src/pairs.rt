//! The ordered pairs of alternatives, and the questions on the preference relations.

ghost use Rattle.std.specs.Prelude.{◌≡◌, ◌++◌, ◌*◌, ◌-◌, length, IfOk, OnOk};
ghost use Rattle.std.specs.List.{AllByRecursion};
ghost use Rattle.ror_relation.specs.Pairs as pairs;

use ror_statement::Question;
use std::alloc::{AllocError, Global};

/// The ordered pairs of different ones among so many alternatives: those of the first with each other one, in order, then those
/// of the second, and so on.
///
/// # Errors
///
/// Only want of memory.
pub fn ordered_pairs(alloc: Global, alternatives: usize) -> Result<Vec<(usize, usize)>, AllocError>
    ensures pairs { IfOk result (λ made. made.items ≡ pairs.ordered_pairs alternatives) }
    ensures different { IfOk result (λ made.
        AllByRecursion (pairs.AreDifferentOf alternatives) made.items) }
    ensures count { IfOk result (λ made.
        length made.items ≡ alternatives * (alternatives - 1)) }
{
    let mut made = Vec::new(alloc);
    for a in 0..alternatives {
        push_pairs(&mut made, alternatives, a)?;
    }
    Ok(made)
}

/// Adds those of one alternative and each other one.
fn push_pairs(
    made: &mut Vec<(usize, usize)>,
    alternatives: usize,
    a: usize,
) -> Result<(), AllocError>
    ensures { OnOk result (made.new.items ≡ made.old.items ++ pairs.pairs_from alternatives a) }
{
    for b in 0..alternatives {
        push_different(made, a, b)?;
    }
    Ok(())
}

/// Adds the pair, unless it is of one alternative.
fn push_different(made: &mut Vec<(usize, usize)>, a: usize, b: usize) -> Result<(), AllocError>
    ensures { OnOk result (made.new.items ≡ made.old.items ++ pairs.pair_of_different a b) }
{
    if a != b {
        made.push((a, b))?;
    }
    Ok(())
}

/// The questions on the necessary and the possible preference relation among so many alternatives: both for each ordered
/// pair of different ones, in order.
///
/// # Errors
///
/// Only want of memory.
pub fn relation_questions(alloc: Global, alternatives: usize) -> Result<Vec<Question>, AllocError>
    ensures { IfOk result (λ questions. questions.items ≡ pairs.relation_questions alternatives) }
{
    let pairs = ordered_pairs(alloc, alternatives)?;
    let mut questions = Vec::new(alloc);
    for pair in pairs.as_slice() {
        questions.push(Question::Necessary(pair.0, pair.1))?;
        questions.push(Question::Possible(pair.0, pair.1))?;
    }
    Ok(questions)
}
