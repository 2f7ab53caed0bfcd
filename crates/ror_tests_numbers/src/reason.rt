//! Reasons at a width at which the lists are too wide to decide. `ror_show` finds reasons at 127 bits alone.

ghost use Rattle.std.specs.List.Sorted.{IsStrictlyIncreasing};
ghost use Rattle.ror_statement.specs.Statements.{numbers_in, statements_in};
ghost use Rattle.ror_value.specs.Over.{IsLawfulIn, IsAskedIn};
ghost use Rattle.ror_check.specs.Proof.{IsProvedAnswer};

use ror_made::{is_asked, may_stand};
use ror_pivot::Bits;
use ror_proof::{Answer, Verdict};
use ror_reason::{Reason, reduct, reduct_of};
use ror_relation::decide_warm;
use ror_statement::{Numbered, Question, Statement, statements_in};
use ror_table::{Table, read_plain};
use ror_warm::Engine;
use std::alloc::{AllocError, Global};
use std::test::Fail;

const FAR: &[u8] = b"ror-table 3
criterion q max linear
criterion p max
criterion r max
alternative a 0 1 0
alternative b 1 0 0
alternative c 40000 0 0
alternative d 0 0 0
alternative e 39999 0 0
alternative f 0 0 1
";

/// What is found of the reason of an answer.
#[derive(Clone, Copy, PartialEq)]
enum Kind {
    One(u32),
    Wide,
    WhollyWide,
    Other,
}

/// What the one reason is.
fn kind_of(reasons: &[Reason]) -> Kind {
    match reasons {
        [Reason::Wide { .. }] => Kind::Wide,
        [Reason::WhollyWide { .. }] => Kind::WhollyWide,
        [Reason::Carried(reduct)] => match reduct.numbers.as_slice() {
            [one] => Kind::One(*one),
            _ => Kind::Other,
        },
        _ => Kind::Other,
    }
}

/// The reason alone.
fn alone(alloc: Global, reason: Reason) -> Result<Vec<Reason>, AllocError> {
    let mut reasons = Vec::new(alloc);
    reasons.push(reason)?;
    Ok(reasons)
}

/// The reason on 15 bits.
fn reasons(
    alloc: Global,
    table: &Table,
    list: &[Numbered],
    question: &Question,
) -> Result<Vec<Reason>, AllocError>
    requires lawful { IsLawfulIn table.now (statements_in list.now) }
    requires rising { IsStrictlyIncreasing (numbers_in list.now) }
    requires asked { IsAskedIn table.now question.now }
{
    let reason = reduct(alloc, table, list, question, Bits::B15)?;
    alone(alloc, reason)
}

/// What is found on 15 bits.
fn find(
    alloc: Global,
    table: &Table,
    list: &[Numbered],
    question: &Question,
) -> Result<Kind, Fail> {
    if !may_stand(alloc, table, list)? || !is_asked(table, question) {
        return Err(Fail::new("the list is lawful and the question valid"));
    }
    let found = reasons(alloc, table, list, question)?;
    Ok(kind_of(found.as_slice()))
}

/// The reason on 15 bits of an answer that has its proof.
fn reasons_of(
    alloc: Global,
    engine: &mut Engine,
    table: &Table,
    list: &[Numbered],
    answer: &Answer,
) -> Result<Vec<Reason>, AllocError>
    requires lawful { IsLawfulIn table.now (statements_in list.now) }
    requires rising { IsStrictlyIncreasing (numbers_in list.now) }
    requires asked { IsAskedIn table.now answer.now.question }
    requires proved { IsProvedAnswer table.now (statements_in list.now) answer.now.question answer.now }
{
    let reason = reduct_of(alloc, engine, table, list, answer, Bits::B15)?;
    alone(alloc, reason)
}

/// The reason on 15 bits of an answer that was decided on 127, and none where that is too wide.
fn known_reasons(
    alloc: Global,
    table: &Table,
    list: &[Numbered],
    question: &Question,
) -> Result<Vec<Reason>, AllocError>
    requires lawful { IsLawfulIn table.now (statements_in list.now) }
    requires rising { IsStrictlyIncreasing (numbers_in list.now) }
    requires asked { IsAskedIn table.now question.now }
{
    let engine = &mut Engine::new(alloc);
    let statements = statements_in(alloc, list)?;
    let list_alone = statements.as_slice();
    let answer = decide_warm(alloc, engine, table, list_alone, question, Bits::B127)?;
    if matches!(answer.verdict, Verdict::Wide { .. }) {
        Ok(Vec::new(alloc))
    } else {
        reasons_of(alloc, engine, table, list, &answer)
    }
}

/// What is found on 15 bits of an answer that was decided on 127.
fn find_known(
    alloc: Global,
    table: &Table,
    list: &[Numbered],
    question: &Question,
) -> Result<Kind, Fail> {
    if !may_stand(alloc, table, list)? || !is_asked(table, question) {
        return Err(Fail::new("the list is lawful and the question valid"));
    }
    let found = known_reasons(alloc, table, list, question)?;
    Ok(kind_of(found.as_slice()))
}

fn said(number: u32, statement: Statement) -> Numbered {
    Numbered { number, statement }
}

// By 5 p counts for at least 40,000 of q, by 7 for at most 39,999, and by 6 q counts. Without 7 a function has at least 40,000 in p,
// which is too wide on 15 bits, so it isn't known whether 7 can be spared; without 5 or 6 a small one is compatible.
#[test]
fn what_is_too_wide_to_decide_is_kept(rt: HostRuntime) -> Result<(), Fail> {
    let table = read_plain(rt.alloc(), FAR)?;
    let list = [
        said(5, Statement::AtLeast(0, 2)),
        said(6, Statement::Prefer(1, 3)),
        said(7, Statement::AtLeast(4, 0)),
    ];
    let narrow = find(rt.alloc(), &table, &list, &Question::Consistent)?;
    assert!(rt; narrow == Kind::Wide);
    Ok(())
}

// With 6 besides 5 a function has more than 40,000 in p. So on 15 bits nothing is concluded over both; of an answer that is known
// the part of 5 is found all the same, over which one has 1 in p and nothing else.
#[test]
fn what_is_known_has_a_reduct_where_the_list_is_too_wide(rt: HostRuntime) -> Result<(), Fail> {
    let table = read_plain(rt.alloc(), FAR)?;
    let list = [
        said(5, Statement::Prefer(0, 2)),
        said(6, Statement::Prefer(1, 3)),
    ];
    let question = Question::Necessary(0, 2);
    let narrow = find(rt.alloc(), &table, &list, &question)?;
    let known = find_known(rt.alloc(), &table, &list, &question)?;
    assert!(rt; narrow == Kind::WhollyWide);
    assert!(rt; known == Kind::One(5));
    Ok(())
}
