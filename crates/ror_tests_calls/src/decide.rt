//! Questions that are decided without an engine, together and each alone.

ghost use Rattle.ror_value.specs.Over.{IsLawfulIn, IsAskedIn};

use ror_classes::{decide_class, decide_classes};
use ror_made::{alone, are_asked, is_asked, is_lawful, three_alternatives};
use ror_pivot::Bits;
use ror_proof::{Answer, Verdict};
use ror_relation::{decide, decide_each};
use ror_statement::{Question, Statement};
use ror_table::Table;
use std::alloc::{AllocError, Global};
use std::test::Fail;

fn is_yes(verdict: &Verdict) -> bool {
    matches!(verdict, Verdict::Yes(_))
}

fn is_no(verdict: &Verdict) -> bool {
    matches!(verdict, Verdict::No(_))
}

const A_OVER_B: [Statement; 1] = [Statement::Prefer(0, 1)];

fn decided(
    alloc: Global,
    table: &Table,
    list: &[Statement],
    question: &Question,
) -> Result<Vec<Answer>, AllocError>
    requires lawful { IsLawfulIn table.now list.now }
    requires asked { IsAskedIn table.now question.now }
{
    let answer = decide(alloc, table, list, question, Bits::B127)?;
    alone(alloc, answer)
}

#[test]
fn what_is_said_follows(rt: HostRuntime) -> Result<(), Fail> {
    let table = three_alternatives(rt.alloc())?;
    let necessary = Question::Necessary(0, 1);
    assert!(rt; is_lawful(&table, &A_OVER_B));
    assert!(rt; is_asked(&table, &necessary));
    let answers = decided(rt.alloc(), &table, &A_OVER_B, &necessary)?;
    assert!(rt; answers.iter().all(|answer| is_yes(&answer.verdict)));
    Ok(())
}

#[test]
fn questions_are_decided_together(rt: HostRuntime) -> Result<(), Fail> {
    let table = three_alternatives(rt.alloc())?;
    let questions = [Question::Consistent, Question::Possible(1, 0)];
    assert!(rt; is_lawful(&table, &A_OVER_B));
    assert!(rt; are_asked(&table, &questions));
    let answers = decide_each(rt.alloc(), &table, &A_OVER_B, &questions, Bits::B127)?;
    assert!(rt; answers.len() == 2);
    assert!(rt; is_yes(&answers[0].verdict) && is_no(&answers[1].verdict));
    Ok(())
}

// Every compatible function makes a worth more than b, and c nothing: c may belong to the classes 1 and 2, where b may be.
const LIST: [Statement; 2] = [Statement::Class(0, 3, 3), Statement::Class(1, 1, 2)];

const NECESSARY: Question = Question::NecessaryClass(2, 3);

#[test]
fn one_question_on_a_class_is_decided(rt: HostRuntime) -> Result<(), Fail> {
    let table = three_alternatives(rt.alloc())?;
    assert!(rt; is_lawful(&table, &LIST));
    assert!(rt; is_asked(&table, &NECESSARY));
    let answer = decide_class(rt.alloc(), &table, &LIST, &NECESSARY, Bits::B127)?;
    let answers = alone(rt.alloc(), answer)?;
    assert!(rt; answers.iter().all(|answer| is_no(&answer.verdict)));
    Ok(())
}

#[test]
fn an_alternative_may_belong_to_the_classes_that_others_leave_it(
    rt: HostRuntime,
) -> Result<(), Fail> {
    let table = three_alternatives(rt.alloc())?;
    assert!(rt; is_lawful(&table, &LIST));
    assert!(rt; table.alternatives() == 3);
    let answers = decide_classes(rt.alloc(), &table, &LIST, 2, Bits::B127)?;
    assert!(rt; answers.len() == 6);
    assert!(rt; !is_no(&answers[2].verdict));
    assert!(rt; is_no(&answers[4].verdict));
    Ok(())
}
