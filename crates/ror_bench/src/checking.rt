//! The check of a block: whether its body is the one of a command at a desk.

ghost use Rattle.std.specs.Prelude.{◌≡◌, ◌↔◌, ◌-◌, ◌^◌, ◌<◌, ◌≤◌, length, map, IsTrue, OnOk, IfOk, IfErr, Err};
ghost use Rattle.std.specs.List.{AllByRecursion, AllZip};
ghost use Rattle.ror_value.specs.Over.{IsAskedIn};
ghost use Rattle.ror_check.specs.Checkers.{IsCheckerOver};
ghost use Rattle.ror_history.specs.History.{next_number, statements_of};
ghost use Rattle.ror_session.specs.declared.session.Command.TheVariants.{Repair, Undo, Ask};
ghost use Rattle.ror_bench.specs.Allowed.{IsProvedUnlessWide, proved_unless_wide};
ghost use Rattle.ror_bench.specs.Bench.{IsLawfulThroughout};
ghost use Rattle.ror_bench.specs.Blocks.{IsBodyOf, answers_passed, passed_of, revisions_with};
ghost use Rattle.ror_bench.specs.Steps.{body_of, IsSaidOf, RefusesSaid, RefusesBody, RefusesAnswers, EndsWithRevision, IsTakenBack};

use crate::bench::{BlockFault, Passed};
use crate::desk::{Made, add, replace, statements_at, undo, withdraw, withdraw_dropped};
use crate::names::questions_of;
use crate::stop::LineStop;
use ror_check::{AnswersChecker, check_repair};
use ror_history::History;
use ror_proof::Answer;
use ror_report::{Body, LineFault};
use ror_session::{Asked, Command};
use ror_statement::Question;
use ror_table::Table;
use std::alloc::Global;

/// Does the command at a desk where the body is its body, and says how many of its answers passed.
pub(crate) fn check(
    alloc: Global,
    checker: &mut AnswersChecker,
    table: &Table,
    history: &mut History,
    command: &Command,
    body: &Body,
) -> Result<Passed, BlockFault>
    requires number { next_number history.old.state < 2 ^ 32 - 1 }
    requires lawful { IsLawfulThroughout table.now history.old.state }
    requires checker { IsCheckerOver table.now checker.old }
    ensures checker { IsCheckerOver table.now checker.new }
    ensures body { OnOk result (IsBodyOf proved_unless_wide table.now history.old.state
        command.now body.now) }
    ensures passed { IfOk result (λ passed. passed ≡ passed_of body.now) }
    ensures refused { IfErr result (RefusesBody table.now history.old.state command.now body.now) }
    ensures moved { OnOk result (history.new.state
        ≡ revisions_with table.now history.old.state command.now body.now) }
    ensures kept { IfErr result (λ _. history.new.state ≡ history.old.state) }
{
    match command {
        Command::State(named) => {
            let made = add(table, history, named);
            settle(history, made, body)
        }
        Command::Withdraw(number) => {
            let made = withdraw(table, history, *number);
            settle(history, made, body)
        }
        Command::Replace(number, named) => {
            let made = replace(table, history, *number, named);
            settle(history, made, body)
        }
        Command::Repair => check_repaired(alloc, table, history, body),
        Command::Undo => check_undone(table, history, body),
        Command::Ask(asked) => check_answered(alloc, checker, table, history, asked, body),
    }
}

/// Whether the body says what was made; otherwise the revision is taken back.
fn settle(
    history: &mut History,
    made: Result<Made, LineStop>,
    body: &Body,
) -> Result<Passed, BlockFault>
    requires last { IfOk made (λ _. EndsWithRevision history.old.state) }
    ensures said { OnOk result (IsSaidOf made body.now) }
    ensures passed { IfOk result (λ passed. passed ≡ record { answers = 0; wide = 0 }) }
    ensures kept { OnOk result (history.new.state ≡ history.old.state) }
    ensures refused { IfErr result (RefusesSaid made body.now) }
    ensures taken_back { IfErr result (λ _. IsTakenBack made history.old.state history.new.state) }
{
    match made {
        Ok(made) => {
            if is_body_of(made, body) {
                return Ok(Passed {
                    answers: 0,
                    wide: 0,
                });
            }
            let _ = history.undo();
            Err(BlockFault::WrongBlock)
        }
        Err(stop) => check_refused(stop, body),
    }
}

/// Whether the body is the one of a revision that was made.
fn is_body_of(made: Made, body: &Body) -> bool
    ensures { IsTrue result ↔ (body.now ≡ body_of made) }
{
    match (made, body) {
        (Made::Added(m), Body::Added(n)) => m == *n,
        (Made::Withdrawn(m), Body::Withdrawn(n)) => m == *n,
        (Made::Replaced(m), Body::Replaced(n)) => m == *n,
        (Made::Undone, Body::Undone) => true,
        _ => false,
    }
}

/// Whether the body says that the line is refused for what stopped it.
fn check_refused(stop: LineStop, body: &Body) -> Result<Passed, BlockFault>
    ensures said { OnOk result (IsSaidOf (Err stop) body.now) }
    ensures passed { IfOk result (λ passed. passed ≡ record { answers = 0; wide = 0 }) }
    ensures refused { IfErr result (RefusesSaid (Err stop) body.now) }
{
    let fault = match stop {
        LineStop::Refused(fault) => fault,
        LineStop::Memory => return Err(BlockFault::Memory),
    };
    match body {
        Body::Refused(named) if *named == fault => Ok(Passed {
            answers: 0,
            wide: 0,
        }),
        _ => Err(BlockFault::WrongBlock),
    }
}

/// Whether the body is the one of an undo, which is then done.
fn check_undone(table: &Table, history: &mut History, body: &Body) -> Result<Passed, BlockFault>
    ensures body { OnOk result (IsBodyOf proved_unless_wide table.now history.old.state
        Undo body.now) }
    ensures passed { IfOk result (λ passed. passed ≡ passed_of body.now) }
    ensures refused { IfErr result (RefusesBody table.now history.old.state Undo body.now) }
    ensures moved { OnOk result (history.new.state
        ≡ revisions_with table.now history.old.state Undo body.now) }
    ensures kept { IfErr result (λ _. history.new.state ≡ history.old.state) }
{
    if !is_body_of(Made::Undone, body) {
        if history.can_undo() {
            return Err(BlockFault::WrongBlock);
        }
        return check_refused(LineStop::Refused(LineFault::NothingToUndo), body);
    }
    match undo(table, history) {
        Ok(_) => Ok(Passed {
            answers: 0,
            wide: 0,
        }),
        Err(stop) => check_refused(stop, body),
    }
}

/// Whether the body is one of a repair of what stands. What it drops is then withdrawn, and nothing where it is too wide.
fn check_repaired(
    alloc: Global,
    table: &Table,
    history: &mut History,
    body: &Body,
) -> Result<Passed, BlockFault>
    requires lawful { IsLawfulThroughout table.now history.old.state }
    ensures body { OnOk result (IsBodyOf proved_unless_wide table.now history.old.state
        Repair body.now) }
    ensures passed { IfOk result (λ passed. passed ≡ passed_of body.now) }
    ensures refused { IfErr result (RefusesBody table.now history.old.state Repair body.now) }
    ensures moved { OnOk result (history.new.state
        ≡ revisions_with table.now history.old.state Repair body.now) }
    ensures kept { IfErr result (λ _. history.new.state ≡ history.old.state) }
{
    match body {
        Body::Repaired(kept) => {
            let standing = history.standing()?;
            check_repair(alloc, table, standing.as_slice(), kept)?;
            withdraw_dropped(alloc, history, kept.dropped.as_slice())?;
            Ok(Passed {
                answers: 0,
                wide: 0,
            })
        }
        Body::RepairWide(_, _) => Ok(Passed {
            answers: 0,
            wide: 1,
        }),
        _ => Err(BlockFault::WrongBlock),
    }
}

/// Whether the body is the one of a line that asks.
fn check_answered(
    alloc: Global,
    checker: &mut AnswersChecker,
    table: &Table,
    history: &History,
    asked: &Asked,
    body: &Body,
) -> Result<Passed, BlockFault>
    requires lawful { IsLawfulThroughout table.now history.now.state }
    requires checker { IsCheckerOver table.now checker.old }
    ensures checker { IsCheckerOver table.now checker.new }
    ensures body { OnOk result (IsBodyOf proved_unless_wide table.now history.now.state
        (Ask asked.now) body.now) }
    ensures passed { IfOk result (λ passed. passed ≡ passed_of body.now) }
    ensures refused { IfErr result
        (RefusesBody table.now history.now.state (Ask asked.now) body.now) }
{
    match questions_of(alloc, table, asked) {
        Ok(questions) => match body {
            Body::Answers(answers) => {
                check_each(
                    alloc,
                    checker,
                    table,
                    history,
                    questions.as_slice(),
                    answers.as_slice(),
                )
            }
            _ => Err(BlockFault::WrongBlock),
        },
        Err(stop) => check_refused(stop, body),
    }
}

/// Whether the answers are to these questions in order, each too wide or with its proof over what stands.
fn check_each(
    alloc: Global,
    checker: &mut AnswersChecker,
    table: &Table,
    history: &History,
    questions: &[Question],
    answers: &[Answer],
) -> Result<Passed, BlockFault>
    requires lawful { IsLawfulThroughout table.now history.now.state }
    requires asked { AllByRecursion (IsAskedIn table.now) questions.now }
    requires few { length questions.now ≤ 20000 }
    requires checker { IsCheckerOver table.now checker.old }
    ensures checker { IsCheckerOver table.now checker.new }
    ensures each { OnOk result (AllZip (IsProvedUnlessWide table.now
        (statements_of history.now.state)) questions.now answers.now) }
    ensures passed { IfOk result (λ passed. passed ≡ answers_passed answers.now) }
    ensures refused { IfErr result (RefusesAnswers table.now (statements_of history.now.state)
        questions.now answers.now) }
{
    if !are_to(questions, answers) {
        return Err(BlockFault::WrongBlock);
    }
    let list = statements_at(alloc, history)?;
    checker.check(alloc, table, list, answers)?;
    Ok(Passed::of(answers))
}

/// Whether the answers are to these questions, in order.
fn are_to(questions: &[Question], answers: &[Answer]) -> bool
    ensures { IsTrue result ↔ (map (λ x. x.question) answers.now ≡ questions.now) }
{
    if questions.len() != answers.len() {
        return false;
    }
    for (place, answer) in answers.iter().enumerate() {
        if !answer.question.is_same(questions[place]) {
            return false;
        }
    }
    true
}
