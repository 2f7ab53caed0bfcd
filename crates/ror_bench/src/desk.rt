//! What comes of a command at a desk: what it changes there, and its body.

ghost use Rattle.std.specs.Prelude.{◌≡◌, ◌≢◌, ◌+◌, ◌-◌, ◌^◌, ◌<◌, ◌≤◌, IsOk, OnOk, IfOk, IfErr, Err};
ghost use Rattle.ror_pivot.specs.Answers.{most_of};
ghost use Rattle.ror_check.specs.Repair.{AreNumbersIn, numbers_of};
ghost use Rattle.ror_history.specs.History.{next_number, standing, statements_of, withdrawal, with_revision};
ghost use Rattle.ror_session.specs.declared.session.Command.TheVariants.{State, Withdraw, Replace, Repair, Undo, Ask};
ghost use Rattle.ror_bench.specs.Allowed.{IsRepairAt, given_at};
ghost use Rattle.ror_bench.specs.Bench.{IsLawfulThroughout};
ghost use Rattle.ror_bench.specs.Names as names;
ghost use Rattle.ror_bench.specs.Blocks.{AreAnswers, IsBodyOf, revisions_with, NeedsNoSearch, most_room};
ghost use Rattle.ror_bench.specs.Steps.{body_of, IsMade, IsOneMore, IsSaidOf, RefusesCommand};

use crate::names::{questions_of, statement_of};
use crate::stop::LineStop;
use ror_history::{History, HistoryFault};
use ror_pivot::Bits;
use ror_proof::{Answer, Dropped};
use ror_relation::DecidedList;
use ror_repair::{RepairFault, repair_counted};
use ror_report::Body;
use ror_session::{Asked, Command, Named};
use ror_statement::{Statement, statements_in};
use ror_table::Table;
use ror_text::Items;
use ror_warm::Engine;
use std::alloc::{AllocError, Global};

/// What a revision at a desk comes to.
#[derive(Clone, Copy, Debug, PartialEq, Eq)]
pub(crate) enum Made {
    Added(u32),
    Withdrawn(u32),
    Replaced(u32),
    Undone,
}

impl From<Made> for Body {
    ghost from_gives = { λ made body. body ≡ body_of made };

    fn from(made: Made) -> Body {
        match made {
            Made::Added(number) => Body::Added(number),
            Made::Withdrawn(number) => Body::Withdrawn(number),
            Made::Replaced(number) => Body::Replaced(number),
            Made::Undone => Body::Undone,
        }
    }
}

/// Adds the statement of these names.
pub(crate) fn add(table: &Table, history: &mut History, named: &Named) -> Result<Made, LineStop>
    requires number { next_number history.old.state < 2 ^ 32 - 1 }
    ensures made { IfOk result (λ made. IsMade table.now history.old.state (State named.now)
        made history.new.state) }
    ensures one_more { IfOk result (λ _. IsOneMore history.old.state history.new.state) }
    ensures refused { IfErr result (RefusesCommand table.now history.old.state (State named.now)) }
    ensures kept { IfErr result (λ _. history.new.state ≡ history.old.state) }
    ensures roomy { IfErr result (λ stop. stop ≡ LineStop.Memory → history.old.spare ≡ 0) }
    ensures room { history.old.spare ≤ history.new.spare + 1 }
{
    let statement = statement_of(table, named)?;
    let number = history.add(statement)?;
    Ok(Made::Added(number))
}

/// Withdraws the statement with a number.
pub(crate) fn withdraw(table: &Table, history: &mut History, number: u32) -> Result<Made, LineStop>
    ensures made { IfOk result (λ made. IsMade table.now history.old.state (Withdraw number)
        made history.new.state) }
    ensures one_more { IfOk result (λ _. IsOneMore history.old.state history.new.state) }
    ensures refused { IfErr result (RefusesCommand table.now history.old.state (Withdraw number)) }
    ensures kept { IfErr result (λ _. history.new.state ≡ history.old.state) }
    ensures roomy { IfErr result (λ stop. stop ≡ LineStop.Memory → history.old.spare ≡ 0) }
    ensures room { history.old.spare ≤ history.new.spare + 1 }
{
    history.withdraw(number)?;
    Ok(Made::Withdrawn(number))
}

/// Puts the statement of these names in the place of the one with a number.
pub(crate) fn replace(
    table: &Table,
    history: &mut History,
    number: u32,
    named: &Named,
) -> Result<Made, LineStop>
    ensures made { IfOk result (λ made. IsMade table.now history.old.state
        (Replace number named.now) made history.new.state) }
    ensures one_more { IfOk result (λ _. IsOneMore history.old.state history.new.state) }
    ensures refused { IfErr result
        (RefusesCommand table.now history.old.state (Replace number named.now)) }
    ensures kept { IfErr result (λ _. history.new.state ≡ history.old.state) }
    ensures roomy { IfErr result (λ stop. stop ≡ LineStop.Memory → history.old.spare ≡ 0) }
    ensures room { history.old.spare ≤ history.new.spare + 1 }
{
    let statement = statement_of(table, named)?;
    history.replace(number, statement)?;
    Ok(Made::Replaced(number))
}

/// Takes the last surviving revision back.
pub(crate) fn undo(table: &Table, history: &mut History) -> Result<Made, LineStop>
    ensures made { IfOk result (λ made. IsMade table.now history.old.state Undo
        made history.new.state) }
    ensures refused { IfErr result (RefusesCommand table.now history.old.state Undo) }
    ensures kept { IfErr result (λ _. history.new.state ≡ history.old.state) }
    ensures no_memory { IfErr result (λ stop. stop ≢ LineStop.Memory) }
    ensures room { history.old.spare ≤ history.new.spare }
{
    history.undo()?;
    Ok(Made::Undone)
}

/// What decides questions and repairs: the engine of questions, and how many pivots repairs made so far.
#[derive(Drop)]
pub(crate) struct Search {
    pub(crate) engine: Engine,
    pub(crate) repair_pivots: u64,
}

/// Does the command at a desk, whose questions and repairs are decided at this width, and gives its body. Questions go to the
/// engine, and the pivots of a repair are added to their count.
pub(crate) fn perform(
    alloc: Global,
    search: &mut Search,
    table: &Table,
    history: &mut History,
    command: &Command,
    bits: Bits,
) -> Result<Body, AllocError>
    requires number { next_number history.old.state < 2 ^ 32 - 1 }
    requires lawful { IsLawfulThroughout table.now history.old.state }
    ensures body { IfOk result (IsBodyOf (given_at (most_of bits)) table.now history.old.state
        command.now) }
    ensures moved { IfOk result (λ body. history.new.state
        ≡ revisions_with table.now history.old.state command.now body) }
    ensures kept { IfErr result (λ _. history.new.state ≡ history.old.state) }
    ensures ready { 0 < history.old.spare → NeedsNoSearch command.now → IsOk result }
    ensures room { history.old.spare ≤ history.new.spare + most_room command.now }
    ensures counted { search.old.engine.pivots ≤ search.new.engine.pivots }
    ensures repairs_counted { search.old.repair_pivots ≤ search.new.repair_pivots }
{
    match command {
        Command::State(named) => said(add(table, history, named)),
        Command::Withdraw(number) => said(withdraw(table, history, *number)),
        Command::Replace(number, named) => said(replace(table, history, *number, named)),
        Command::Repair => repair_at(alloc, table, history, bits, &mut search.repair_pivots),
        Command::Undo => said(undo(table, history)),
        Command::Ask(asked) => match answers_to(
            alloc,
            &mut search.engine,
            table,
            history,
            asked,
            bits,
        ) {
            Ok(answers) => Ok(Body::Answers(Items::from(answers))),
            Err(LineStop::Refused(fault)) => Ok(Body::Refused(fault)),
            Err(LineStop::Memory) => Err(AllocError),
        },
    }
}

/// Repairs what stands, deciding at this width, and withdraws what is dropped; nothing where a number is too wide.
fn repair_at(
    alloc: Global,
    table: &Table,
    history: &mut History,
    bits: Bits,
    pivots: &mut u64,
) -> Result<Body, AllocError>
    requires lawful { IsLawfulThroughout table.now history.old.state }
    ensures body { IfOk result (IsRepairAt (most_of bits) table.now (standing history.old.state)) }
    ensures moved { IfOk result (λ body. history.new.state
        ≡ revisions_with table.now history.old.state Repair body) }
    ensures kept { IfErr result (λ _. history.new.state ≡ history.old.state) }
    ensures counted { pivots.old ≤ pivots.new }
    ensures room { history.old.spare ≤ history.new.spare + 1 }
{
    let standing = history.standing()?;
    match repair_counted(alloc, table, standing.as_slice(), bits, pivots) {
        Ok(kept) => {
            withdraw_dropped(alloc, history, kept.dropped.as_slice())?;
            Ok(Body::Repaired(kept))
        }
        Err(RepairFault::Wide(number, note)) => Ok(Body::RepairWide(number, note)),
        Err(RepairFault::Memory) => Err(AllocError),
    }
}

/// Withdraws the dropped statements, which stand and may be none, in one revision. Want of memory changes nothing.
pub(crate) fn withdraw_dropped(
    alloc: Global,
    history: &mut History,
    dropped: &[Dropped],
) -> Result<(), AllocError>
    requires standing { AreNumbersIn (standing history.old.state) (numbers_of dropped.now) }
    ensures withdrawn { OnOk result (history.new.state
        ≡ with_revision history.old.state (withdrawal (numbers_of dropped.now))) }
    ensures kept { IfErr result (λ _. history.new.state ≡ history.old.state) }
    ensures room { history.old.spare ≤ history.new.spare + 1 }
{
    let numbers = dropped_numbers(alloc, dropped)?;
    match history.withdraw_all(numbers.as_slice()) {
        Ok(()) => Ok(()),
        Err(fault) => match fault {
            HistoryFault::Memory => Err(AllocError),
            _ => unreachable!(),
        },
    }
}

/// The numbers of the dropped statements.
fn dropped_numbers(alloc: Global, dropped: &[Dropped]) -> Result<Vec<u32>, AllocError>
    ensures { IfOk result (λ list. list.items ≡ numbers_of dropped.now) }
{
    let mut numbers = Vec::new(alloc);
    for one in dropped {
        numbers.push(one.number)?;
    }
    Ok(numbers)
}

/// The body of a revision that was made or refused.
fn said(made: Result<Made, LineStop>) -> Result<Body, AllocError>
    ensures body { IfOk result (IsSaidOf made) }
    ensures memory { IfErr result (λ _. made ≡ Err LineStop.Memory) }
{
    match made {
        Ok(made) => Ok(Body::from(made)),
        Err(LineStop::Refused(fault)) => Ok(Body::Refused(fault)),
        Err(LineStop::Memory) => Err(AllocError),
    }
}

/// The answers to the questions of a line, decided at this width over what stands, by the engine.
fn answers_to(
    alloc: Global,
    engine: &mut Engine,
    table: &Table,
    history: &History,
    asked: &Asked,
    bits: Bits,
) -> Result<Vec<Answer>, LineStop>
    requires lawful { IsLawfulThroughout table.now history.now.state }
    ensures answers { IfOk result (λ answers. AreAnswers (given_at (most_of bits)) table.now
        (statements_of history.now.state) (names.questions_of table.now asked.now) answers.items) }
    ensures refused { IfErr result (RefusesCommand table.now history.now.state (Ask asked.now)) }
    ensures counted { engine.old.pivots ≤ engine.new.pivots }
{
    let questions = questions_of(alloc, table, asked)?;
    let statements = statements_at(alloc, history)?;
    let list = Items::from(statements);
    let decided = DecidedList::new(alloc, engine, table, list, bits)?;
    Ok(decided.answer_each(alloc, engine, table, questions.as_slice(), bits)?)
}

/// The statements that stand, in order.
pub(crate) fn statements_at(alloc: Global, history: &History) -> Result<Vec<Statement>, AllocError>
    ensures { IfOk result (λ list. list.items ≡ statements_of history.now.state) }
{
    let standing = history.standing()?;
    statements_in(alloc, standing.as_slice())
}
