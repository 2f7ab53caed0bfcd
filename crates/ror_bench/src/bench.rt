//! The desks of a session over one table: a line and its block, and the check of a block.

ghost use Rattle.std.specs.Prelude.{◌≡◌, ◌≢◌, ◌<◌, ◌≤◌, ◌^◌, ◌-◌, length, map, [], replicate, ℕ, count_by, IsOk, OnOk, IfOk, IfErr};
ghost use Rattle.ror_text.specs.FirstFault.{IsRefusedBy};
ghost use Rattle.ror_statement.specs.RowNumbers.{row_count};
ghost use Rattle.ror_value.specs.Over.{IsLawfulIn};
ghost use Rattle.ror_pivot.specs.Answers.{most_of};
ghost use Rattle.ror_history.specs.History.{next_number, standing, statements_of};
ghost use Rattle.ror_bench.specs.Allowed.{given_at};
ghost use Rattle.ror_bench.specs.Bench.{Workbench, revisions_at, spare_at, bench_of, HoldTheSame, IsLawfulBench};
ghost use Rattle.std.specs.Bool.{beq};
ghost use Rattle.ror_check.specs.Proof.{is_wide};
ghost use Rattle.ror_bench.specs.Blocks.{answers_passed, IsBlockOf, HasText, IsProvedBlock, passed_of, IsTrueBlock, with_block, NeedsNoSearch, LeavesRoom};
ghost use Rattle.ror_bench.specs.Faults.{FailsBlock, IsEarlierBlockFault};
ghost use Rattle.ror_bench.specs.Rooms.{revisions_of, HasRoomBelow};
ghost use Rattle.ror_bench.specs.Steps as steps;
ghost use Rattle.ror_bench.specs.declared.bench.BlockFault.TheVariants.{Memory};

use crate::checking::check;
use crate::desk::{Search, perform};
use ror_check::{AnswersChecker, AnswersFault, CheckFault, RepairCheckFault};
use ror_history::History;
use ror_pivot::Bits;
use ror_proof::{Answer, Verdict};
use ror_report::Block;
use ror_session::{Command, Line};
use ror_statement::{MOST_ROWS, MOST_STATEMENTS, Numbered, Statement};
use ror_table::Table;
use ror_value::Input;
use ror_warm::Engine;
use std::alloc::{AllocError, AllocFailed, Global};
use std::marker::Model;
use thiserror::Error;

/// How many answers of a block were accepted, and how many answers and repairs are too wide and were not looked at. A repair
/// that was accepted counts in neither.
#[derive(Clone, Copy, Debug, PartialEq, Eq)]
pub struct Passed {
    pub answers: u32,
    pub wide: u32,
}

impl Passed {
    /// How many of the answers are not too wide, and how many are. There are 20,000 at most.
    pub fn of(answers: &[Answer]) -> Passed
        requires { length answers.now ≤ 20000 }
        ensures { result ≡ answers_passed answers.now }
    {
        Passed {
            answers: count(answers, false),
            wide: count(answers, true),
        }
    }
}

/// How many of the answers are too wide, or are not.
fn count(answers: &[Answer], wide: bool) -> u32
    requires { length answers.now ≤ 20000 }
    ensures { result ≡ count_by (λ x. beq (is_wide x.verdict) wide) answers.now }
{
    answers
        .iter()
        .filter(|x| matches!(x.verdict, Verdict::Wide { .. }) == wide)
        .count() as u32
}

/// Why a block is not the one of its line.
#[derive(Debug, Drop, Error)]
pub enum BlockFault {
    /// Not the line's number, not the body of its command, not the number or the refusal that it gets, or not its questions.
    #[error("wrong block")]
    WrongBlock,
    /// The first answer that is not accepted, counted from 1, and why.
    #[error("answer {0} not accepted: {1}")]
    Answer(u32, CheckFault),
    /// The repair is not accepted, and why.
    #[error("repair not accepted: {0}")]
    Repair(RepairCheckFault),
    #[error("out of memory")]
    Memory,
}

impl From<AllocError> for BlockFault {
    ghost from_gives = { λ _ e. e ≡ Memory };

    fn from(_error: AllocError) -> BlockFault {
        BlockFault::Memory
    }
}

impl<T: Drop> From<AllocFailed<T>> for BlockFault {
    ghost from_gives = { λ _ e. e ≡ Memory };

    fn from(_error: AllocFailed<T>) -> BlockFault {
        BlockFault::Memory
    }
}

impl From<AnswersFault> for BlockFault {
    ghost from_gives = { λ fault e. e ≡ steps.fault_of_answers fault };

    fn from(fault: AnswersFault) -> BlockFault {
        match fault {
            AnswersFault::Answer(number, fault) => BlockFault::Answer(number, fault),
            AnswersFault::Memory => BlockFault::Memory,
        }
    }
}

impl From<RepairCheckFault> for BlockFault {
    ghost from_gives = { λ fault e. e ≡ steps.fault_of_repair fault };

    fn from(fault: RepairCheckFault) -> BlockFault {
        match fault {
            RepairCheckFault::Memory => BlockFault::Memory,
            fault => BlockFault::Repair(fault),
        }
    }
}

/// A table and the desks over it.
#[derive(Drop)]
pub struct Bench {
    alloc: Global,
    table: Table,
    desks: Vec<History>,
    /// Decides the questions and repairs of all desks.
    search: Search,
    /// Checks the answers of all desks.
    checker: AnswersChecker,
}

impl Model for Bench {
    ghost use Rattle.std.specs.Prelude.{map};
    ghost use Rattle.std.specs.List.{AllByRecursion};
    ghost use Rattle.ror_check.specs.Checkers.{IsCheckerOver};
    ghost use Rattle.ror_bench.specs.Bench.{Workbench, IsLawfulThroughout, pivots_together};

    ghost Value = { Workbench };

    ghost view = { λ b. record {
      table = b.table;
      state = map (λ h. h.state) b.desks.items;
      pivots = pivots_together b.search.engine.pivots b.search.repair_pivots;
      spare = map (λ h. h.spare) b.desks.items;
    } };

    ghost invariant = { λ b. record {
      lawful : AllByRecursion (λ h. IsLawfulThroughout b.table h.state) b.desks.items;
      checker : IsCheckerOver b.table b.checker;
    } };
}

impl Bench {
    /// So many desks over the input's table, each of which begins with the opening statements.
    pub fn new(alloc: Global, input: Input, desks: u32) -> Result<Bench, AllocError>
        requires few { desks ≤ 64 }
        requires lawful { IsLawfulIn input.table input.opening }
        ensures begun { IfOk result (λ bench. HoldTheSame bench (bench_of input desks)) }
        ensures pivots { IfOk result (λ bench. bench.pivots ≡ 0) }
    {
        let Input { table, opening } = input;
        let desks = histories(alloc, opening.as_slice(), desks)?;
        let search = Search {
            engine: Engine::new(alloc),
            repair_pivots: 0,
        };
        let checker = AnswersChecker::new();
        Ok(Bench {
            alloc,
            table,
            desks,
            search,
            checker,
        })
    }

    /// The table, which no line changes.
    pub fn table(&self) -> &Table
        ensures value { result.now ≡ self.now.table }
        ensures lawful { IsLawfulBench self.now }
    {
        &self.table
    }

    /// How many pivots were made so far, by questions and repairs together. The count never falls, and stays at its greatest
    /// value once there. It takes no memory.
    pub fn pivots(&self) -> u64
        ensures { result ≡ self.now.pivots }
    {
        self.search
            .engine
            .pivots()
            .saturating_add(self.search.repair_pivots)
    }

    /// What stands at a desk, with its numbers, in increasing order of number: what may stand over the table.
    ///
    /// # Errors
    ///
    /// Only want of memory.
    pub fn standing(&self, desk: u32) -> Result<Vec<Numbered>, AllocError>
        requires { desk < length self.now.state }
        ensures listed { IfOk result (λ list. list.items ≡ standing (revisions_at self.now desk)) }
        ensures lawful { IsLawfulIn self.now.table (statements_of (revisions_at self.now desk)) }
    {
        self.desks[desk as usize].standing()
    }

    /// Makes room at a desk for so many more revisions. All else stays as it is.
    ///
    /// # Errors
    ///
    /// Only want of memory.
    pub fn reserve(&mut self, desk: u32, revisions: usize) -> Result<(), AllocError>
        requires { desk < length self.old.state }
        ensures room { OnOk result (revisions ≤ spare_at self.new desk) }
        ensures kept { HoldTheSame self.new self.old }
        ensures no_less { (other : ℕ) → spare_at self.old other ≤ spare_at self.new other }
        ensures pivots { self.new.pivots ≡ self.old.pivots }
    {
        let history = &mut self.desks[desk as usize];
        history.reserve(revisions)
    }

    /// Makes room at each of so many desks for its lines that may revise it. All else stays as it is.
    ///
    /// # Errors
    ///
    /// Only want of memory.
    pub fn make_room(&mut self, desks: u32, lines: &[Line]) -> Result<(), AllocError>
        requires { desks ≤ length self.old.state }
        ensures kept { HoldTheSame self.new self.old }
        ensures room { OnOk result (HasRoomBelow desks lines.now self.new) }
        ensures pivots { self.new.pivots ≡ self.old.pivots }
    {
        for desk in 0..desks {
            self.reserve(desk, revisions_of(lines, desk))?;
        }
        Ok(())
    }

    /// Does the line at its desk, questions and repairs being decided at this width, and gives its block: what was made, the
    /// answers, what a repair drops, or the first refusal. A repair is one revision, also where it drops nothing; one that is too
    /// wide changes nothing. Another desk never changes, and this one by its own statements alone. The block has a text, which
    /// is read back as it.
    ///
    /// It asks that the desk has a number left. Its one error is want of memory, which changes nothing, and which a line that
    /// states, withdraws, replaces or undoes never meets where its desk has room. A revision takes the room of one at most, and
    /// no line takes any at another desk.
    pub fn step(&mut self, line: &Line, bits: Bits) -> Result<Block, AllocError>
        requires desk { line.now.desk < length self.old.state }
        requires number { next_number (revisions_at self.old line.now.desk) < 2 ^ 32 - 1 }
        ensures block { IfOk result (IsBlockOf (given_at (most_of bits)) self.old.table
            (revisions_at self.old line.now.desk) line.now) }
        ensures text { IfOk result (HasText self.old.table) }
        ensures moved { IfOk result
            (λ block. HoldTheSame self.new (with_block self.old line.now block)) }
        ensures kept { IfErr result (λ _. HoldTheSame self.new self.old) }
        ensures ready { 0 < spare_at self.old line.now.desk → NeedsNoSearch line.now.command
            → IsOk result }
        ensures room { LeavesRoom line.now self.old self.new }
        ensures pivots { self.old.pivots ≤ self.new.pivots }
    {
        // The systems of an answer have at most as many columns as a table, and each table has alternatives.
        prove!(self.table.alternatives() > 0);
        let history = &mut self.desks[line.desk as usize];
        let body = perform(
            self.alloc,
            &mut self.search,
            &self.table,
            history,
            &line.command,
            bits,
        )?;
        Ok(Block {
            line: line.number,
            body,
        })
    }

    /// Whether the block is the one of the line over what stands at its desk, but that answers and repairs may be too wide:
    /// these are counted and not looked at. The desk is then as the line and its block leave it; no other desk changes, and a
    /// block that is refused changes none.
    ///
    /// It asks that the desk has a number left.
    ///
    /// # Errors
    ///
    /// `WrongBlock`, and then the first answer that is not accepted, or the first test that the repair fails.
    pub fn check_line(&mut self, line: &Line, block: &Block) -> Result<Passed, BlockFault>
        requires desk { line.now.desk < length self.old.state }
        requires number { next_number (revisions_at self.old line.now.desk) < 2 ^ 32 - 1 }
        ensures accepted { OnOk result (IsProvedBlock self.old.table
            (revisions_at self.old line.now.desk) line.now block.now) }
        ensures counted { IfOk result (λ passed. passed ≡ passed_of block.now.body) }
        ensures true_block { OnOk result (IsTrueBlock self.old.table
            (revisions_at self.old line.now.desk) block.now) }
        ensures not_proved { IfErr result (λ e. e ≢ BlockFault.Memory → IsProvedBlock self.old.table
            (revisions_at self.old line.now.desk) line.now block.now → ⊥) }
        ensures refused { IfErr result (IsRefusedBy
            (FailsBlock self.old.table (revisions_at self.old line.now.desk) line.now block.now)
            IsEarlierBlockFault BlockFault.Memory) }
        ensures moved { OnOk result (HoldTheSame self.new (with_block self.old line.now block.now)) }
        ensures kept { IfErr result (λ _. HoldTheSame self.new self.old) }
        ensures room { (desk : ℕ) → desk ≢ line.now.desk
            → spare_at self.old desk ≤ spare_at self.new desk }
        ensures pivots { self.new.pivots ≡ self.old.pivots }
    {
        if block.line != line.number {
            return Err(BlockFault::WrongBlock);
        }
        let history = &mut self.desks[line.desk as usize];
        check(
            self.alloc,
            &mut self.checker,
            &self.table,
            history,
            &line.command,
            &block.body,
        )
    }
}

/// So many histories, each of which begins with the opening statements.
fn histories(alloc: Global, opening: &[Statement], count: u32) -> Result<Vec<History>, AllocError>
    requires few { length opening.now ≤ MOST_STATEMENTS }
    requires rows { row_count opening.now ≤ MOST_ROWS }
    ensures { IfOk result (λ desks. map (λ h. h.state) desks.items
        ≡ replicate count (record { opening = opening.now; surviving = [] })) }
{
    let mut desks = Vec::new(alloc);
    for _ in 0..count {
        desks.push(History::new(alloc, opening)?)?;
    }
    Ok(desks)
}

/// How many of the lines may revise a desk: all there but those that ask.
fn revisions_of(lines: &[Line], desk: u32) -> usize
    ensures { result ≡ revisions_of lines.now desk }
{
    lines
        .iter()
        .filter(|line| line.desk == desk && !matches!(line.command, Command::Ask(_)))
        .count()
}
