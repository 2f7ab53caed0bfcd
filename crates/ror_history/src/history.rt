//! The statements of a desk, and what is done to them.

ghost use Rattle.std.specs.Prelude.{◌≡◌, ◌≢◌, ◌↔◌, IsTrue, ◌-◌, ◌^◌, ◌<◌, ◌≤◌, ◌+◌, suc, ◌∷◌, [], length, IfOk, IfErr, OnOk, OnErr};
ghost use Rattle.std.specs.List.Sorted.{IsStrictlyIncreasing};
ghost use Rattle.ror_text.specs.FirstFault.{IsRefusedBy};
ghost use Rattle.ror_statement.specs.RowNumbers.{row_count};
ghost use Rattle.ror_chain.specs.Chain.{linked_items};
ghost use Rattle.ror_history.specs.History.{Revision, addition, withdrawal, replacement, with_revision, with_numbers_from, next_number, added_numbers, standing, statements_of};
ghost use Rattle.ror_statement.specs.Statements.{numbers_in};
ghost use Rattle.ror_history.specs.Faults.{CanBeAdded, FailsAddition, CanBeReplaced, FailsReplacement, CanBeWithdrawn, FailsWithdrawal, FailsUndo, IsEarlierFault};
ghost use Rattle.ror_history.specs.Inverses.{IsOpened};
ghost use Rattle.ror_history.specs.declared.history.HistoryFault.TheVariants.{Memory};

use crate::inverse::{Inverse, take_back, unlink_all};
use crate::listed::{find, find_all, list_statements, listed};
use ror_chain::Chain;
use ror_statement::{MOST_ROWS, MOST_STATEMENTS, Numbered, Statement, row_count};
use std::alloc::{AllocError, AllocFailed, Global};
use std::marker::Model;
use thiserror::Error;

/// Why a history is not changed.
#[derive(Clone, Copy, Debug, PartialEq, Eq, Error)]
pub enum HistoryFault {
    /// No statement with the number stands, or it is listed twice.
    #[error("no such statement")]
    NoSuchStatement,
    /// No revision survives.
    #[error("nothing to undo")]
    NothingToUndo,
    /// As many statements stand as may.
    #[error("too many statements")]
    TooManyStatements,
    /// The statements would take more rows than they may.
    #[error("too many rows")]
    TooManyRows,
    #[error("out of memory")]
    Memory,
}

impl From<AllocError> for HistoryFault {
    ghost from_gives = { λ _ e. e ≡ Memory };

    fn from(_error: AllocError) -> HistoryFault {
        HistoryFault::Memory
    }
}

impl<T: Drop> From<AllocFailed<T>> for HistoryFault {
    ghost from_gives = { λ _ e. e ≡ Memory };

    fn from(_error: AllocFailed<T>) -> HistoryFault {
        HistoryFault::Memory
    }
}

/// The statements that a desk began with, and the revisions that survive. Clauses see it as these, and beside them for how
/// many more revisions there is room.
///
/// Each revision is kept as what takes it back, so that an undo takes no memory. Where there is room for one more, an addition,
/// a replacement and the withdrawal of one statement take none either.
#[derive(Drop)]
pub struct History {
    chain: Chain<Numbered>,
    inverses: Vec<Inverse>,
    /// Room for the statements that stand and one more, whose rows are counted there.
    scratch: Vec<Statement>,
    alloc: Global,
}

impl Model for History {
    ghost use Rattle.ror_history.specs.History.{HistoryView};

    ghost Value = { HistoryView };

    ghost use Rattle.ror_history.specs.Contents.{contents, IsWhole};

    ghost view = { contents };

    ghost invariant = { IsWhole };
}

impl History {
    /// The history that begins with these statements, which are within the limits of a desk and get the numbers from 1 on.
    ///
    /// # Errors
    ///
    /// Only want of memory.
    pub fn new(alloc: Global, opening: &[Statement]) -> Result<History, AllocError>
        requires few { length opening.now ≤ MOST_STATEMENTS }
        requires rows { row_count opening.now ≤ MOST_ROWS }
        ensures { IfOk result (λ h. h.state ≡ record { opening = opening.now; surviving = [] }) }
    {
        Ok(History {
            chain: opened(alloc, opening)?,
            inverses: Vec::new(alloc),
            scratch: Vec::with_capacity(alloc, MOST_STATEMENTS + 1)?,
            alloc,
        })
    }

    /// Makes room for so many more revisions. All else stays as it is.
    ///
    /// # Errors
    ///
    /// Only want of memory, and only where there is not so much room yet.
    pub fn reserve(&mut self, revisions: usize) -> Result<(), AllocError>
        ensures room { OnOk result (revisions ≤ self.new.spare) }
        ensures wanting { OnErr result (self.old.spare < revisions) }
        ensures unchanged { self.new.state ≡ self.old.state }
        ensures kept { self.old.spare ≤ self.new.spare }
    {
        self.chain.reserve(revisions)?;
        self.inverses.reserve(revisions)
    }

    /// Adds a statement, which stands last, and gives its number. It asks that the next number is below `u32::MAX`.
    ///
    /// # Errors
    ///
    /// `TooManyStatements` where `MOST_STATEMENTS` stand, else `TooManyRows` where all with this one take more than
    /// `MOST_ROWS`. A refusal changes nothing. With room for one more revision it takes no memory.
    pub fn add(&mut self, s: Statement) -> Result<u32, HistoryFault>
        requires { next_number self.old.state < 2 ^ 32 - 1 }
        ensures numbered { IfOk result (λ n. n ≡ next_number self.old.state) }
        ensures added { IfOk result (λ n. self.new.state
            ≡ with_revision self.old.state (addition n s)) }
        ensures allowed { OnOk result (CanBeAdded self.old.state s) }
        ensures refused { IfErr result (IsRefusedBy (FailsAddition self.old.state s)
            IsEarlierFault HistoryFault.Memory) }
        ensures unchanged { IfErr result (λ _. self.new.state ≡ self.old.state) }
        ensures roomy { IfErr result (λ e. e ≡ HistoryFault.Memory → self.old.spare ≡ 0) }
        ensures room { self.old.spare ≤ suc self.new.spare }
    {
        list_statements(&self.chain, &mut self.scratch);
        if self.scratch.len() >= MOST_STATEMENTS {
            return Err(HistoryFault::TooManyStatements);
        }
        self.scratch.push(s).unwrap();
        if row_count(&self.scratch) > MOST_ROWS {
            return Err(HistoryFault::TooManyRows);
        }
        let number = self.next_number();
        // With this room nothing is refused behind the chain's push.
        self.inverses.reserve(1)?;
        self.chain.push(Numbered {
            number,
            statement: s,
        })?;
        self.inverses.push(Inverse::Pop).unwrap();
        Ok(number)
    }

    /// Withdraws the statement with a number.
    ///
    /// # Errors
    ///
    /// `NoSuchStatement` where no such number stands. A refusal changes nothing. With room for one more revision it takes no
    /// memory.
    pub fn withdraw(&mut self, number: u32) -> Result<(), HistoryFault>
        ensures withdrawn { OnOk result (self.new.state
            ≡ with_revision self.old.state (withdrawal (number ∷ []))) }
        ensures allowed { OnOk result (CanBeWithdrawn self.old.state (number ∷ [])) }
        ensures refused { IfErr result (IsRefusedBy (FailsWithdrawal self.old.state (number ∷ []))
            IsEarlierFault HistoryFault.Memory) }
        ensures unchanged { IfErr result (λ _. self.new.state ≡ self.old.state) }
        ensures roomy { IfErr result (λ e. e ≡ HistoryFault.Memory → self.old.spare ≡ 0) }
        ensures room { self.old.spare ≤ suc self.new.spare }
    {
        let Some(node) = find(&self.chain, number) else {
            return Err(HistoryFault::NoSuchStatement);
        };
        self.inverses.push(Inverse::Relink(node))?;
        self.chain.unlink(node);
        Ok(())
    }

    /// Withdraws the statements with these numbers, of which there may be none, in one revision.
    ///
    /// # Errors
    ///
    /// `NoSuchStatement` where a number does not stand or is listed twice. A refusal changes nothing.
    pub fn withdraw_all(&mut self, numbers: &[u32]) -> Result<(), HistoryFault>
        ensures withdrawn { OnOk result (self.new.state
            ≡ with_revision self.old.state (withdrawal numbers.now)) }
        ensures allowed { OnOk result (CanBeWithdrawn self.old.state numbers.now) }
        ensures refused { IfErr result (IsRefusedBy (FailsWithdrawal self.old.state numbers.now)
            IsEarlierFault HistoryFault.Memory) }
        ensures unchanged { IfErr result (λ _. self.new.state ≡ self.old.state) }
        ensures room { self.old.spare ≤ suc self.new.spare }
    {
        let nodes = find_all(self.alloc, &self.chain, numbers)?;
        // With this room nothing is refused any more.
        self.inverses.reserve(1)?;
        unlink_all(&mut self.chain, &nodes);
        self.inverses
            .push(Inverse::RelinkAll(nodes.into()))
            .unwrap();
        Ok(())
    }

    /// Puts another statement in the place of the one with a number, which it gets.
    ///
    /// # Errors
    ///
    /// `NoSuchStatement` where no such number stands, else `TooManyRows` where the statements with this one take more than
    /// `MOST_ROWS`. A refusal changes nothing. With room for one more revision it takes no memory.
    pub fn replace(&mut self, number: u32, s: Statement) -> Result<(), HistoryFault>
        ensures replaced { OnOk result (self.new.state
            ≡ with_revision self.old.state (replacement number s)) }
        ensures allowed { OnOk result (CanBeReplaced self.old.state number s) }
        ensures refused { IfErr result (IsRefusedBy (FailsReplacement self.old.state number s)
            IsEarlierFault HistoryFault.Memory) }
        ensures unchanged { IfErr result (λ _. self.new.state ≡ self.old.state) }
        ensures roomy { IfErr result (λ e. e ≡ HistoryFault.Memory → self.old.spare ≡ 0) }
        ensures room { self.old.spare ≤ suc self.new.spare }
    {
        let Some(node) = find(&self.chain, number) else {
            return Err(HistoryFault::NoSuchStatement);
        };
        // With this room memory is not wanted any more.
        self.inverses.reserve(1)?;
        let old = self.chain.set(
            node,
            Numbered {
                number,
                statement: s,
            },
        );
        list_statements(&self.chain, &mut self.scratch);
        if row_count(&self.scratch) > MOST_ROWS {
            self.chain.set(node, old);
            return Err(HistoryFault::TooManyRows);
        }
        self.inverses.push(Inverse::Set(node, old)).unwrap();
        Ok(())
    }

    /// Takes the last surviving revision back, which gives the whole history before it. It takes no memory, and leaves the room
    /// that there was.
    ///
    /// # Errors
    ///
    /// `NothingToUndo` where no revision survives, which changes nothing.
    pub fn undo(&mut self) -> Result<(), HistoryFault>
        ensures undone { OnOk result ((revision : Revision)
            × (self.old.state ≡ with_revision self.new.state revision)) }
        ensures refused { IfErr result (FailsUndo self.old.state) }
        ensures unchanged { IfErr result (λ _. self.new.state ≡ self.old.state) }
        ensures room { self.old.spare ≤ self.new.spare }
    {
        let Some(inverse) = self.inverses.pop() else {
            return Err(HistoryFault::NothingToUndo);
        };
        take_back(&mut self.chain, inverse);
        Ok(())
    }

    /// Whether a revision survives, which an undo would take back.
    pub fn can_undo(&self) -> bool
        ensures { IsTrue result ↔ (self.now.state.surviving ≢ []) }
    {
        self.inverses.len() > 0
    }

    /// The number that the next added statement gets, which is asked to be below `u32::MAX`.
    pub fn next_number(&self) -> u32
        requires { next_number self.now.state < 2 ^ 32 - 1 }
        ensures { result ≡ next_number self.now.state }
    {
        (self.chain.nodes() + 1) as u32
    }

    /// The standing statements with their numbers, in increasing order of number.
    ///
    /// # Errors
    ///
    /// Only want of memory.
    pub fn standing(&self) -> Result<Vec<Numbered>, AllocError>
        ensures listed { IfOk result (λ list. list.items ≡ standing self.now.state) }
        ensures few { length (standing self.now.state) ≤ MOST_STATEMENTS }
        ensures rows { row_count (statements_of self.now.state) ≤ MOST_ROWS }
        ensures rising { IsStrictlyIncreasing (numbers_in (standing self.now.state)) }
    {
        listed(self.alloc, &self.chain)
    }

    /// The chain whose linked nodes hold the standing statements in order. It has a node for each statement that the
    /// history began with and each surviving addition, standing or not, and takes no memory.
    pub fn chain(&self) -> &Chain<Numbered>
        ensures listed { linked_items result.now.state ≡ standing self.now.state }
        ensures nodes { length result.now.state.items ≡ length self.now.state.opening
            + length (added_numbers self.now.state.surviving) }
    {
        &self.chain
    }
}

/// The chain of these statements, numbered from 1.
fn opened(alloc: Global, opening: &[Statement]) -> Result<Chain<Numbered>, AllocError>
    requires few { length opening.now ≤ MOST_STATEMENTS }
    ensures { IfOk result (λ chain. IsOpened chain.state (with_numbers_from 1 opening.now)) }
{
    let mut chain = Chain::new(alloc);
    let mut number: u32 = 1;
    for statement in opening {
        chain.push(Numbered {
            number,
            statement: *statement,
        })?;
        number += 1;
    }
    Ok(chain)
}
