//! The engine: its calls, and in which order it tries what it keeps, pivots from the last tableau, and the path.

ghost use Rattle.std.specs.Prelude.{◌≡◌, ◌≢◌, ◌↔◌, ◌≤◌, Some, None, IsTrue, IfOk, IfErr, IfSome};
ghost use Rattle.ror_pivot.specs.Answers.{IsAccepted, IsNarrowOutcome, most_of};
ghost use Rattle.ror_pivot.specs.declared.note.SolveFault.TheVariants.{Memory};
ghost use Rattle.ror_warm.specs.Engine.{IsFitting, IsFaultOf, present_after};

use crate::fitting::outcome_fits;
use crate::present::{copied, front_of, is_same};
use crate::warm::Warm;
use ror_pivot::{Bits, Outcome, SolveFault, solve_counted};
use ror_system::System;
use std::alloc::{AllocError, Global};
use std::marker::Model;

/// Decides systems one after the other, and keeps of each what may save pivots at the next. Clauses see the present system,
/// which is the last one that was asked of, and how many pivots were made.
#[derive(Drop)]
pub struct Engine {
    present: Option<System>,
    warm: Warm,
    pivots: u64,
    alloc: Global,
}

impl Model for Engine {
    ghost use Rattle.ror_warm.specs.Engine.{EngineView};

    ghost Value = { EngineView };

    ghost view = { λ engine. record { present = engine.present; pivots = engine.pivots } };
}

impl Engine {
    /// No system is present, and no pivot was made. The engine keeps its allocator, and takes no memory here.
    pub fn new(alloc: Global) -> Engine
        ensures present { result.present ≡ None }
        ensures pivots { result.pivots ≡ 0 }
    {
        Engine {
            present: None,
            warm: Warm::new(alloc),
            pivots: 0,
            alloc,
        }
    }

    /// Decides a system at this width. The outcome is accepted by `ror_system`, and none of its numbers passes the width;
    /// afterwards the system is present.
    ///
    /// # Errors
    ///
    /// `Wide` only where the system's path has that note at this width, and the system is present all the same. Want of
    /// memory, after which no system is present. After either the engine answers as ever.
    pub fn solve_warm(&mut self, s: &System, bits: Bits) -> Result<Outcome, SolveFault>
        ensures accepted { IfOk result (IsAccepted s.now) }
        ensures narrow { IfOk result (IsNarrowOutcome (most_of bits)) }
        ensures note { IfErr result (IsFaultOf (most_of bits) s.now) }
        ensures present { self.new.present ≡ present_after s.now result }
        ensures counted { self.old.pivots ≤ self.new.pivots }
    {
        match self.decide(s, bits) {
            Err(SolveFault::Memory) => {
                self.forget();
                Err(SolveFault::Memory)
            }
            answer => answer,
        }
    }

    /// Whether the rows of the present system are those of this one: the weak ones, and the strict ones, each in order, over as
    /// many columns. It takes no memory.
    pub fn holds(&self, s: &System) -> bool
        ensures { IsTrue result ↔ (self.now.present ≡ Some s.now) }
    {
        match &self.present {
            Some(present) => is_same(present, s),
            None => false,
        }
    }

    /// How many pivots were made so far. The count stands still at its greatest value.
    pub fn pivots(&self) -> u64
        ensures { result ≡ self.now.pivots }
    {
        self.pivots
    }

    /// Decides a system, as `solve_warm` does but for what stands after want of memory.
    fn decide(&mut self, s: &System, bits: Bits) -> Result<Outcome, SolveFault>
        ensures fitting { IfOk result (IsFitting (most_of bits) s.now) }
        ensures note { IfErr result (IsFaultOf (most_of bits) s.now) }
        ensures present { result ≢ Err Memory → self.new.present ≡ Some s.now }
        ensures counted { self.old.pivots ≤ self.new.pivots }
    {
        let front = front_of(&self.present, s);
        self.present = Some(copied(self.alloc, s)?);
        self.warm.take_over(s, front)?;
        if let Some(outcome) = self.kept(s, bits)? {
            return Ok(outcome);
        }
        if let Some(outcome) = self.pivoted(s, bits)? {
            self.warm.keep(&outcome)?;
            return Ok(outcome);
        }
        self.by_path(s, bits)
    }

    /// What the path of the present system comes to, which is kept.
    fn by_path(&mut self, s: &System, bits: Bits) -> Result<Outcome, SolveFault>
        ensures fitting { IfOk result (IsFitting (most_of bits) s.now) }
        ensures note { IfErr result (IsFaultOf (most_of bits) s.now) }
        ensures present { self.new.present ≡ self.old.present }
        ensures counted { self.old.pivots ≤ self.new.pivots }
    {
        match solve_counted(self.alloc, s, bits, &mut self.pivots) {
            Ok(outcome) => {
                self.warm.keep(&outcome)?;
                Ok(outcome)
            }
            Err(fault) => Err(fault),
        }
    }

    /// A kept certificate that is accepted for the present system and fits the width.
    fn kept(&mut self, s: &System, bits: Bits) -> Result<Option<Outcome>, AllocError>
        ensures fitting { IfOk result (λ found. IfSome found (IsFitting (most_of bits) s.now)) }
        ensures present { self.new.present ≡ self.old.present }
        ensures pivots { self.new.pivots ≡ self.old.pivots }
    {
        if let Some(outcome) = self.warm.kept_solution()? {
            if outcome_fits(s, &outcome, bits) {
                return Ok(Some(outcome));
            }
        }
        match self.warm.kept_multipliers()? {
            Some(outcome) if outcome_fits(s, &outcome, bits) => Ok(Some(outcome)),
            _ => Ok(None),
        }
    }

    /// What the pivots from the last tableau come to, where it is accepted for the present system and fits the width. Where it
    /// isn't, rounding may have taken too much, and the basis is built anew.
    fn pivoted(&mut self, s: &System, bits: Bits) -> Result<Option<Outcome>, AllocError>
        ensures fitting { IfOk result (λ found. IfSome found (IsFitting (most_of bits) s.now)) }
        ensures present { self.new.present ≡ self.old.present }
        ensures counted { self.old.pivots ≤ self.new.pivots }
    {
        match self.warm.pivoted(&mut self.pivots)? {
            Some(outcome) if outcome_fits(s, &outcome, bits) => Ok(Some(outcome)),
            Some(_) => self.pivoted_anew(s, bits),
            None => self.pivoted_exactly(s, bits),
        }
    }

    /// What the pivots from the basis of the last tableau, built anew, come to, where it is accepted and fits the width.
    fn pivoted_anew(&mut self, s: &System, bits: Bits) -> Result<Option<Outcome>, AllocError>
        ensures fitting { IfOk result (λ found. IfSome found (IsFitting (most_of bits) s.now)) }
        ensures present { self.new.present ≡ self.old.present }
        ensures counted { self.old.pivots ≤ self.new.pivots }
    {
        match self.warm.pivoted_anew(&mut self.pivots)? {
            Some(outcome) if outcome_fits(s, &outcome, bits) => Ok(Some(outcome)),
            _ => self.pivoted_exactly(s, bits),
        }
    }

    /// What exact pivots from nothing come to, where it is accepted and fits the width: what is rounded may pass it, or its steps
    /// lie too far apart.
    fn pivoted_exactly(&mut self, s: &System, bits: Bits) -> Result<Option<Outcome>, AllocError>
        ensures fitting { IfOk result (λ found. IfSome found (IsFitting (most_of bits) s.now)) }
        ensures present { self.new.present ≡ self.old.present }
        ensures counted { self.old.pivots ≤ self.new.pivots }
    {
        match self.warm.pivoted_exactly(&mut self.pivots)? {
            Some(outcome) if outcome_fits(s, &outcome, bits) => Ok(Some(outcome)),
            _ => Ok(None),
        }
    }

    /// Gives up all that is kept; no system is present.
    fn forget(&mut self)
        ensures present { self.new.present ≡ None }
        ensures pivots { self.new.pivots ≡ self.old.pivots }
    {
        self.present = None;
        self.warm.forget();
    }
}
