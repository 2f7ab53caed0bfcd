//! A table that is being made.

ghost use Rattle.std.specs.Prelude.{◌≡◌, [], ◌<◌, ◌≤◌, ◌==◌, ◌||◌, false, true, length, slice_get, All, is_some, OnOk, OnErr, IfOk, Some};
ghost use Rattle.ror_text.specs.Ids.{IsId};
ghost use Rattle.ror_text.specs.Reading.{Gives};
ghost use Rattle.ror_table.specs.declared.fault.DraftFault.TheVariants.{BadId, RepeatedId, TooMany};
ghost use Rattle.ror_table.specs.declared.fault.What.TheVariants.{Alternatives, Criteria};
ghost use Rattle.ror_table.specs.declared.limits.TheConstants.{MOST_ALTERNATIVES, MOST_CLASSES, MOST_CRITERIA};
ghost use Rattle.ror_table.specs.Plain.{is_past_criteria};
ghost use Rattle.ror_table.specs.Amounts.{IsAmount};
ghost use Rattle.ror_table.specs.Table.{HasPlace, criterion_ids, alternative_ids, direction_at, is_linear, performance_at, performances_on};
ghost use Rattle.ror_table.specs.Draft.{draft_fault, empty_table, has_id, add_criterion, add_alternative, with_criterion, with_alternative, IsDraft};

use crate::amount::Amount;
use crate::direction::{Direction, Scale};
use crate::fault::{DraftFault, What};
use crate::limits::{MOST_ALTERNATIVES, MOST_CRITERIA};
use indexmap::IndexMap;
use ror_text::ids::is_id;
use ror_text::reading::refuse_if;
use std::alloc::{AllocError, Global};
use std::marker::Model;

/// A table that is being made: criteria first, then alternatives. Clauses see what it holds.
#[derive(Drop)]
pub struct Draft {
    criteria: IndexMap<String, Scale>,
    alternatives: IndexMap<String, Vec<Amount>>,
    classes: u32,
    alloc: Global,
}

impl Model for Draft {
    ghost use Rattle.ror_table.specs.Table.{DecisionTable};
    ghost use Rattle.ror_table.specs.Draft.{IsDraft};

    ghost Value = { DecisionTable };

    ghost use Rattle.ror_table.specs.Contents.{contents};

    ghost view = { contents };

    ghost invariant = { λ d. IsDraft (contents d) };
}

impl Draft {
    /// A draft without criteria, alternatives and classes.
    pub fn new(alloc: Global) -> Draft
        ensures { result ≡ empty_table }
    {
        Draft {
            criteria: IndexMap::new(alloc),
            alternatives: IndexMap::new(alloc),
            classes: 0,
            alloc,
        }
    }

    /// Adds a stepwise criterion after the others, before any alternative.
    pub fn criterion(&mut self, id: &str, direction: Direction) -> Result<(), DraftFault>
        requires { self.old.alternatives ≡ [] }
        ensures exact { Gives (λ _. self.new) draft_fault result
            (with_criterion BadId RepeatedId (TooMany Criteria) self.old id.now
            (record { direction = direction; linear = false })) }
        ensures added { OnOk result (self.new ≡ add_criterion self.old id.now
            (record { direction = direction; linear = false })) }
        ensures unchanged { OnErr result (self.new ≡ self.old) }
    {
        self.with_scale(
            id,
            Scale {
                direction,
                linear: false,
            },
        )
    }

    /// Adds a linear criterion after the others, before any alternative.
    pub fn criterion_linear(&mut self, id: &str, direction: Direction) -> Result<(), DraftFault>
        requires { self.old.alternatives ≡ [] }
        ensures exact { Gives (λ _. self.new) draft_fault result
            (with_criterion BadId RepeatedId (TooMany Criteria) self.old id.now
            (record { direction = direction; linear = true })) }
        ensures added { OnOk result (self.new ≡ add_criterion self.old id.now
            (record { direction = direction; linear = true })) }
        ensures unchanged { OnErr result (self.new ≡ self.old) }
    {
        self.with_scale(
            id,
            Scale {
                direction,
                linear: true,
            },
        )
    }

    /// Adds a criterion with this scale, unless one of the tests refuses it.
    #[tactic(auto, unfolding(crate::specs::Draft::with_criterion))]
    fn with_scale(&mut self, id: &str, scale: Scale) -> Result<(), DraftFault>
        requires { self.old.alternatives ≡ [] }
        ensures exact { Gives (λ _. self.new) draft_fault result
            (with_criterion BadId RepeatedId (TooMany Criteria) self.old id.now scale) }
        ensures added { OnOk result (self.new ≡ add_criterion self.old id.now scale) }
        ensures unchanged { OnErr result (self.new ≡ self.old) }
    {
        refuse_if(!is_id(id.as_bytes()), DraftFault::BadId)?;
        refuse_if(self.find_criterion(id).is_some(), DraftFault::RepeatedId)?;
        refuse_if(
            self.criteria_count() >= MOST_CRITERIA,
            DraftFault::TooMany(What::Criteria),
        )?;
        self.put_criterion(id, scale)?;
        Ok(())
    }

    /// Sets the number of classes, 100 at most.
    pub fn classes(&mut self, count: u32)
        requires { count ≤ MOST_CLASSES }
        ensures { self.new ≡ record self.old { classes = count } }
    {
        self.classes = count;
    }

    /// Adds an alternative after the others, with one performance for each criterion.
    #[tactic(auto, unfolding(crate::specs::Draft::with_alternative))]
    pub fn alternative(&mut self, id: &str, performances: &[Amount]) -> Result<(), DraftFault>
        requires width { length performances.now ≡ length self.old.criteria }
        requires amounts { All IsAmount performances.now }
        ensures exact { Gives (λ _. self.new) draft_fault result
            (with_alternative BadId RepeatedId
            (TooMany Alternatives) self.old id.now performances.now) }
        ensures added { OnOk result (self.new ≡ add_alternative self.old id.now performances.now) }
        ensures unchanged { OnErr result (self.new ≡ self.old) }
    {
        refuse_if(!is_id(id.as_bytes()), DraftFault::BadId)?;
        refuse_if(self.find_alternative(id).is_some(), DraftFault::RepeatedId)?;
        refuse_if(
            self.alternatives_count() >= MOST_ALTERNATIVES,
            DraftFault::TooMany(What::Alternatives),
        )?;
        self.put_alternative(id, performances)?;
        Ok(())
    }

    /// Adds a criterion with a valid id that is free, for which there is room: only memory can be lacking.
    pub fn put_criterion(&mut self, id: &str, scale: Scale) -> Result<(), AllocError>
        requires first { self.old.alternatives ≡ [] }
        requires valid { IsId id.now }
        requires absent { has_id (criterion_ids self.old) id.now ≡ false }
        requires room { length self.old.criteria < MOST_CRITERIA }
        ensures added { OnOk result (self.new ≡ add_criterion self.old id.now scale) }
        ensures unchanged { OnErr result (self.new ≡ self.old) }
    {
        let key = String::from_str(self.alloc, id)?;
        self.criteria.insert(key, scale)?;
        Ok(())
    }

    /// Adds an alternative with a valid id that is free, for which there is room: only memory can be lacking.
    pub fn put_alternative(&mut self, id: &str, performances: &[Amount]) -> Result<(), AllocError>
        requires width { length performances.now ≡ length self.old.criteria }
        requires amounts { All IsAmount performances.now }
        requires valid { IsId id.now }
        requires absent { has_id (alternative_ids self.old) id.now ≡ false }
        requires room { length self.old.alternatives < MOST_ALTERNATIVES }
        ensures added { OnOk result (self.new ≡ add_alternative self.old id.now performances.now) }
        ensures unchanged { OnErr result (self.new ≡ self.old) }
    {
        let key = String::from_str(self.alloc, id)?;
        let row = Vec::from_slice(self.alloc, performances)?;
        self.alternatives.insert(key, row)?;
        Ok(())
    }

    pub(crate) fn criteria_count(&self) -> usize
        ensures number { result ≡ length self.now.criteria }
        ensures draft { IsDraft self.now }
    {
        self.criteria.len()
    }

    pub(crate) fn alternatives_count(&self) -> usize
        ensures number { result ≡ length self.now.alternatives }
        ensures draft { IsDraft self.now }
    {
        self.alternatives.len()
    }

    /// Whether there is no criterion or no alternative.
    pub(crate) fn is_empty(&self) -> bool
        ensures { result ≡ (length self.now.criteria == 0 || length self.now.alternatives == 0) }
    {
        self.criteria.is_empty() || self.alternatives.is_empty()
    }

    /// Whether no criterion and no number of classes may follow, since there are classes or
    /// alternatives.
    pub(crate) fn is_past_criteria(&self) -> bool
        ensures past { result ≡ is_past_criteria self.now }
        ensures first { result ≡ false → self.now.alternatives ≡ [] }
    {
        self.classes != 0 || !self.alternatives.is_empty()
    }

    pub(crate) fn class_count(&self) -> u32
        ensures { result ≡ self.now.classes }
    {
        self.classes
    }

    pub(crate) fn find_criterion(&self, id: &str) -> Option<usize>
        ensures found { HasPlace (criterion_ids self.now) id.now result }
        ensures known { is_some result ≡ has_id (criterion_ids self.now) id.now }
    {
        self.criteria.get_index_of(id)
    }

    pub(crate) fn find_alternative(&self, id: &str) -> Option<usize>
        ensures found { HasPlace (alternative_ids self.now) id.now result }
        ensures known { is_some result ≡ has_id (alternative_ids self.now) id.now }
    {
        self.alternatives.get_index_of(id)
    }

    pub(crate) fn allocator(&self) -> Global {
        self.alloc
    }

    pub(crate) fn direction(&self, i: usize) -> Direction
        requires { i < length self.now.criteria }
        ensures { result ≡ direction_at self.now i }
    {
        self.criteria.values().as_slice()[i].direction
    }

    pub(crate) fn is_linear(&self, i: usize) -> bool
        requires { i < length self.now.criteria }
        ensures { result ≡ is_linear self.now i }
    {
        self.criteria.values().as_slice()[i].linear
    }

    pub(crate) fn performance(&self, a: usize, i: usize) -> Amount
        requires alternative { a < length self.now.alternatives }
        requires criterion { i < length self.now.criteria }
        ensures { result ≡ performance_at self.now a i }
    {
        self.alternatives.values().as_slice()[a][i]
    }

    pub(crate) fn criterion_id(&self, i: usize) -> &str
        requires { i < length self.now.criteria }
        ensures { slice_get (criterion_ids self.now) i ≡ Some result.now }
    {
        self.criteria.keys().as_slice()[i].as_str()
    }

    pub(crate) fn alternative_id(&self, a: usize) -> &str
        requires { a < length self.now.alternatives }
        ensures { slice_get (alternative_ids self.now) a ≡ Some result.now }
    {
        self.alternatives.keys().as_slice()[a].as_str()
    }

    /// The performances of all alternatives on a criterion, in the alternatives' order.
    pub(crate) fn performances_on(&self, i: usize) -> Result<Vec<Amount>, AllocError>
        requires { i < length self.now.criteria }
        ensures exact { IfOk result (λ performances. performances.items ≡ performances_on self.now i) }
        ensures amounts { IfOk result (λ performances. All IsAmount performances.items) }
    {
        let rows = self.alternatives.values().as_slice();
        let mut performances = Vec::new(self.alloc);
        for row in rows {
            performances.push(row[i])?;
        }
        Ok(performances)
    }
}
