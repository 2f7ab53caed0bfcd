//! A decision table.

ghost use Rattle.std.specs.Prelude.{◌≡◌, ◌+◌, ◌<◌, ◌≤◌, ◌≤ℤ◌, pos, true, length, slice_get, unsigned_abs, IfOk, Some};
ghost use Rattle.ror_integers.specs.Vectors.{entry};
ghost use Rattle.ror_text.specs.Reading.{Gives};
ghost use Rattle.ror_table.specs.declared.fault.DraftFault.TheVariants.{Empty, TooMany, WideScale};
ghost use Rattle.ror_table.specs.declared.fault.What.TheVariants.{Steps};
ghost use Rattle.ror_table.specs.declared.limits.TheConstants.{AMOUNT_LIMIT};
ghost use Rattle.ror_table.specs.Amounts.{IsAmount};
ghost use Rattle.ror_table.specs.Blocks.{block, tops};
ghost use Rattle.ror_table.specs.Table.{IsTable, HasPlace, direction_at, is_linear, performance_at, steps, level, rank, width, has_weights, weight, offset, column, columns, alternative_ids, criterion_ids, alternative_named, criterion_named};
ghost use Rattle.ror_table.specs.Draft.{draft_fault, finished};

use crate::amount::Amount;
use crate::direction::Direction;
use crate::draft::Draft;
use crate::fault::{DraftFault, What};
use crate::index::{Index, index_of, width_of};
use crate::levels::worse_count;
use crate::limits::MOST_STEPS;
use crate::weights::all_weights;
use ror_text::reading::refuse_if;
use std::marker::Model;

/// A decision table: at least one alternative, evaluated on at least one criterion. Alternatives,
/// criteria and columns are numbered from 0, steps and classes from 1.
#[derive(Drop)]
pub struct Table {
    draft: Draft,
    index: Index,
    weights: Vec<Vec<i64>>,
}

impl Model for Table {
    ghost use Rattle.ror_table.specs.Table.{DecisionTable};
    ghost use Rattle.ror_table.specs.Index.{IsIndexed};

    ghost Value = { DecisionTable };

    ghost view = { λ t. t.draft };

    ghost invariant = { λ t. IsIndexed t.draft t.index.levels.items t.weights.items t.index.offsets.items t.index.columns };
}

impl Table {
    /// The number of alternatives, from 1 to 200.
    pub fn alternatives(&self) -> usize
        ensures number { result ≡ length self.now.alternatives }
        ensures table { IsTable self.now }
    {
        self.draft.alternatives_count()
    }

    /// The number of criteria, from 1 to 64.
    pub fn criteria(&self) -> usize
        ensures number { result ≡ length self.now.criteria }
        ensures table { IsTable self.now }
    {
        self.draft.criteria_count()
    }

    /// The number of classes, from 0 to 100.
    pub fn classes(&self) -> u32
        ensures number { result ≡ self.now.classes }
        ensures table { IsTable self.now }
    {
        self.draft.class_count()
    }

    /// The number of columns, 2,000 at most: the widths of all criteria together.
    pub fn columns(&self) -> usize
        ensures number { result ≡ columns self.now }
        ensures table { IsTable self.now }
    {
        self.index.columns
    }

    /// Whether greater or smaller performances are better on a criterion.
    pub fn direction(&self, i: usize) -> Direction
        requires { i < length self.now.criteria }
        ensures { result ≡ direction_at self.now i }
    {
        self.draft.direction(i)
    }

    /// Whether value functions are linear on a criterion.
    pub fn linear(&self, i: usize) -> bool
        requires { i < length self.now.criteria }
        ensures { result ≡ is_linear self.now i }
    {
        self.draft.is_linear(i)
    }

    /// The performance of an alternative on a criterion.
    pub fn performance(&self, a: usize, i: usize) -> Amount
        requires alternative { a < length self.now.alternatives }
        requires criterion { i < length self.now.criteria }
        ensures value { result ≡ performance_at self.now a i }
        ensures amount { IsAmount result }
    {
        self.draft.performance(a, i)
    }

    /// How many distinct performances there are on a criterion, less one.
    pub fn steps(&self, i: usize) -> usize
        requires { i < length self.now.criteria }
        ensures { result ≡ steps self.now i }
    {
        self.index.levels[i].len().saturating_sub(1)
    }

    /// How many distinct performances on a criterion are worse than an alternative's.
    pub fn rank(&self, a: usize, i: usize) -> usize
        requires alternative { a < length self.now.alternatives }
        requires criterion { i < length self.now.criteria }
        ensures number { result ≡ rank self.now a i }
        ensures within { result ≤ steps self.now i }
    {
        let performance = self.draft.performance(a, i);
        worse_count(self.draft.direction(i), &self.index.levels[i], performance)
    }

    /// The level of a rank: the performance on a criterion of an alternative that has it.
    pub fn level(&self, i: usize, r: usize) -> Amount
        requires criterion { i < length self.now.criteria }
        requires within { r ≤ steps self.now i }
        ensures { result ≡ level self.now i r }
    {
        for a in 0..self.alternatives() {
            if self.rank(a, i) == r {
                return self.performance(a, i);
            }
        }
        Amount::whole(0)
    }

    /// How many columns a criterion has: one for each step; of a linear criterion one, or none where it has no step.
    pub fn width(&self, i: usize) -> usize
        requires { i < length self.now.criteria }
        ensures number { result ≡ width self.now i }
        ensures within { result ≤ steps self.now i }
    {
        width_of(self.draft.is_linear(i), self.index.levels[i].len())
    }

    /// The weight of a linear criterion's level, so many steps above the worst one: the distances of the levels from the
    /// worst one are in the ratios of their weights, which are whole numbers with no common divisor above 1.
    pub fn weight(&self, i: usize, r: usize) -> i64
        requires criterion { i < length self.now.criteria }
        requires linear { has_weights self.now i ≡ true }
        requires within { r ≤ steps self.now i }
        ensures value { result ≡ weight self.now i r }
        ensures not_below { pos 0 ≤ℤ result }
        ensures small { unsigned_abs result < AMOUNT_LIMIT }
    {
        self.weights[i][r]
    }

    /// What the value of a level counts column `k`, from 0, of its criterion: of a stepwise one 1 where the level lies above
    /// step `k`, else 0; of a linear one its weight.
    pub fn block_entry(&self, i: usize, r: usize, k: usize) -> i64
        requires criterion { i < length self.now.criteria }
        requires within { r ≤ steps self.now i }
        requires place { k < width self.now i }
        ensures value { result ≡ entry (block self.now i r) k }
        ensures not_below { pos 0 ≤ℤ result }
        ensures small { unsigned_abs result < AMOUNT_LIMIT }
    {
        if self.draft.is_linear(i) {
            self.weight(i, r)
        } else if k < r {
            1
        } else {
            0
        }
    }

    /// What the greatest value counts a column: 1 at a step of a stepwise criterion, and the best level's weight on a linear
    /// one.
    pub fn top(&self, c: usize) -> i64
        requires { c < columns self.now }
        ensures value { result ≡ entry (tops self.now) c }
        ensures positive { pos 1 ≤ℤ result }
        ensures small { unsigned_abs result < AMOUNT_LIMIT }
    {
        let i = self.criterion_of(c);
        self.block_entry(i, self.steps(i), c - self.index.offsets[i])
    }

    /// The criterion that a column is one of.
    fn criterion_of(&self, c: usize) -> usize
        requires { c < columns self.now }
        ensures criterion { result < length self.now.criteria }
        ensures begins { offset self.now result ≤ c }
        ensures ends { c < offset self.now (result + 1) }
    {
        self.index.offsets.partition_point(|offset| *offset <= c) - 1
    }

    /// Column `k` of a criterion, from 1 to the criterion's width.
    pub fn column(&self, i: usize, k: usize) -> usize
        requires criterion { i < length self.now.criteria }
        requires positive { 0 < k }
        requires within { k ≤ width self.now i }
        ensures number { result ≡ column self.now i k }
        ensures within { result < columns self.now }
    {
        self.index.offsets[i] + (k - 1)
    }

    /// The id of an alternative.
    pub fn alternative_id(&self, a: usize) -> &str
        requires { a < length self.now.alternatives }
        ensures { slice_get (alternative_ids self.now) a ≡ Some result.now }
    {
        self.draft.alternative_id(a)
    }

    /// The id of a criterion.
    pub fn criterion_id(&self, i: usize) -> &str
        requires { i < length self.now.criteria }
        ensures { slice_get (criterion_ids self.now) i ≡ Some result.now }
    {
        self.draft.criterion_id(i)
    }

    /// The alternative with this id, if there is one.
    pub fn find_alternative(&self, id: &str) -> Option<usize>
        ensures found { HasPlace (alternative_ids self.now) id.now result }
        ensures named { result ≡ alternative_named self.now id.now }
    {
        self.draft.find_alternative(id)
    }

    /// The criterion with this id, if there is one.
    pub fn find_criterion(&self, id: &str) -> Option<usize>
        ensures found { HasPlace (criterion_ids self.now) id.now result }
        ensures named { result ≡ criterion_named self.now id.now }
    {
        self.draft.find_criterion(id)
    }
}

impl Draft {
    /// The table of the draft. A draft that is refused is dropped.
    #[tactic(auto, unfolding(crate::specs::Draft::finished))]
    pub fn finish(self) -> Result<Table, DraftFault>
        ensures exact { Gives (λ t. t) draft_fault result (finished Empty (TooMany Steps) WideScale self) }
        ensures table { IfOk result IsTable }
    {
        refuse_if(self.is_empty(), DraftFault::Empty)?;
        let index = index_of(&self)?;
        refuse_if(index.columns > MOST_STEPS, DraftFault::TooMany(What::Steps))?;
        let weights = all_weights(&self, &index.levels)?;
        Ok(Table {
            draft: self,
            index,
            weights,
        })
    }
}
