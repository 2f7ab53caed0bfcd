//! What a value function meets.

ghost use Rattle.std.specs.Prelude.{◌≡◌, ◌↔◌, ◌<◌, ◌≤ℤ◌, pos, length, IsTrue, option_to_list};
ghost use Rattle.std.specs.List.{AllByRecursion, flat_map};
ghost use Rattle.ror_statement.specs.Statements.{comparison_of, outranking, class_comparisons};
ghost use Rattle.ror_statement.specs.Names.{ScopeWithin, PairWithin};
ghost use Rattle.ror_system.specs.System.{IsNarrow};
ghost use Rattle.ror_value.specs.Over.{IsNamedIn, IsValidIn};
ghost use Rattle.ror_value.specs.Value.{IsFunctionOf};
ghost use Rattle.ror_value.specs.Meaning.{value_in, strength, first_quantity, second_quantity, Holds, Meets};

use crate::value_function::ValueFunction;
use ror_statement::{Comparison, Form, Pair, Relation, Scope, Statement};
use ror_table::Table;

impl ValueFunction {
    /// Whether the function meets all that the list says: the comparison of each statement, and of two alternatives of
    /// which one is assigned to classes that are all above those of the other, that it is worth more.
    ///
    /// It asks that what the statements name is in the table.
    pub fn meets(&self, table: &Table, list: &[Statement]) -> bool
        requires function { IsFunctionOf table.now self.now }
        requires named { AllByRecursion (IsValidIn table.now) list.now }
        ensures { IsTrue result ↔ Meets table.now self.now.steps list.now }
    {
        self.meets_each(table, list) && self.ranks_classes(table, list)
    }

    fn meets_each(&self, table: &Table, list: &[Statement]) -> bool
        requires function { IsFunctionOf table.now self.now }
        requires named { AllByRecursion (IsValidIn table.now) list.now }
        ensures { IsTrue result ↔ AllByRecursion (Holds table.now self.now.steps)
            (flat_map (λ s. option_to_list (comparison_of s)) list.now) }
    {
        for statement in list {
            if !self.meets_one(table, *statement) {
                return false;
            }
        }
        true
    }

    fn meets_one(&self, table: &Table, statement: Statement) -> bool
        requires function { IsFunctionOf table.now self.now }
        requires named { IsValidIn table.now statement }
        ensures { IsTrue result ↔ AllByRecursion (Holds table.now self.now.steps)
            (option_to_list (comparison_of statement)) }
    {
        match statement.comparison() {
            Some(comparison) => self.has(table, comparison),
            None => true,
        }
    }

    fn ranks_classes(&self, table: &Table, list: &[Statement]) -> bool
        requires function { IsFunctionOf table.now self.now }
        requires named { AllByRecursion (IsValidIn table.now) list.now }
        ensures { IsTrue result ↔ AllByRecursion (Holds table.now self.now.steps)
            (class_comparisons list.now) }
    {
        for first in list {
            if !self.ranks_above(table, *first, list) {
                return false;
            }
        }
        true
    }

    fn ranks_above(&self, table: &Table, first: Statement, list: &[Statement]) -> bool
        requires function { IsFunctionOf table.now self.now }
        requires first { IsValidIn table.now first }
        requires named { AllByRecursion (IsValidIn table.now) list.now }
        ensures { IsTrue result ↔ AllByRecursion (Holds table.now self.now.steps)
            (flat_map (outranking first) list.now) }
    {
        for second in list {
            if !self.ranks_pair(table, first, *second) {
                return false;
            }
        }
        true
    }

    fn ranks_pair(&self, table: &Table, first: Statement, second: Statement) -> bool
        requires function { IsFunctionOf table.now self.now }
        requires first { IsValidIn table.now first }
        requires second { IsValidIn table.now second }
        ensures { IsTrue result ↔ AllByRecursion (Holds table.now self.now.steps)
            (outranking first second) }
    {
        match (first.assignment(), second.assignment()) {
            (Some(above), Some(below)) if above.outranks(below) => {
                self.value(table, above.alternative) > self.value(table, below.alternative)
            }
            _ => true,
        }
    }

    /// Whether the function has the two quantities in the relation.
    fn has(&self, table: &Table, comparison: Comparison) -> bool
        requires function { IsFunctionOf table.now self.now }
        requires named { IsNamedIn table.now comparison.form }
        ensures { IsTrue result ↔ Holds table.now self.now.steps comparison }
    {
        // The difference of two intensities may not fit; the intensities do.
        let (first, second) = self.quantities(table, comparison.form);
        match comparison.relation {
            Relation::Above => first > second,
            Relation::AtLeast => first >= second,
            Relation::Equal => first == second,
        }
    }

    fn quantities(&self, table: &Table, form: Form) -> (i128, i128)
        requires function { IsFunctionOf table.now self.now }
        requires named { IsNamedIn table.now form }
        ensures first { result.0 ≡ first_quantity table.now self.now.steps form }
        ensures second { result.1 ≡ second_quantity table.now self.now.steps form }
    {
        match form {
            Form::Value(a, b) => (self.value(table, a), self.value(table, b)),
            Form::Strength(p, q, scope) => (
                self.strength(table, scope, p),
                self.strength(table, scope, q),
            ),
        }
    }

    fn strength(&self, table: &Table, scope: Scope, pair: Pair) -> i128
        requires function { IsFunctionOf table.now self.now }
        requires scope { ScopeWithin (length table.now.criteria) scope }
        requires pair { PairWithin (length table.now.alternatives) pair }
        ensures { result ≡ strength table.now self.now.steps scope pair }
    {
        self.value_in(table, scope, pair.first) - self.value_in(table, scope, pair.second)
    }

    fn value_in(&self, table: &Table, scope: Scope, alternative: usize) -> i128
        requires function { IsFunctionOf table.now self.now }
        requires scope { ScopeWithin (length table.now.criteria) scope }
        requires alternative { alternative < length table.now.alternatives }
        ensures number { result ≡ value_in table.now self.now.steps scope alternative }
        ensures bounds { (pos 0 ≤ℤ result) × (result ≤ℤ self.now.total) }
        ensures narrow { IsNarrow self.now.total }
    {
        // The total is a number of 128 bits.
        let _total = self.total();
        match scope {
            Scope::Whole => self.value(table, alternative),
            Scope::One(criterion) => {
                self.marginal(table, criterion, table.rank(alternative, criterion))
            }
        }
    }
}
