//! A value function level by level.

ghost use Rattle.std.specs.Prelude.{◌≡◌, ◌<◌, ◌≤◌, length};
ghost use Rattle.ror_table.specs.Table.{steps};
ghost use Rattle.ror_value.specs.Value.{IsFunctionOf};
ghost use Rattle.ror_show_find_proofs.specs.Levels as spec;
ghost use Rattle.ror_show_find_proofs.specs.Shares.{IsShare};

use crate::share::Share;
use ror_table::Table;
use ror_value::ValueFunction;

/// The marginal value at the level of a rank, as a share of the value of the best levels.
pub fn share_at(table: &Table, function: &ValueFunction, i: usize, r: usize) -> Share
    requires function { IsFunctionOf table.now function.now }
    requires criterion { i < length table.now.criteria }
    requires within { r ≤ steps table.now i }
    ensures value { result ≡ spec.share_at table.now function.now i r }
    ensures share { IsShare result }
{
    Share {
        part: function.marginal(table, i, r).unsigned_abs(),
        whole: function.total().unsigned_abs(),
    }
}

/// The value of all best levels together.
pub fn whole_of(table: &Table, function: &ValueFunction) -> Share
    requires { IsFunctionOf table.now function.now }
    ensures value { result ≡ spec.whole_of function.now }
    ensures share { IsShare result }
{
    let whole = function.total().unsigned_abs();
    Share { part: whole, whole }
}

/// Whether the levels of two ranks are worth the same.
fn is_same_at(table: &Table, function: &ValueFunction, i: usize, r: usize, s: usize) -> bool
    requires function { IsFunctionOf table.now function.now }
    requires criterion { i < length table.now.criteria }
    requires first { r ≤ steps table.now i }
    requires second { s ≤ steps table.now i }
    ensures { result ≡ spec.is_same_at table.now function.now i r s }
{
    share_at(table, function, i, r).part == share_at(table, function, i, s).part
}

/// Whether no worse level is worth the same.
pub fn begins_run(table: &Table, function: &ValueFunction, i: usize, r: usize) -> bool
    requires function { IsFunctionOf table.now function.now }
    requires criterion { i < length table.now.criteria }
    requires within { r ≤ steps table.now i }
    ensures { result ≡ spec.begins_run table.now function.now i r }
{
    r == 0 || !is_same_at(table, function, i, r - 1, r)
}

/// The last level from one on up to which all are worth the same.
pub fn last_of_run(table: &Table, function: &ValueFunction, i: usize, r: usize) -> usize
    requires function { IsFunctionOf table.now function.now }
    requires criterion { i < length table.now.criteria }
    requires within { r ≤ steps table.now i }
    ensures value { result ≡ spec.last_of_run table.now function.now i r }
    ensures within { result ≤ steps table.now i }
{
    let mut last = r;
    'run: while last < table.steps(i) {
        if !is_same_at(table, function, i, last, last + 1) {
            return last;
        }
        last += 1;
    }
    last
}
