//! Dominance between alternatives: what the table alone decides.

ghost use Rattle.std.specs.Prelude.{◌≡◌, ◌<◌, length, IfOk};
ghost use Rattle.ror_show_find_relation.specs.Dominance as spec;

use crate::relation::Relation;
use ror_table::Table;
use ror_text::Items;
use std::alloc::{AllocError, Global};

/// The relation of dominance among the table's alternatives.
pub(crate) fn dominance(alloc: Global, table: &Table) -> Result<Relation, AllocError>
    ensures { IfOk result (λ made. made ≡ spec.dominance table.now) }
{
    let mut rows = Vec::new(alloc);
    for a in 0..table.alternatives() {
        rows.push(dominated_by(alloc, table, a)?)?;
    }
    Ok(Relation::new(rows))
}

/// Which alternatives an alternative dominates.
fn dominated_by(alloc: Global, table: &Table, a: usize) -> Result<Items<bool>, AllocError>
    requires { a < length table.now.alternatives }
    ensures { IfOk result (λ made. made ≡ spec.dominated_by table.now a) }
{
    let mut row = Vec::new(alloc);
    for b in 0..table.alternatives() {
        row.push(dominates(table, a, b))?;
    }
    Ok(Items::from(row))
}

/// Whether the one is on no criterion worse than the other.
pub fn dominates(table: &Table, a: usize, b: usize) -> bool
    requires first { a < length table.now.alternatives }
    requires second { b < length table.now.alternatives }
    ensures { result ≡ spec.dominates table.now a b }
{
    for i in 0..table.criteria() {
        if table.rank(a, i) < table.rank(b, i) {
            return false;
        }
    }
    true
}
