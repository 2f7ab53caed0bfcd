//! The names of a table's file beside ids, for the pages of a report, which have ids alone.

ghost use Rattle.std.specs.Prelude.{◌≡◌, IfOk};
ghost use Rattle.ror_show_sheet.specs.Beside as spec;
ghost use Rattle.ror_show_sheet.specs.Beside.{IsLegend};

use crate::behind::below;
use crate::names::{add_categories, add_named, is_same};
use crate::notes::Notes;
use ror_show_hints::Glance;
use ror_table::Table;
use std::alloc::{AllocError, Global};

/// Which names a legend has besides those of alternatives.
#[derive(Clone, Copy, Debug)]
pub struct Named {
    pub criteria: bool,
    pub classes: bool,
}

/// The names that the file of a table gives, each beside its id; nothing where it gives none, and where what was seen of the file has
/// other ids than the table. They are notes below a head, and what they say is promised by nothing.
///
/// # Errors
///
/// Only want of memory.
pub fn legend(
    alloc: Global,
    table: &Table,
    seen: &Glance<'_>,
    best_first: bool,
    named: Named,
) -> Result<Vec<u8>, AllocError>
    ensures { IfOk result (λ text. IsLegend text.items) }
{
    let mut notes = Notes::new(alloc);
    if is_same(table, seen) {
        if named.classes {
            add_categories(&mut notes, seen, best_first, table.classes())?;
        }
        add_named(&mut notes, seen, named.criteria)?;
    }
    below(alloc, names_head(), notes.lines())
}

#[tactic(auto, unfolding(crate::specs::Beside::names_head))]
fn names_head() -> &'static [u8]
    ensures { result.now ≡ spec.names_head }
{
    b"names, by the lines of the table's file\n"
}
