//! The check of a group's report that keeps its entries.

ghost use Rattle.std.specs.Prelude.{◌≡◌, ◌≤◌, length};
ghost use Rattle.std.specs.List.{AllByRecursion};
ghost use Rattle.ror_value.specs.declared.input.Input.{Input};
ghost use Rattle.ror_value.specs.Over.{IsLawfulIn};
ghost use Rattle.ror_closing.specs.Closing.{AreClosingLists};
ghost use Rattle.ror_frame.specs.Inputs.{bench_for};
ghost use Rattle.ror_frame.specs.Courses.{ReadAs};
ghost use Rattle.ror_frame.specs.Stops.{last};
ghost use Rattle.ror_work_group.specs.Group.{KeepsGroup, RefusesGroup};

use crate::check::entries_start;
use crate::judge::GroupJudge;
use ror_bench::MOST_REPORT_BYTES;
use ror_entries::keep_entries;
use ror_frame::Stop;
use ror_group::Entry;
use ror_session::Session;
use ror_statement::Statement;
use ror_table::Table;
use ror_text::Items;
use std::alloc::Global;

/// Checks the bytes of a group's report over a table, and keeps its entries. The lists are what stands at the session's desks at its end.
///
/// # Errors
///
/// What a check of the report rejects first, or want of memory.
pub fn keep_group(
    alloc: Global,
    table: &Table,
    session: &Session,
    lists: &[Items<Statement>],
    bytes: &[u8],
) -> Result<Items<Entry>, Stop>
    requires lawful { AllByRecursion (IsLawfulIn table.now) lists.now }
    requires few { length lists.now ≤ 64 }
    requires within { length bytes.now ≤ MOST_REPORT_BYTES }
    ensures { (i : Input) → i.table ≡ table.now → AreClosingLists (bench_for i session.now) session.now.lines lists.now
        → ReadAs last (KeepsGroup i session.now) (RefusesGroup i session.now) bytes.now result }
{
    let start = entries_start(session, bytes)?;
    let mut judge = GroupJudge::new(alloc, table, lists, bytes)?;
    let kept = keep_entries(alloc, &mut judge, start)?;
    Ok(Items::from(kept))
}
