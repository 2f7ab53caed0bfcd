//! The bytes of a report, checked; the check keeps the lines of it of which something is needed.

ghost use Rattle.std.specs.Prelude.{◌≡◌, ◌≤◌, length};
ghost use Rattle.std.specs.List.{AllByRecursion};
ghost use Rattle.ror_value.specs.declared.input.Input.{Input};
ghost use Rattle.ror_bench.specs.Bench.{HoldTheSame, LeavesNumbers};
ghost use Rattle.ror_bench.specs.Reports.{NamesADesk};
ghost use Rattle.ror_frame.specs.Courses.{ReadAs};
ghost use Rattle.ror_frame.specs.Inputs.{bench_for};
ghost use Rattle.ror_frame.specs.Stops.{last};
ghost use Rattle.ror_work.specs.Checking.{RefusesReport};
ghost use Rattle.ror_show_pages.specs.Reads.{ReadsKept};

use ror_bench::{Bench, Keep, KeptLine, MOST_REPORT_BYTES, check_report_keeping};
use ror_frame::Stop;
use ror_session::Session;
use ror_text::Items;
use std::alloc::Global;

/// Checks the bytes of a report, and keeps the lines of it of which something is needed.
///
/// # Errors
///
/// What the check rejects first, or want of memory.
pub fn kept_in(
    alloc: Global,
    bench: &mut Bench,
    session: &Session,
    bytes: &[u8],
    keep: &[Keep],
) -> Result<Items<KeptLine>, Stop>
    requires desks { AllByRecursion (NamesADesk (length bench.old.state)) session.now.lines }
    requires numbers { AllByRecursion (LeavesNumbers (length session.now.lines)) bench.old.state }
    requires within { length bytes.now ≤ MOST_REPORT_BYTES }
    ensures read { (i : Input) → HoldTheSame bench.old (bench_for i session.now)
        → ReadAs last (ReadsKept keep.now i session.now) (RefusesReport i session.now) bytes.now result }
    ensures table { bench.new.table ≡ bench.old.table }
{
    let lines = session.lines.as_slice();
    let checked = check_report_keeping(alloc, bench, lines, bytes, keep)?;
    Ok(Items::from(checked.1))
}
