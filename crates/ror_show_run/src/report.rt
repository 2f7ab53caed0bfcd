//! A report, fetched and checked; the check keeps the lines of it of which something is needed.

ghost use Rattle.std.specs.Prelude.{◌≡◌, length};
ghost use Rattle.std.specs.List.{AllByRecursion};
ghost use Rattle.ror_value.specs.declared.input.Input.{Input};
ghost use Rattle.ror_bench.specs.Bench.{HoldTheSame, LeavesNumbers};
ghost use Rattle.ror_bench.specs.Reports.{NamesADesk};
ghost use Rattle.ror_frame.specs.States.{shelf_state};
ghost use Rattle.ror_frame.specs.Courses.{IsFetch};
ghost use Rattle.ror_frame.specs.Inputs.{bench_for};
ghost use Rattle.ror_frame.specs.Stops.{last};
ghost use Rattle.ror_work.specs.Checking.{RefusesReport};
ghost use Rattle.ror_show_pages.specs.Reads.{ReadsKept};

use ror_bench::{Bench, Keep, KeptLine, MOST_REPORT_BYTES, Reason, Rejection};
use ror_frame::{Refusal, Stop, fetch_whole};
use ror_io::Shelf;
use ror_session::Session;
use ror_show_pages::kept_in;
use ror_text::Items;
use std::alloc::Global;

/// Fetches the report, and checks it over a bench, which keeps its table. What it gives is what the check kept of the lines.
pub(crate) fn fetch_kept<F: Shelf>(
    alloc: Global,
    report: &str,
    shelf: &mut F,
    bench: &mut Bench,
    session: &Session,
    keep: &[Keep],
) -> Result<Items<KeptLine>, Stop>
    requires desks { AllByRecursion (NamesADesk (length bench.old.state)) session.now.lines }
    requires numbers { AllByRecursion (LeavesNumbers (length session.now.lines)) bench.old.state }
    ensures fetch { (i : Input) → HoldTheSame bench.old (bench_for i session.now)
        → IsFetch report.now last (ReadsKept keep.now i session.now) (RefusesReport i session.now)
        (shelf_state (F.told shelf.old) (F.faults shelf.old) (F.fetch_count shelf.old))
        (shelf_state (F.told shelf.new) (F.faults shelf.new) (F.fetch_count shelf.new)) result }
    ensures table { bench.new.table ≡ bench.old.table }
{
    let too_long = Refusal::Rejected(Rejection {
        block: 0,
        reason: Reason::TooLong,
    });
    let bytes = fetch_whole(alloc, report, MOST_REPORT_BYTES, too_long, shelf)?;
    kept_in(alloc, bench, session, bytes.as_slice(), keep)
}
