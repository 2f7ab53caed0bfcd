//! The desks that a session begins with.

ghost use Rattle.std.specs.Prelude.{◌≡◌, length, IfOk};
ghost use Rattle.std.specs.List.{AllByRecursion};
ghost use Rattle.ror_value.specs.Over.{IsLawfulIn};
ghost use Rattle.ror_session.specs.Sound.{IsSound};
ghost use Rattle.ror_bench.specs.Bench.{HoldTheSame, IsLawfulBench, LeavesNumbers};
ghost use Rattle.ror_bench.specs.Reports.{NamesADesk};
ghost use Rattle.ror_frame.specs.Inputs.{bench_for};

use ror_bench::Bench;
use ror_session::Session;
use ror_xmcda::Input;
use std::alloc::{AllocError, Global};

/// A bench over the input's table with a desk for each name of the session, at which the opening statements stand. Its one error is
/// want of memory.
pub fn opened_desks(alloc: Global, input: Input, session: &Session) -> Result<Bench, AllocError>
    requires lawful { IsLawfulIn input.table input.opening }
    requires sound { IsSound session.now }
    ensures begun { IfOk result (λ bench. HoldTheSame bench (bench_for input session.now)) }
    ensures count { IfOk result (λ bench. length bench.state ≡ length session.now.desks) }
    ensures lawful { IfOk result IsLawfulBench }
    ensures desks { IfOk result (λ bench. AllByRecursion (NamesADesk (length bench.state)) session.now.lines) }
    ensures numbers { IfOk result (λ bench. AllByRecursion (LeavesNumbers (length session.now.lines)) bench.state) }
{
    let desks = session.desks.len() as u32;
    let bench = Bench::new(alloc, input, desks)?;
    Ok(bench)
}
