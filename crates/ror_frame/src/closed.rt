//! The desks of a session after all its lines.

ghost use Rattle.std.specs.Prelude.{◌≡◌, length, IfOk};
ghost use Rattle.std.specs.List.{AllByRecursion};
ghost use Rattle.ror_value.specs.Over.{IsLawfulIn};
ghost use Rattle.ror_session.specs.Sound.{IsSound};
ghost use Rattle.ror_closing.specs.Closing.{AreSuited, AreClosingLists};
ghost use Rattle.ror_frame.specs.Inputs.{bench_for};

use crate::opened::opened_desks;
use ror_bench::Bench;
use ror_closing::{ClosingFault, closing_lists};
use ror_session::Session;
use ror_statement::Statement;
use ror_text::Items;
use ror_xmcda::Input;
use std::alloc::{AllocError, Global};

/// A bench over the input's table, and the closing list of each desk of a session without an unsuited line. Its one error is want
/// of memory.
pub fn closed_desks(
    alloc: Global,
    input: Input,
    session: &Session,
) -> Result<(Bench, Vec<Items<Statement>>), AllocError>
    requires lawful { IsLawfulIn input.table input.opening }
    requires sound { IsSound session.now }
    requires suited { AreSuited session.now.lines }
    ensures table { IfOk result (λ x. x.0.table ≡ input.table) }
    ensures closing { IfOk result
        (λ x. AreClosingLists (bench_for input session.now) session.now.lines x.1.items) }
    ensures lawful { IfOk result (λ x. AllByRecursion (IsLawfulIn input.table) x.1.items) }
    ensures count { IfOk result (λ x. length x.1.items ≡ length session.now.desks) }
{
    let desks = session.desks.len() as u32;
    let mut bench = opened_desks(alloc, input, session)?;
    match closing_lists(alloc, &mut bench, desks, session.lines.as_slice()) {
        Ok(lists) => Ok((bench, lists)),
        Err(ClosingFault::Memory) => Err(AllocError),
        Err(ClosingFault::Unsuited(_)) => unreachable!(),
    }
}
