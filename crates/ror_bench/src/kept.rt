//! The lines that a check of a report keeps.

ghost use Rattle.std.specs.Prelude.{◌≡◌, ◌<◌, ◌++◌, length, IfOk, OnOk};
ghost use Rattle.ror_bench.specs.Bench.{revisions_at};
ghost use Rattle.ror_bench.specs.Kept as spec;

use crate::bench::Bench;
use ror_report::Block;
use ror_statement::Numbered;
use ror_text::Items;
use std::alloc::{AllocError, Global};

/// What a check keeps of a line of the session.
#[derive(Clone, Copy, Debug, PartialEq, Eq)]
pub enum Keep {
    Nothing,
    /// Its block.
    Block,
    /// Its block, and what stood at its desk before it.
    Standing,
}

/// A line of a session of which a check keeps something.
#[derive(Debug, Drop)]
pub struct KeptLine {
    /// Which of the session's lines it is, from 0.
    pub place: usize,
    /// What stood at its desk before it, with its numbers, in increasing order of number, where that is kept.
    pub standing: Option<Items<Numbered>>,
    /// What came of it.
    pub block: Block,
}

/// What is kept of the line at a place.
pub(crate) fn keep_at(keep: &[Keep], place: usize) -> Keep
    ensures { result ≡ spec.keep_at keep.now place }
{
    match keep.get(place) {
        Some(kept) => *kept,
        None => Keep::Nothing,
    }
}

/// What stands at a desk, where that is kept.
pub(crate) fn standing_for(
    bench: &Bench,
    desk: u32,
    keep: Keep,
) -> Result<Option<Items<Numbered>>, AllocError>
    requires { desk < length bench.now.state }
    ensures { IfOk result (λ list. list ≡ spec.standing_for keep (revisions_at bench.now desk)) }
{
    match keep {
        Keep::Standing => Ok(Some(Items::from(bench.standing(desk)?))),
        _ => Ok(None),
    }
}

/// Adds the line at the place, where something of it is kept.
pub(crate) fn push_kept(
    kept: &mut Vec<KeptLine>,
    place: usize,
    keep: Keep,
    standing: Option<Items<Numbered>>,
    block: Block,
) -> Result<(), AllocError>
    ensures { OnOk result (kept.new.items ≡ kept.old.items ++ spec.kept_of place keep standing block) }
{
    match keep {
        Keep::Nothing => Ok(()),
        _ => {
            let line = KeptLine {
                place,
                standing,
                block,
            };
            kept.push(line)?;
            Ok(())
        }
    }
}
