//! A small table that is made.

use ror_table::{Amount, Direction, Draft, DraftFault};
use std::alloc::Global;
use std::test::Fail;

/// A draft of two criteria and one alternative.
fn draft_of_one(alloc: Global) -> Result<Draft, DraftFault> {
    let mut draft = Draft::new(alloc);
    draft.criterion("q", Direction::Max)?;
    draft.criterion_linear("p", Direction::Min)?;
    draft.alternative("a", &[Amount::whole(7), Amount::whole(8)])?;
    Ok(draft)
}

#[test]
fn a_draft_is_finished(rt: HostRuntime) -> Result<(), Fail> {
    let table = draft_of_one(rt.alloc())?.finish()?;
    assert!(rt; table.columns() == 0);
    assert!(rt; table.find_criterion("p") == Some(1));
    Ok(())
}
