//! Repairs with their proofs.

use crate::answer::Certificate;
use ror_system::Multipliers;
use ror_text::Items;

/// A statement that a repair drops, by its number, and the multipliers that refute it together with
/// those kept before it.
#[derive(Debug, Drop)]
pub struct Dropped {
    pub number: u32,
    pub proof: Multipliers,
}

/// What a repair keeps is all that it does not drop; the base is a certificate of the system of what
/// is kept.
#[derive(Debug, Drop)]
pub struct Kept {
    pub dropped: Items<Dropped>,
    pub base: Certificate,
}
