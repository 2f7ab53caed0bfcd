//! Pairs of alternatives with what carries them, as values.

ghost use Rattle.std.specs.Prelude.{◌≡◌, option_map};
ghost use Rattle.ror_show_find_reasons.specs.Pairs as spec;

use crate::numbers::numbers_of;
use ror_reason::Reason;
use ror_show_find_relation::{Differences, RelationPage};
use ror_text::Items;

/// An ordered pair, and why the first is at least as good as the second by every function.
#[derive(Debug, Drop)]
pub struct CarriedPair {
    pub pair: (usize, usize),
    /// None where no answer says that it is.
    pub reason: Option<Reason>,
    /// Why the first is better by every function; none where no answer says that by no function the second is at least as good.
    pub better: Option<Reason>,
}

impl CarriedPair {
    /// The numbers of statements that carry it, of which none can be spared; none where a number is too wide to know which.
    pub fn numbers(&self) -> Option<&[u32]>
        ensures { option_map (λ x. x.now) result ≡ spec.carrying_numbers self.now }
    {
        match &self.reason {
            Some(reason) => numbers_of(reason),
            None => None,
        }
    }
}

/// What holds between the alternatives at a line.
#[derive(Debug, Drop)]
pub struct RelationFound {
    /// Its place among the kept lines.
    pub place: usize,
    pub relation: RelationPage,
    /// The arrows, in order; none where what carries them isn't sought, or what stood isn't kept.
    pub carried: Items<CarriedPair>,
}

/// What changed from one relation to the next one at its desk.
#[derive(Debug, Drop)]
pub struct ChangeFound {
    /// The places of both lines among the kept ones.
    pub before: usize,
    pub now: usize,
    pub first: RelationPage,
    pub second: RelationPage,
    pub pairs: Differences,
    /// What was turned round, as it is now, and what is new; none where what carries it isn't sought.
    pub brought: Items<CarriedPair>,
}
