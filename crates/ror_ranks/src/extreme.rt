//! The extreme ranks of an alternative, each with what proves it.

ghost use Rattle.std.specs.Prelude.{◌≡◌, IfOk};

use ror_pivot::WideNote;
use ror_proof::names::Name;
use ror_system::{Multipliers, Solution};
use ror_text::Items;
use std::alloc::{AllocError, Global};

/// Which of the two extreme ranks is meant. The other alternatives that *count* on a side are, by a value function, for the best rank
/// those that are worth more, and for the worst rank those that aren't.
#[derive(Clone, Copy, Debug, PartialEq, Eq)]
pub enum Side {
    /// The best rank over all compatible functions: 1 more than the fewest that count.
    Best,
    /// The worst rank over all compatible functions: all alternatives less the fewest that count.
    Worst,
}

/// The two sides, of which each alternative has a rank.
pub const SIDES: [Side; 2] = [Side::Best, Side::Worst];

impl Name for Side {
    ghost use Rattle.ror_ranks.specs.SideNames.{side_word};

    ghost word_of = { side_word };

    fn word(self) -> &'static [u8] {
        match self {
            Side::Best => b"best",
            Side::Worst => b"worst",
        }
    }
}

/// Other alternatives of which some one counts, whatever the compatible function.
#[derive(Debug, Drop)]
pub struct Conflict {
    /// The alternatives, in order of the table.
    pub members: Items<usize>,
    /// They refute the statements and that none of the members counts.
    pub multipliers: Multipliers,
}

impl Conflict {
    /// The same conflict again.
    pub fn copied(&self, alloc: Global) -> Result<Conflict, AllocError>
        ensures { IfOk result (λ copy. copy ≡ self.now) }
    {
        let members = Vec::from_slice(alloc, self.members.as_slice())?;
        Ok(Conflict {
            members: Items::from(members),
            multipliers: self.multipliers.copied(alloc)?,
        })
    }
}

/// A node of a tree that shows that no few alternatives meet all conflicts: each before those below it. It is reached with a set of
/// alternatives, the first one with none. Conflicts are named by their places, from 0.
#[derive(Debug, Drop)]
pub enum Node {
    /// These conflicts share no member with each other or with the set, so that at least as many more alternatives are needed.
    Leaf(Items<u32>),
    /// This conflict shares no member with the set. Below the node is a tree for each member, which joins the set there.
    Branch(u32),
}

/// Between which two ranks an extreme rank lies, with the proof of both ends. Where they are the same, it is this rank.
#[derive(Debug, Drop)]
pub struct Interval {
    pub from: u32,
    pub to: u32,
    /// In order of the table the alternatives that may count by the function; none of the others does.
    pub except: Items<usize>,
    /// The steps of a compatible function.
    pub function: Solution,
    /// Of each of these some member counts by every compatible function.
    pub conflicts: Items<Conflict>,
    /// The nodes of a tree that shows how many count at least.
    pub tree: Items<Node>,
}

/// A number that is too wide to decide whether some compatible function counts none of these alternatives.
#[derive(Debug, Drop)]
pub struct WideExtreme {
    pub members: Items<usize>,
    pub note: WideNote,
}

/// What is said of an extreme rank.
#[derive(Debug, Drop)]
pub enum Said {
    Within(Interval),
    Wide(WideExtreme),
}

/// What is said of the best or the worst rank of an alternative, which is a place in the table.
#[derive(Debug, Drop)]
pub struct Extreme {
    pub alternative: usize,
    pub side: Side,
    pub said: Said,
}
