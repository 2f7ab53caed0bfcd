//! What decides the questions on spans.

ghost use Rattle.std.specs.Prelude.{◌≡◌};

use ror_confidence::Decider;
use ror_pivot::Bits;
use ror_proof::Answer;
use ror_relation::decide_warm;
use ror_statement::{Question, Statement};
use ror_table::Table;
use ror_warm::Engine;
use std::alloc::{AllocError, Global};

/// Decides questions by one engine, which keeps what it met of one level and pair for the next.
#[derive(Drop)]
pub(crate) struct LevelDecider {
    engine: Engine,
}

impl LevelDecider {
    /// One that has met nothing yet.
    pub(crate) fn new(alloc: Global) -> LevelDecider {
        LevelDecider {
            engine: Engine::new(alloc),
        }
    }
}

impl Decider for LevelDecider {
    fn decide(
        &mut self,
        alloc: Global,
        table: &Table,
        list: &[Statement],
        q: &Question,
        bits: Bits,
    ) -> Result<Answer, AllocError> {
        decide_warm(alloc, &mut self.engine, table, list, q, bits)
    }
}
