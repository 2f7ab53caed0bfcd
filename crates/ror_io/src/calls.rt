//! The calls of a fake, of which chosen ones fail.

ghost use Rattle.std.specs.Prelude.{◌≡◌, ◌+◌, ◌↔◌, IsTrue, OnOk, OnErr, Contains};

use std::alloc::{AllocError, Global};
use std::marker::Model;

/// Counts calls from 1 on, and knows the numbers of those that are to fail.
#[derive(Drop)]
pub struct CallCounter {
    failing: Vec<u64>,
    made: u64,
}

impl Model for CallCounter {
    ghost use Rattle.ror_io.specs.Calls.{Calls};

    ghost Value = { Calls };

    ghost view = { λ counter. record { failing = counter.failing.items; made = counter.made } };
}

impl CallCounter {
    ghost use Rattle.ror_io.specs.Calls.{no_calls, after_call, with_failing, FailsNext};

    pub fn new(alloc: Global) -> CallCounter
        ensures { result ≡ no_calls }
    {
        CallCounter {
            failing: Vec::new(alloc),
            made: 0,
        }
    }

    /// Lets the call with this number fail, unless it was made already.
    pub fn fail_at(&mut self, call: u64) -> Result<(), AllocError>
        ensures ok { OnOk result (self.new ≡ with_failing self.old call) }
        ensures err { OnErr result (self.new ≡ self.old) }
    {
        if call > self.made {
            self.failing.push(call)?;
        }
        Ok(())
    }

    /// Counts one more call, and says whether it is to fail.
    pub fn count_call(&mut self) -> bool
        ensures fails { IsTrue result ↔ FailsNext self.old }
        ensures counted { self.new ≡ after_call self.old }
    {
        let fails = fails_next(&self.failing, self.made);
        self.made = self.made.saturating_add(1);
        fails
    }
}

fn fails_next(failing: &[u64], made: u64) -> bool
    ensures { IsTrue result ↔ Contains failing.now (made + 1) }
{
    let Some(number) = made.checked_add(1) else {
        return false;
    };
    failing.contains(&number)
}
