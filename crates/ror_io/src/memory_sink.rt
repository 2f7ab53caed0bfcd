//! A sink in memory.

ghost use Rattle.std.specs.Prelude.{◌≡◌, ◌≢◌, ◌≤◌, ◌<◌, ℕ, Option, Some, Ok, Err, List, [], length, take, min, IfOk, OnOk, OnErr, IsErr, Contains};
ghost use Rattle.ror_io.specs.Counts.{Rose, next_count};
ghost use Rattle.ror_io.specs.Writing.{Grew};

use crate::calls::CallCounter;
use crate::sink::{Sink, SinkFault};
use std::alloc::{AllocError, Global};
use std::marker::Model;

/// A stream in memory, with room for so many bytes and chosen writes that fail. It tells the bytes
/// written.
#[derive(Drop)]
pub struct MemorySink {
    written: Vec<u8>,
    room: usize,
    calls: CallCounter,
    faults: u64,
}

impl Model for MemorySink {
    ghost use Rattle.std.specs.Prelude.{◌≤◌, vec_len, vec_capacity};
    ghost use Rattle.ror_io.specs.SinkMemory.{SinkMemory};

    ghost Value = { SinkMemory };

    ghost view = { λ sink. record { written = sink.written.items; room = sink.room; calls = sink.calls; faults = sink.faults } };

    ghost invariant = { λ sink. (vec_len sink.written ≤ sink.room) × (sink.room ≤ vec_capacity sink.written) };
}

impl MemorySink {
    ghost use Rattle.ror_io.specs.Calls.{no_calls, with_failing};
    ghost use Rattle.ror_io.specs.SinkMemory.{SinkMemory};

    /// A sink with room for so many bytes, of which no write is to fail.
    pub fn new(alloc: Global, room: usize) -> Result<MemorySink, AllocError>
        ensures { IfOk result
            (λ sink. sink ≡ record { written = []; room = room; calls = no_calls; faults = 0 }) }
    {
        Ok(MemorySink {
            written: Vec::with_capacity(alloc, room)?,
            room,
            calls: CallCounter::new(alloc),
            faults: 0,
        })
    }

    /// The bytes written.
    pub fn written(&self) -> &[u8]
        ensures { result.now ≡ self.now.written }
    {
        self.written.as_slice()
    }

    /// Lets the write with this number fail, if its piece isn't empty. Writes are counted from 1
    /// since the sink was made, those of empty pieces too; the number of one that was made already
    /// has no effect.
    pub fn fail_at(&mut self, call: u64) -> Result<(), AllocError>
        ensures ok { OnOk result
            (self.new ≡ record self.old { calls = with_failing self.old.calls call }) }
        ensures err { OnErr result (self.new ≡ self.old) }
    {
        self.calls.fail_at(call)
    }
}

impl Sink for MemorySink {
    ghost use Rattle.ror_io.specs.Calls.{after_call, FailsNext};
    ghost use Rattle.ror_io.specs.SinkMemory.{room_left};

    ghost written = { λ sink. Some sink.written };

    ghost faults = { λ sink. sink.faults };

    fn write(&mut self, bytes: &[u8]) -> Result<usize, SinkFault>
        ensures never_falls { self.old.faults ≤ self.new.faults }
        ensures within { IfOk result (λ n. n ≤ length bytes.now) }
        ensures some_taken { IfOk result (λ n. 0 < length bytes.now → 0 < n) }
        ensures empty { bytes.now ≡ [] → result ≡ Ok 0 }

        ensures taken { IfOk result
            (λ n. Grew (Some self.old.written) (Some self.new.written) (take n bytes.now)) }
        ensures ok { OnOk result (self.new.faults ≡ self.old.faults) }

        ensures failed { OnErr result (Rose self.old.faults self.new.faults) }
        ensures none_taken { OnErr result (Some self.new.written ≡ Some self.old.written) }

        // All that fits is taken, unless nothing fits or this write is to fail.
        ensures chosen { FailsNext self.old.calls → 0 < length bytes.now → IsErr result }
        ensures full { room_left self.old ≡ 0 → 0 < length bytes.now → IsErr result }
        ensures fits { ¬ FailsNext self.old.calls → 0 < room_left self.old
            → result ≡ Ok (min (length bytes.now) (room_left self.old)) }
        ensures fault { OnErr result (self.new.faults ≡ next_count self.old.faults) }

        ensures counted { self.new.calls ≡ after_call self.old.calls }
        ensures room_stays { self.new.room ≡ self.old.room }
    {
        let fails = self.calls.count_call();
        if bytes.is_empty() {
            return Ok(0);
        }
        let taken = bytes.len().min(self.room - self.written.len());
        if fails || taken == 0 {
            self.faults = self.faults.saturating_add(1);
            return Err(SinkFault::Failed);
        }
        self.written.extend_from_slice(&bytes[..taken]).unwrap();
        Ok(taken)
    }
}
