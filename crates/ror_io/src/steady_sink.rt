//! A sink in memory of which a write fails only where nothing fits.

ghost use Rattle.std.specs.Prelude.{◌≡◌, ◌≤◌, ◌<◌, ℕ, Option, Some, Ok, Err, List, [], length, take, min, IfOk, OnOk, OnErr, IsErr};
ghost use Rattle.ror_io.specs.Counts.{Rose, next_count};
ghost use Rattle.ror_io.specs.Writing.{Grew};

use crate::sink::{Sink, SinkFault};
use std::alloc::{AllocError, Global};
use std::marker::Model;

/// A stream in memory, with room for so many bytes. It tells the bytes written, and counts a fault
/// only where no byte of a piece fits.
#[derive(Drop)]
pub struct SteadySink {
    written: Vec<u8>,
    room: usize,
    faults: u64,
}

impl Model for SteadySink {
    ghost use Rattle.std.specs.Prelude.{◌≤◌, vec_len, vec_capacity};
    ghost use Rattle.ror_io.specs.SinkMemory.{SteadySinkMemory};

    ghost Value = { SteadySinkMemory };

    ghost view = { λ sink. record { written = sink.written.items; room = sink.room; faults = sink.faults } };

    ghost invariant = { λ sink. (vec_len sink.written ≤ sink.room) × (sink.room ≤ vec_capacity sink.written) };
}

impl SteadySink {
    ghost use Rattle.ror_io.specs.SinkMemory.{SteadySinkMemory};

    /// A sink with room for so many bytes.
    pub fn new(alloc: Global, room: usize) -> Result<SteadySink, AllocError>
        ensures { IfOk result (λ sink. sink ≡ record { written = []; room = room; faults = 0 }) }
    {
        Ok(SteadySink {
            written: Vec::with_capacity(alloc, room)?,
            room,
            faults: 0,
        })
    }

    /// The bytes written.
    pub fn written(&self) -> &[u8]
        ensures { result.now ≡ self.now.written }
    {
        self.written.as_slice()
    }
}

impl Sink for SteadySink {
    ghost use Rattle.ror_io.specs.SinkMemory.{steady_room_left};

    ghost written = { λ sink. Some sink.written };

    ghost faults = { λ sink. sink.faults };

    fn write(&mut self, bytes: &[u8]) -> Result<usize, SinkFault>
        ensures never_falls { self.old.faults ≤ self.new.faults }
        ensures within { IfOk result (λ n. n ≤ length bytes.now) }
        ensures some_taken { IfOk result (λ n. 0 < length bytes.now → 0 < n) }
        ensures empty { bytes.now ≡ [] → result ≡ Ok 0 }

        ensures taken { IfOk result
            (λ n. Grew (Some self.old.written) (Some self.new.written) (take n bytes.now)) }
        ensures ok { OnOk result (self.new.faults ≡ self.old.faults) }

        ensures failed { OnErr result (Rose self.old.faults self.new.faults) }
        ensures none_taken { OnErr result (Some self.new.written ≡ Some self.old.written) }

        // All that fits is taken, unless nothing fits.
        ensures full { steady_room_left self.old ≡ 0 → 0 < length bytes.now → IsErr result }
        ensures fits { 0 < steady_room_left self.old
            → result ≡ Ok (min (length bytes.now) (steady_room_left self.old)) }
        ensures fault { OnErr result (self.new.faults ≡ next_count self.old.faults) }

        ensures room_stays { self.new.room ≡ self.old.room }
    {
        if bytes.is_empty() {
            return Ok(0);
        }
        let taken = bytes.len().min(self.room - self.written.len());
        if taken == 0 {
            self.faults = self.faults.saturating_add(1);
            return Err(SinkFault::Failed);
        }
        self.written.extend_from_slice(&bytes[..taken]).unwrap();
        Ok(taken)
    }
}
