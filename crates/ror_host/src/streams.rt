//! The host's streams. What they hold is told to no proof.

ghost use Rattle.std.specs.Prelude.{◌≡◌, ◌≤◌, length, IfOk, None};

use ror_io::{Sink, SinkFault};
use std::io::{self, Write};

/// A stream of the host, which is flushed after each piece.
#[derive(Drop)]
pub struct StreamSink<W> {
    stream: W,
    faults: u64,
}

impl<W: Write> StreamSink<W> {
    /// The stream, before any write.
    pub fn new(stream: W) -> StreamSink<W>
        ensures { result.faults ≡ 0 }
    {
        StreamSink { stream, faults: 0 }
    }

    fn write_piece(&mut self, bytes: &[u8]) -> io::Result<usize>
        ensures within { IfOk result (λ n. n ≤ length bytes.now) }
        ensures faults { self.new.faults ≡ self.old.faults }
    {
        let taken = self.stream.write(bytes)?;
        self.stream.flush()?;
        Ok(taken)
    }
}

impl<W: Write> Sink for StreamSink<W> {
    ghost written = { λ _. None };

    ghost faults = { λ sink. sink.faults };

    fn write(&mut self, bytes: &[u8]) -> Result<usize, SinkFault> {
        if bytes.is_empty() {
            return Ok(0);
        }
        match self.write_piece(bytes) {
            Ok(taken) if taken > 0 => Ok(taken),
            _ => {
                self.faults = self.faults.saturating_add(1);
                Err(SinkFault::Failed)
            }
        }
    }
}
