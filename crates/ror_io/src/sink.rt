//! Streams of bytes.

ghost use Rattle.std.specs.Prelude.{◌≡◌, ◌≤◌, ◌<◌, ℕ, Option, List, [], length, take, IfOk, OnOk, OnErr, Ok};
ghost use Rattle.ror_io.specs.Counts.{Rose};
ghost use Rattle.ror_io.specs.Writing.{Grew, GrewShort, joined};

use thiserror::Error;

/// Why a write took nothing.
#[derive(Clone, Copy, Debug, PartialEq, Eq, Error)]
pub enum SinkFault {
    /// The stream takes no bytes.
    #[error("the stream could not be written")]
    Failed,
}

/// A stream that takes bytes, and may fail.
///
/// A sink counts its faults. Where it tells the bytes written, these are exactly those taken.
/// A count that stands at 2^64 - 1 may stay there at a fault.
pub trait Sink {
    /// The bytes written, where the sink tells them.
    ghost written: { Self → Option (List ℕ) };

    /// How many writes failed.
    ghost faults: { Self → ℕ };

    /// Writes a front of the piece, and says how many bytes were taken: none of an empty piece,
    /// and at least one of any other.
    fn write(&mut self, bytes: &[u8]) -> Result<usize, SinkFault>
        ensures never_falls { faults self.old ≤ faults self.new }
        ensures within { IfOk result (λ n. n ≤ length bytes.now) }
        ensures some_taken { IfOk result (λ n. 0 < length bytes.now → 0 < n) }
        ensures empty { bytes.now ≡ [] → result ≡ Ok 0 }

        ensures taken { IfOk result (λ n. Grew (written self.old) (written self.new) (take n bytes.now)) }
        ensures ok { OnOk result (faults self.new ≡ faults self.old) }

        ensures failed { OnErr result (Rose (faults self.old) (faults self.new)) }
        ensures none_taken { OnErr result (written self.new ≡ written self.old) };
}

/// Writes the whole piece, or a proper front of it where the sink failed.
pub fn write_all<S: Sink>(sink: &mut S, bytes: &[u8]) -> Result<(), SinkFault>
    ensures never_falls { S.faults sink.old ≤ S.faults sink.new }
    ensures ok { OnOk result (S.faults sink.new ≡ S.faults sink.old) }
    ensures all_taken { OnOk result (Grew (S.written sink.old) (S.written sink.new) bytes.now) }

    ensures failed { OnErr result (Rose (S.faults sink.old) (S.faults sink.new)) }
    ensures short { OnErr result (GrewShort (S.written sink.old) (S.written sink.new) bytes.now) }
{
    let mut taken = 0;
    while taken < bytes.len() {
        taken += sink.write(&bytes[taken..])?;
    }
    Ok(())
}

/// Writes the pieces in order, each whole, or a proper front of them all where the sink failed.
pub fn write_pieces<S: Sink>(sink: &mut S, pieces: &[&[u8]]) -> Result<(), SinkFault>
    ensures never_falls { S.faults sink.old ≤ S.faults sink.new }
    ensures ok { OnOk result (S.faults sink.new ≡ S.faults sink.old) }
    ensures all_taken { OnOk result
        (Grew (S.written sink.old) (S.written sink.new) (joined pieces.now)) }

    ensures failed { OnErr result (Rose (S.faults sink.old) (S.faults sink.new)) }
    ensures short { OnErr result
        (GrewShort (S.written sink.old) (S.written sink.new) (joined pieces.now)) }
{
    for piece in pieces {
        write_all(sink, piece)?;
    }
    Ok(())
}
