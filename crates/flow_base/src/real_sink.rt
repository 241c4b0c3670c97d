//! A sink over a writer of std.
ghost use Rattle.std.specs.Prelude.{◌≡◌, ℕ, List, Option, None, Bool, false, is_some, refl};
ghost use Rattle.std.specs.Io.{WritesAtMost};
ghost use Rattle.std.specs.Io.KnownBytes.{WriteAppends};
ghost use Rattle.flow_base.specs.Causes.{HasCause};
ghost use Rattle.flow_base.specs.Bytes.{WritesFront, TakesSome};

use crate::inputs::Failed;
use crate::sink::Sink;
use std::io::Write;

/// Writes to a writer, and counts its faults. Contracts don't know what was written.
///
/// A write that the writer refuses is a fault, one that was interrupted too, and so is one that
/// takes nothing of a piece that isn't empty.
#[derive(Drop)]
pub struct RealSink<W> {
    writer: W,
    failed: u64,
}

impl<W: Write> RealSink<W> {
    /// A sink over that writer, with no fault so far.
    pub fn new(writer: W) -> RealSink<W>
        ensures faults { ⟦<RealSink<W> as Sink>⟧.faults result ≡ 0 }
        ensures writer { result.writer ≡ writer }
    {
        RealSink { writer, failed: 0 }
    }

    /// Hands the piece to the writer, which takes a front of it or refuses it.
    fn hand_on(&mut self, piece: &[u8]) -> Result<usize, Failed>
        ensures bound { WritesAtMost result piece.now }
        ensures some { TakesSome piece.now result }
        ensures count { self.new.failed ≡ self.old.failed }

        // A writer whose bytes are known has those that it took after those before.
        ensures bytes { WriteAppends (W.contents self.old.writer) (W.contents self.new.writer)
            result piece.now }
    {
        match self.writer.write(piece) {
            Ok(count) if count > 0 || piece.is_empty() => Ok(count),
            _ => Err(Failed),
        }
    }
}

impl<W: Write> Sink for RealSink<W> {
    ghost tells = { false };

    ghost wrote = { λ sink. None };

    ghost faults = { λ sink. sink.failed };

    fn write(&mut self, piece: &[u8]) -> Result<usize, Failed>
        ensures bound { WritesAtMost result piece.now }
        ensures bytes { WritesFront None None piece.now result }
        ensures some { TakesSome piece.now result }
        ensures cause { HasCause self.old.failed self.new.failed result }

        // A writer whose bytes are known has those that it took after those before.
        ensures writer { WriteAppends (W.contents self.old.writer) (W.contents self.new.writer)
            result piece.now }
    {
        match self.hand_on(piece) {
            Ok(count) => Ok(count),
            Err(Failed) => {
                self.failed = self.failed.saturating_add(1);
                Err(Failed)
            }
        }
    }

    ghost fixed = { λ sink. refl };
}
