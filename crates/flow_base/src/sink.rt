//! Where bytes go.
ghost use Rattle.std.specs.Prelude.{◌≡◌, ℕ, List, Option, OnOk, OnErr, is_some, Bool, length};
ghost use Rattle.std.specs.Io.{WritesAtMost};
ghost use Rattle.std.specs.Io.KnownBytes.{append_known};
ghost use Rattle.flow_base.specs.Causes.{HasCause};
ghost use Rattle.flow_base.specs.Bytes.{WritesFront, TakesSome, AppendsProperFront};

use crate::inputs::Failed;

/// A sink of bytes. Its count of failed writes never falls; its greatest value is 2^64 - 1, and a
/// count at this value is taken as one that rose.
pub trait Sink {
    /// Whether what was written is known to contracts.
    ghost tells: { Bool };

    /// All that was written, where it is known.
    ghost wrote: { Self → Option (List ℕ) };

    /// How often a write failed.
    ghost faults: { Self → ℕ };

    /// Writes a front of the piece, and answers its length.
    fn write(&mut self, piece: &[u8]) -> Result<usize, Failed>
        ensures bound { WritesAtMost result piece.now }
        ensures bytes { WritesFront (wrote self.old) (wrote self.new) piece.now result }
        ensures some { TakesSome piece.now result }

        // A failure comes only where the count rose, and success leaves it.
        ensures cause { HasCause (faults self.old) (faults self.new) result };

    /// Whether it is known depends on the type alone.
    ghost fixed: { (sink : Self) → is_some (wrote sink) ≡ tells };
}

/// Writes the whole piece. An empty piece makes no write.
pub fn write_all<O: Sink>(out: &mut O, piece: &[u8]) -> Result<(), Failed>
    ensures ok { OnOk result (O.wrote out.new ≡ append_known (O.wrote out.old) piece.now) }

    // A failure comes from the sink, after a proper prefix of the piece was written.
    ensures failed { OnErr result (AppendsProperFront (O.wrote out.old) (O.wrote out.new) piece.now) }
    ensures cause { HasCause (O.faults out.old) (O.faults out.new) result }
    ensures empty { length piece.now ≡ 0 → out.new ≡ out.old }
{
    let mut written = 0;
    'pieces: while written < piece.len() {
        let count = out.write(&piece[written..])?;
        written += count;
    }
    Ok(())
}
