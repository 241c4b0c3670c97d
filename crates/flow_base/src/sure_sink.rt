//! A sink that takes everything and keeps nothing.
ghost use Rattle.std.specs.Prelude.{◌≡◌, ℕ, List, Option, None, Bool, false, is_some, length, refl};
ghost use Rattle.std.specs.Io.{WritesAtMost};
ghost use Rattle.flow_base.specs.Causes.{HasCause};
ghost use Rattle.flow_base.specs.Bytes.{WritesFront, TakesSome};

use crate::inputs::Failed;
use crate::sink::Sink;

/// Takes every piece whole and keeps nothing. Contracts don't know what was written. No write
/// fails.
#[derive(Clone, Copy)]
pub struct SureSink;

impl SureSink {
    /// Such a sink. It takes no memory.
    pub fn new() -> SureSink {
        SureSink
    }
}

impl Sink for SureSink {
    ghost tells = { false };

    ghost wrote = { λ sink. None };

    ghost faults = { λ sink. 0 };

    fn write(&mut self, piece: &[u8]) -> Result<usize, Failed>
        ensures bound { WritesAtMost result piece.now }
        ensures bytes { WritesFront None None piece.now result }
        ensures some { TakesSome piece.now result }
        ensures cause { HasCause 0 0 result }
        ensures whole { result ≡ Ok (length piece.now) }
    {
        Ok(piece.len())
    }

    ghost fixed = { λ sink. refl };
}
