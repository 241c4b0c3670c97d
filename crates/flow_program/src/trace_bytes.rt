//! A trace that is kept in memory.
ghost use Rattle.std.specs.Prelude.{◌≡◌, [], Bool, true, ℕ, List, Option, Some, is_some};
ghost use Rattle.std.specs.Prelude.{length, refl};
ghost use Rattle.std.specs.Io.{WritesAtMost};
ghost use Rattle.flow_base.specs.Causes.{HasCause};
ghost use Rattle.flow_base.specs.Bytes.{WritesFront, TakesSome};
ghost use Rattle.flow_program.specs.Newlines.{newlines};

use flow_base::{Failed, Sink};
use std::alloc::Global;

/// Keeps all that is written. A write fails only for want of memory.
#[derive(Drop)]
pub(crate) struct TraceBytes {
    bytes: Vec<u8>,
    failed: u64,
}

impl TraceBytes {
    /// A sink to which nothing was written. It takes no memory.
    pub(crate) fn new(alloc: Global) -> TraceBytes
        ensures { result.bytes.items ≡ [] }
    {
        TraceBytes {
            bytes: Vec::new(alloc),
            failed: 0,
        }
    }

    /// How many bytes were written.
    pub(crate) fn len(&self) -> usize
        ensures { result ≡ length self.now.bytes.items }
    {
        self.bytes.len()
    }

    /// How many of the bytes are newlines.
    pub(crate) fn newlines(&self) -> usize
        ensures { result ≡ newlines self.now.bytes.items }
    {
        self.bytes.iter().filter(|byte| **byte == b'\n').count()
    }
}

impl Sink for TraceBytes {
    ghost tells = { true };

    ghost wrote = { λ sink. Some sink.bytes.items };

    ghost faults = { λ sink. sink.failed };

    fn write(&mut self, piece: &[u8]) -> Result<usize, Failed>
        ensures bound { WritesAtMost result piece.now }
        ensures bytes { WritesFront (Some self.old.bytes.items) (Some self.new.bytes.items)
            piece.now result }
        ensures some { TakesSome piece.now result }
        ensures cause { HasCause self.old.failed self.new.failed result }
    {
        if self.bytes.extend_from_slice(piece).is_err() {
            self.failed = self.failed.saturating_add(1);
            return Err(Failed);
        }
        Ok(piece.len())
    }

    ghost fixed = { λ sink. refl };
}
