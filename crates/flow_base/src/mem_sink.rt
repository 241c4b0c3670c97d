//! A sink in memory, whose listed writes fail.
ghost use Rattle.std.specs.Prelude.{◌≡◌, ◌<◌, [], Bool, true, ℕ, List, Option, Some};
ghost use Rattle.std.specs.Prelude.{IfOk, is_some, refl};
ghost use Rattle.std.specs.Result.{result_ok};
ghost use Rattle.std.specs.Io.{WritesAtMost};
ghost use Rattle.flow_base.specs.Causes.{HasCause};
ghost use Rattle.flow_base.specs.Bytes.{WritesFront, TakesSome};
ghost use Rattle.flow_base.specs.MemorySinks as spec;

use crate::inputs::Failed;
use crate::memory::Memory;
use crate::sink::Sink;
use std::alloc::Global;
use std::marker::Model;

/// Keeps what is written, up to its room. Its writes take no memory.
#[derive(Drop)]
pub struct MemSink {
    bytes: Vec<u8>,
    room: usize,
    piece: usize,
    fail: Vec<u64>,
    writes: u64,
    failed: u64,
}

impl Model for MemSink {
    ghost use Rattle.std.specs.Prelude.{◌≤◌, ◌<◌, vec_len, vec_capacity};
    ghost use Rattle.flow_base.specs.MemorySinks.{SinkState};

    ghost Value = { SinkState };

    ghost view = { λ sink. record {
      bytes = sink.bytes.items;
      room = sink.room;
      piece = sink.piece;
      fail = sink.fail.items;
      writes = sink.writes;
      failed = sink.failed;
    } };

    ghost invariant = { λ sink.
        (sink.room ≤ vec_capacity sink.bytes)
        × (vec_len sink.bytes ≤ sink.room) × (0 < sink.piece) };
}

impl MemSink {
    /// Takes memory for `room` bytes. One write takes at most `piece` bytes, and the writes whose
    /// numbers `fail` lists fail, counted from 1.
    pub fn new(alloc: Global, room: usize, piece: usize, fail: Vec<u64>) -> Result<MemSink, Memory>
        requires { 0 < piece }
        ensures state { IfOk result (λ sink. sink ≡ spec.fresh_sink room piece fail.items) }
        ensures empty { IfOk result (λ sink. ⟦<MemSink as Sink>⟧.wrote sink ≡ Some []) }
        ensures quiet { IfOk result (λ sink. ⟦<MemSink as Sink>⟧.faults sink ≡ 0) }
    {
        let bytes = Vec::with_capacity(alloc, room)?;
        Ok(MemSink {
            bytes,
            room,
            piece,
            fail,
            writes: 0,
            failed: 0,
        })
    }

    /// All that was written. It takes no memory.
    pub fn bytes(&self) -> &[u8]
        ensures { result.now ≡ self.now.bytes }
    {
        &self.bytes
    }

    fn fails_write(&self, piece: &[u8]) -> bool
        ensures { result ≡ spec.fails_write piece.now self.now }
    {
        self.fail.contains(&self.writes.saturating_add(1))
            || (!piece.is_empty() && self.bytes.len() == self.room)
    }
}

impl Sink for MemSink {
    ghost tells = { true };

    ghost wrote = { λ sink. Some sink.bytes };

    ghost faults = { λ sink. sink.failed };

    fn write(&mut self, piece: &[u8]) -> Result<usize, Failed>
        ensures bound { WritesAtMost result piece.now }
        ensures bytes { WritesFront (Some self.old.bytes) (Some self.new.bytes) piece.now result }
        ensures some { TakesSome piece.now result }
        ensures cause { HasCause self.old.failed self.new.failed result }

        // It fails exactly where its number is listed, or it has bytes and all the room is taken.
        ensures count { result_ok result ≡ spec.write_count piece.now self.old }
        ensures state { self.new ≡ spec.after_write piece.now self.old }
    {
        let fails = self.fails_write(piece);
        self.writes = self.writes.saturating_add(1);
        if fails {
            self.failed = self.failed.saturating_add(1);
            return Err(Failed);
        }
        let count = piece
            .len()
            .min(self.piece)
            .min(self.room - self.bytes.len());
        match self.bytes.extend_from_slice(&piece[..count]) {
            Ok(()) => Ok(count),
            Err(_) => unreachable!(),
        }
    }

    ghost fixed = { λ sink. refl };
}
