//! A file in memory, some of whose reads may fail.
ghost use Rattle.std.specs.Prelude.{◌≡◌, ◌<◌, ◌≤◌, ◌++◌, [], Some};
ghost use Rattle.std.specs.Prelude.{take, length, position, string_bytes, OnErr};
ghost use Rattle.std.specs.Result.{result_ok};
ghost use Rattle.std.specs.Io.{ReadsAtMost};
ghost use Rattle.flow_base.specs.Bytes.{ReadTakes};
ghost use Rattle.flow_base.specs.MemoryFiles as spec;

use crate::inputs::Failed;
use std::marker::Model;

/// A file in memory: its name, its bytes, the most that one read gives, and which reads fail. It
/// keeps how many of its bytes were given, how often it was read, and how many reads failed.
#[derive(Drop)]
pub struct MemFile {
    name: String,
    bytes: Vec<u8>,
    piece: usize,
    fail: Vec<u64>,
    given: usize,
    reads: u64,
    failed: u64,
}

impl Model for MemFile {
    ghost use Rattle.std.specs.Prelude.{◌≤◌, ◌<◌, string_bytes, vec_len};
    ghost use Rattle.flow_base.specs.MemoryFiles.{FileState};

    ghost Value = { FileState };

    ghost view = { λ file. record {
      name = string_bytes file.name;
      bytes = file.bytes.items;
      piece = file.piece;
      fail = file.fail.items;
      given = file.given;
      reads = file.reads;
      failed = file.failed;
    } };

    ghost invariant = { λ file. (file.given ≤ vec_len file.bytes) × (0 < file.piece) };
}

impl MemFile {
    /// A file of which nothing was read. One read gives at most `piece` bytes, and the reads whose
    /// numbers `fail` lists fail, counted from 1. It takes no memory.
    pub fn new(name: String, bytes: Vec<u8>, piece: usize, fail: Vec<u64>) -> MemFile
        requires { 0 < piece }
        ensures { result ≡ spec.fresh_file (string_bytes name) bytes.items piece fail.items }
    {
        MemFile {
            name,
            bytes,
            piece,
            fail,
            given: 0,
            reads: 0,
            failed: 0,
        }
    }

    /// Whether it has that name.
    pub(crate) fn is_named(&self, name: &str) -> bool
        ensures { result ≡ spec.is_named name.now self.now }
    {
        self.name.as_str() == name
    }

    fn fails_next(&self) -> bool
        ensures { result ≡ spec.fails_next self.now }
    {
        self.fail.contains(&self.reads.saturating_add(1))
    }

    /// Gives its next bytes, whether or not the read is to fail.
    pub(crate) fn give(&mut self, buf: &mut [u8]) -> usize
        ensures count { result ≡ spec.next_count (length buf.new) self.old }
        ensures state { self.new ≡ spec.after_giving (length buf.new) self.old }
        ensures bound { result ≤ length buf.new }
        ensures bytes { spec.bytes_left (Some self.old)
            ≡ take result buf.new ++ spec.bytes_left (Some self.new) }
        ensures end { result ≡ 0 → 0 < length buf.new → spec.bytes_left (Some self.new) ≡ [] }
    {
        let count = buf.len().min(self.piece).min(self.bytes.len() - self.given);
        buf[..count].copy_from_slice(&self.bytes[self.given..self.given + count]);
        self.reads = self.reads.saturating_add(1);
        self.given += count;
        count
    }

    /// Reads its next bytes, or fails where the number of the read is listed; a failed read leaves
    /// the buffer unchanged.
    pub(crate) fn read(&mut self, buf: &mut [u8]) -> Result<usize, Failed>
        ensures count { result_ok result ≡ spec.read_count (length buf.new) (Some self.old) }
        ensures state { self.new ≡ spec.after_next (length buf.new) self.old }
        ensures bound { ReadsAtMost result buf.new }
        ensures bytes { ReadTakes (Some (spec.bytes_left (Some self.old)))
            (Some (spec.bytes_left (Some self.new)))
            result buf.new }
        ensures kept { OnErr result (buf.new ≡ buf.old) }
    {
        if self.fails_next() {
            self.reads = self.reads.saturating_add(1);
            self.failed = self.failed.saturating_add(1);
            return Err(Failed);
        }
        Ok(self.give(buf))
    }
}

/// Where the first file of that name stands.
pub(crate) fn index_of(files: &[MemFile], name: &str) -> Option<usize>
    ensures { result ≡ position (spec.is_named name.now) files.now }
{
    files.iter().position(|file| file.is_named(name))
}
