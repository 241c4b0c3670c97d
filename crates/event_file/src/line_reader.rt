//! The lines of a file that comes in pieces.
ghost use Rattle.std.specs.Prelude.{
  ◌≡◌,
  ◌≤◌,
  ◌<◌,
  ◌+◌,
  ◌++◌,
  ℕ,
  List,
  [],
  ◌∷◌,
  length,
  take,
  true,
  false,
  MatchResult,
  IfOk,
  OnErr,
  OnOk,
};
ghost use Rattle.std.specs.Io.KnownBytes.{prepend_known, IsAtEnd};
ghost use Rattle.flow_base.specs.Causes.{HasCause, Rose, OthersKept, NoneFalls, AllStay};
ghost use Rattle.event_file.specs.Lines.{line_length};
ghost use Rattle.event_file.specs.NextLine as next;
ghost use Rattle.event_file.specs.Reading as spec;

use crate::cuts::{Cut, cut_at, first_length, is_enough, length_without_return, read_size};
use crate::limits::{BUFFER_SIZE, FILE_LIMIT};
use flow_base::{Failed, Inputs, Memory};
use std::alloc::Global;
use std::marker::Model;
use thiserror::Error;

/// Why there is no next line.
#[derive(Clone, Copy, Debug, PartialEq, Eq, Error)]
pub enum LineEnd {
    /// A read failed.
    #[error("read fault")]
    Read,
    /// The line has over `LINE_LIMIT` bytes before its newline, and the first byte too many is
    /// earlier than the first byte that the file has no room for.
    #[error("the line is too long")]
    TooLong,
    /// The line, its newline included, holds byte `FILE_LIMIT` + 1 of the file.
    #[error("the file is too long")]
    FileTooLong,
}

/// Reads a file line by line, whatever pieces its bytes come in.
#[derive(Drop)]
pub struct LineReader {
    buffer: Vec<u8>,
    /// The line stands in the buffer from `first` to `last`.
    first: usize,
    last: usize,
    /// The bytes that are at hand after it stand from `start` to `end`.
    start: usize,
    end: usize,
    /// How many bytes of the file are taken, up to `start`.
    at: u64,
    number: u64,
    /// Whether the end of the file was met.
    ended: bool,
    /// Whether a call answered an error.
    failed: bool,
}

impl Model for LineReader {
    ghost use Rattle.std.specs.Prelude.{slice_range, vec_len, ◌≡◌, ◌≤◌};
    ghost use Rattle.event_file.specs.Reading.{Reading, IsPlaced};

    ghost Value = { Reading };

    ghost view = { λ r. record {
      line = slice_range r.buffer.items r.first r.last;
      number = r.number;
      at = r.at;
      pending = slice_range r.buffer.items r.start r.end;
      ended = r.ended;
      failed = r.failed;
    } };

    ghost invariant = { λ r. IsPlaced r.buffer.items r.first r.last r.start r.end r.at r.number r.failed };
}

impl LineReader {
    /// A reader that has read nothing, with a buffer of `BUFFER_SIZE` bytes.
    pub fn make(alloc: Global) -> Result<LineReader, Memory>
        ensures { IfOk result (λ reader. reader ≡ spec.unused) }
    {
        let buffer = vec![in alloc; 0; BUFFER_SIZE]?;
        Ok(LineReader {
            buffer,
            first: 0,
            last: 0,
            start: 0,
            end: 0,
            at: 0,
            number: 0,
            ended: false,
            failed: false,
        })
    }

    /// The line that was read last, without its newline and without a byte 13 before that.
    pub fn line(&self) -> &[u8]
        ensures { result.now ≡ self.now.line }
    {
        &self.buffer[self.first..self.last]
    }

    /// The number of that line, counted from 1, or of the line that is too long.
    pub fn number(&self) -> u64
        ensures { result ≡ self.now.number }
    {
        self.number
    }

    /// Takes the next line where the bytes at hand tell what comes next, and answers as `next_line`
    /// does. Otherwise it takes nothing and answers `None`: then only a read can tell.
    #[inline(always)]
    pub fn line_at_hand(&mut self) -> Option<Result<bool, LineEnd>>
        requires { self.old.failed ≡ false }
        ensures { next.AtHand self.old self.new result }
    {
        let plain_length = self.plain_length();
        if self.is_ready(plain_length) {
            Some(self.take_line(plain_length))
        } else {
            None
        }
    }

    /// Takes the next line, and answers true; at the end of the file it answers false.
    ///
    /// It reads only where the bytes at hand don't tell what comes next, so never while a whole
    /// line is at hand. It takes no memory. After an error the reader can't be used for another
    /// line; `number` is then the number of the line that is too long.
    #[inline(always)]
    pub fn next_line<I: Inputs>(&mut self, inputs: &mut I, name: &str) -> Result<bool, LineEnd>
        requires { self.old.failed ≡ false }
        ensures next { next.Nexts self.old self.new
            (I.left inputs.old name.now) (I.left inputs.new name.now) result }
        ensures told { next.NextTold self.old self.new
            (I.left inputs.old name.now) (I.left inputs.new name.now) result }
        ensures others { OthersKept name.now (I.left inputs.old) (I.left inputs.new) }

        // Read comes only where the count of that name rose, and every other answer leaves every
        // count.
        ensures counts { NoneFalls (I.faults inputs.old) (I.faults inputs.new) }
        ensures cause { next.HasReadCause name.now (I.faults inputs.old) (I.faults inputs.new) result }
    {
        let mut plain_length = self.plain_length();
        'pieces: while !self.is_ready(plain_length) {
            if self.read_more(inputs, name).is_err() {
                self.failed = true;
                return Err(LineEnd::Read);
            }
            plain_length = self.plain_length();
        }
        self.take_line(plain_length)
    }

    /// The length of the line that the bytes at hand begin with, its newline not counted.
    #[inline(always)]
    fn plain_length(&self) -> usize
        ensures length { result ≡ line_length self.now.pending }
        ensures within { result ≤ length self.now.pending }
        ensures room { length self.now.pending ≤ BUFFER_SIZE }
        ensures file { self.now.at + length self.now.pending ≤ FILE_LIMIT + 1 }
    {
        first_length(&self.buffer[self.start..self.end])
    }

    /// Whether the bytes at hand, whose first line has that length, tell what comes next.
    #[inline(always)]
    fn is_ready(&self, plain_length: usize) -> bool
        requires { plain_length ≡ line_length self.now.pending }
        ensures { result ≡ spec.is_ready self.now }
    {
        let pending = &self.buffer[self.start..self.end];
        self.ended || is_enough(self.at, plain_length, pending.len())
    }

    /// Reads the next piece after the bytes at hand. No bytes are the end of the file.
    #[cold]
    #[inline(never)]
    fn read_more<I: Inputs>(&mut self, inputs: &mut I, name: &str) -> Result<(), Failed>
        requires wanted { spec.is_ready self.old ≡ false }
        ensures read { OnOk result (spec.ReadsMore self.old self.new
            (I.left inputs.old name.now) (I.left inputs.new name.now)) }
        ensures failed { OnErr result ((self.new ≡ record self.old { line = [] })
            × (I.left inputs.new name.now ≡ I.left inputs.old name.now)) }
        ensures others { OthersKept name.now (I.left inputs.old) (I.left inputs.new) }
        ensures cause { HasCause (I.faults inputs.old name.now) (I.faults inputs.new name.now) result }
        ensures counts { NoneFalls (I.faults inputs.old) (I.faults inputs.new) }
        ensures ok { OnOk result (AllStay (I.faults inputs.old) (I.faults inputs.new)) }
    {
        self.buffer.copy_within(self.start..self.end, 0);
        self.first = 0;
        self.last = 0;
        self.end -= self.start;
        self.start = 0;
        let size = read_size(self.at, self.end);
        let count = inputs.read(name, &mut self.buffer[self.end..self.end + size])?;
        self.ended = count == 0;
        self.end += count;
        Ok(())
    }

    /// Takes the line of that length that the bytes at hand begin with.
    #[inline(always)]
    fn take_line(&mut self, plain_length: usize) -> Result<bool, LineEnd>
        requires length { plain_length ≡ line_length self.old.pending }
        requires within { plain_length ≤ length self.old.pending }
        requires ready { spec.is_ready self.old ≡ true }
        requires usable { self.old.failed ≡ false }
        ensures { next.Takes self.old self.new result }
    {
        let pending = &self.buffer[self.start..self.end];
        match cut_at(self.at, plain_length, pending.len()) {
            Cut::TooLong => {
                self.number += 1;
                self.failed = true;
                Err(LineEnd::TooLong)
            }
            Cut::PastFile => {
                self.failed = true;
                Err(LineEnd::FileTooLong)
            }
            Cut::End => Ok(false),
            Cut::Line(size) => {
                let kept = length_without_return(&pending[..plain_length]);
                self.first = self.start;
                self.last = self.start + kept;
                self.start += size;
                self.at += size as u64;
                self.number += 1;
                Ok(true)
            }
        }
    }
}
