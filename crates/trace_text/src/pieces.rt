//! A trace that goes out in pieces.
ghost use Rattle.std.specs.Prelude.{◌≡◌, length, decimal};

use flow_base::{Failed, Sink, write_all};
use itoa::{Buffer, write_digits};
use std::marker::Model;

/// The most bytes of a trace that are kept before they are written, and that are written at once.
pub const PIECE_SIZE: usize = 8192;

/// The bytes of a trace that are still to be written, at most `PIECE_SIZE`, and whether a write
/// failed. After a failed write nothing more is written, and there is room for no more.
#[derive(Drop)]
pub struct Pieces {
    buffer: [u8; PIECE_SIZE],
    len: usize,
    failed: bool,
}

impl Model for Pieces {
    ghost use Rattle.std.specs.Prelude.{take, ◌≤◌, ◌≡◌, true};
    ghost use Rattle.trace_text.specs.Pieces.{Held};
    ghost use Rattle.trace_text.specs.declared.pieces.TheConstants.{PIECE_SIZE};

    ghost Value = { Held };

    ghost view = { λ p. record { bytes = take p.len p.buffer; failed = p.failed } };

    ghost invariant = { λ p. (p.len ≤ PIECE_SIZE) × (p.failed ≡ true → p.len ≡ PIECE_SIZE) };
}

impl Pieces {
    ghost use Rattle.std.specs.Prelude.{◌≡◌, ◌++◌, ◌∷◌, [], ◌+◌, ◌^◌, ◌<◌, ◌≤◌, ℕ, List, Option, length, decimal, true, false, IsTrue, OnOk, OnErr};
    ghost use Rattle.trace_text.specs.Pieces.{Written, Puts, Ends, nothing_held, kept};

    /// No bytes.
    pub fn new() -> Pieces
        ensures { result ≡ nothing_held }
    {
        Pieces {
            buffer: [0; PIECE_SIZE],
            len: 0,
            failed: false,
        }
    }

    /// Whether a write failed.
    #[inline(always)]
    pub fn has_failed(&self) -> bool
        ensures { result ≡ self.now.failed }
    {
        self.failed
    }

    /// Whether there is room for no more.
    fn is_full(&self) -> bool
        ensures { result ≡ false → length self.now.bytes < PIECE_SIZE }
    {
        self.len == PIECE_SIZE
    }

    /// Whether there is room for that many bytes.
    #[inline(always)]
    fn has_room(&self, count: usize) -> bool
        requires { count ≤ 2 ^ 63 }
        ensures { IsTrue result → length self.now.bytes + count ≤ PIECE_SIZE }
    {
        self.len + count <= PIECE_SIZE
    }

    /// Writes what is kept.
    fn flush<O: Sink>(&mut self, out: &mut O)
        ensures written { (w : Option (List ℕ)) (f : ℕ) (all : List ℕ)
            → Written w (O.wrote out.old) f (O.faults out.old) all self.old
            → Written w (O.wrote out.new) f (O.faults out.new) all self.new }
        ensures room { self.new.failed ≡ false → self.new.bytes ≡ [] }
    {
        if self.failed {
            return;
        }
        match write_all(out, &self.buffer[..self.len]) {
            Ok(()) => self.len = 0,
            Err(_) => {
                self.failed = true;
                self.len = PIECE_SIZE;
            }
        }
    }

    /// Puts a text after what is there.
    #[inline(always)]
    pub fn put<O: Sink>(&mut self, text: &[u8], out: &mut O)
        ensures { Puts (O.wrote out.old) (O.wrote out.new) (O.faults out.old) (O.faults out.new)
            self.old self.new text.now }
    {
        if self.has_room(text.len()) {
            self.keep(text);
        } else {
            self.put_bytes(text, out);
        }
    }

    /// Puts a text for which there may be no room, byte by byte.
    #[cold]
    #[inline(never)]
    fn put_bytes<O: Sink>(&mut self, text: &[u8], out: &mut O)
        ensures { Puts (O.wrote out.old) (O.wrote out.new) (O.faults out.old) (O.faults out.new)
            self.old self.new text.now }
    {
        for byte in text {
            self.put_one(*byte, out);
        }
    }

    /// Puts a byte after what is there.
    #[inline(always)]
    pub fn put_byte<O: Sink>(&mut self, byte: u8, out: &mut O)
        ensures { Puts (O.wrote out.old) (O.wrote out.new) (O.faults out.old) (O.faults out.new)
            self.old self.new (byte ∷ []) }
    {
        if self.has_room(1) {
            self.keep_byte(byte);
        } else {
            self.put_one(byte, out);
        }
    }

    /// Puts a byte and then a text after what is there.
    #[inline(always)]
    pub(crate) fn put_led<O: Sink>(&mut self, byte: u8, text: &[u8], out: &mut O)
        ensures { Puts (O.wrote out.old) (O.wrote out.new) (O.faults out.old) (O.faults out.new)
            self.old self.new (byte ∷ text.now) }
    {
        if self.has_room(text.len() + 1) {
            self.keep_byte(byte);
            self.keep(text);
        } else {
            self.put_one(byte, out);
            self.put_bytes(text, out);
        }
    }

    /// Puts the digits of a whole number after what is there. They are counted first, so that
    /// they are written where they stay.
    #[inline(always)]
    pub fn put_digits<O: Sink>(&mut self, number: u64, out: &mut O)
        ensures { Puts (O.wrote out.old) (O.wrote out.new) (O.faults out.old) (O.faults out.new)
            self.old self.new (decimal number) }
    {
        if number < 10 {
            self.put_byte(b'0' + number as u8, out);
            return;
        }
        if number < 100 {
            let (tens, ones) = (number / 10, number % 10);
            self.put(&[b'0' + tens as u8, b'0' + ones as u8], out);
            return;
        }
        let count = digit_count(number);
        if self.has_room(count) {
            self.keep_digits(number, count);
        } else {
            let mut digits = Buffer::new();
            self.put_bytes(digits.format(number).as_bytes(), out);
        }
    }

    /// Puts a byte for which there may be no room.
    #[cold]
    #[inline(never)]
    fn put_one<O: Sink>(&mut self, byte: u8, out: &mut O)
        ensures { Puts (O.wrote out.old) (O.wrote out.new) (O.faults out.old) (O.faults out.new)
            self.old self.new (byte ∷ []) }
    {
        self.make_room(out);
        if self.failed {
            return;
        }
        self.keep_byte(byte);
    }

    /// Makes room for a byte.
    fn make_room<O: Sink>(&mut self, out: &mut O)
        ensures written { (w : Option (List ℕ)) (f : ℕ) (all : List ℕ)
            → Written w (O.wrote out.old) f (O.faults out.old) all self.old
            → Written w (O.wrote out.new) f (O.faults out.new) all self.new }
        ensures room { self.new.failed ≡ false → length self.new.bytes < PIECE_SIZE }
    {
        if self.is_full() {
            self.flush(out);
        }
    }

    /// Keeps a text for which there is room. A text of at most three bytes, as most names in a
    /// trace have, takes fewer instructions byte by byte than as a copy of a slice.
    #[inline(always)]
    fn keep(&mut self, text: &[u8])
        requires { length self.old.bytes + length text.now ≤ PIECE_SIZE }
        ensures { self.new ≡ kept self.old text.now }
    {
        match text.len() {
            1 => self.keep_byte(text[0]),
            2 => self.keep_two(text[0], text[1]),
            3 => {
                self.keep_two(text[0], text[1]);
                self.keep_byte(text[2]);
            }
            _ => self.keep_all(text),
        }
    }

    /// Keeps a byte for which there is room.
    #[inline(always)]
    fn keep_byte(&mut self, byte: u8)
        requires { length self.old.bytes < PIECE_SIZE }
        ensures { self.new ≡ kept self.old (byte ∷ []) }
    {
        let at = self.len;
        self.buffer[at] = byte;
        self.len = at + 1;
    }

    /// Keeps two bytes for which there is room.
    #[inline(always)]
    fn keep_two(&mut self, first: u8, second: u8)
        requires { length self.old.bytes + 2 ≤ PIECE_SIZE }
        ensures { self.new ≡ kept self.old (first ∷ second ∷ []) }
    {
        self.keep_byte(first);
        self.keep_byte(second);
    }

    /// Keeps a text for which there is room, however long it is. It stays out of its callers, so
    /// that the loops that put short names prepare nothing for long ones.
    #[inline(never)]
    fn keep_all(&mut self, text: &[u8])
        requires { length self.old.bytes + length text.now ≤ PIECE_SIZE }
        ensures { self.new ≡ kept self.old text.now }
    {
        let end = self.len + text.len();
        self.buffer[self.len..end].copy_from_slice(text);
        self.len = end;
    }

    /// Keeps the digits of a whole number, whose count is given, and for which there is room.
    #[inline(always)]
    fn keep_digits(&mut self, number: u64, count: usize)
        requires count { count ≡ length (decimal number) }
        requires room { length self.old.bytes + count ≤ PIECE_SIZE }
        ensures { self.new ≡ kept self.old (decimal number) }
    {
        let end = self.len + count;
        write_digits(number, &mut self.buffer, end);
        self.len = end;
    }

    /// Writes what is kept. An error comes only where a write failed, now or before.
    pub fn finish<O: Sink>(&mut self, out: &mut O) -> Result<(), Failed>
        ensures kept { OnOk result (self.new ≡ nothing_held) }
        ensures failed { OnErr result (self.new.failed ≡ true) }
        ensures written { (w : Option (List ℕ)) (f : ℕ) (all : List ℕ)
            → Written w (O.wrote out.old) f (O.faults out.old) all self.old
            → Ends w (O.wrote out.new) f (O.faults out.new) all result }
    {
        self.flush(out);
        if self.failed { Err(Failed) } else { Ok(()) }
    }
}

/// How many digits a whole number has.
#[inline(always)]
fn digit_count(number: u64) -> usize
    ensures { result ≡ length (decimal number) }
{
    let mut left = number;
    let mut behind = 0;
    'fours: while left >= 10_000 {
        left /= 10_000;
        behind += 4;
    }
    if left < 10 {
        return behind + 1;
    }
    if left < 100 {
        return behind + 2;
    }
    if left < 1000 {
        return behind + 3;
    }
    behind + 4
}
