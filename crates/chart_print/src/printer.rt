//! A text that pieces are appended to.
ghost use Rattle.std.specs.Prelude.{◌≡◌, ◌++◌, ◌+◌, [], OnOk, IfOk, decimal, string_bytes};
ghost use Rattle.chart_print.specs.Pieces as spec;

use crate::kinds::text_of;
use itoa::Buffer;
use std::alloc::{AllocError, Global};
use std::marker::Model;
use token_grammar::Kind;

/// A text that grows at its end. A contract sees its bytes. Where memory runs out, a part of a
/// piece may have been appended.
#[derive(Drop)]
pub(crate) struct Printer {
    text: String,
}

impl Model for Printer {
    ghost use Rattle.std.specs.Prelude.{List, ℕ, string_bytes};

    ghost Value = { List ℕ };

    ghost view = { λ printer. string_bytes printer.text };
}

impl Printer {
    /// The empty text.
    pub(crate) fn new(alloc: Global) -> Printer
        ensures { result ≡ [] }
    {
        Printer {
            text: String::new(alloc),
        }
    }

    /// The text.
    pub(crate) fn into_text(self) -> String
        ensures { string_bytes result ≡ self }
    {
        let Printer { text } = self;
        text
    }

    /// Appends bytes of a piece.
    pub(crate) fn bytes(&mut self, bytes: &str) -> Result<(), AllocError>
        ensures { OnOk result (self.new ≡ self.old ++ bytes.now) }
    {
        self.text.push_str(bytes)
    }

    /// Appends the digits of a whole number.
    pub(crate) fn number(&mut self, number: u128) -> Result<(), AllocError>
        ensures { OnOk result (self.new ≡ self.old ++ decimal number) }
    {
        let mut digits = Buffer::new();
        self.bytes(digits.format(number))
    }

    /// Appends a keyword or a symbol.
    #[tactic(auto, using(crate::proofs::Written::printed), unfolding(crate::specs::Pieces::key))]
    pub(crate) fn key(&mut self, kind: Kind) -> Result<(), AllocError>
        ensures { OnOk result (self.new ≡ spec.written self.old (spec.key kind)) }
    {
        self.bytes(text_of(kind))
    }

    /// Appends a space.
    #[tactic(auto, using(crate::proofs::Written::printed), unfolding(crate::specs::Pieces::space))]
    pub(crate) fn space(&mut self) -> Result<(), AllocError>
        ensures { OnOk result (self.new ≡ spec.written self.old spec.space) }
    {
        self.bytes(" ")
    }

    /// Appends the end of a line.
    #[tactic(auto, using(crate::proofs::Written::printed), unfolding(crate::specs::Pieces::newline))]
    pub(crate) fn newline(&mut self) -> Result<(), AllocError>
        ensures { OnOk result (self.new ≡ spec.written self.old spec.newline) }
    {
        self.bytes("\n")
    }

    /// Appends two spaces for each level.
    pub(crate) fn indent(&mut self, level: usize) -> Result<(), AllocError>
        ensures { OnOk result (self.new ≡ spec.written self.old (spec.indent level)) }
    {
        for _ in 0..level {
            self.bytes("  ")?;
        }
        Ok(())
    }
}

/// The next level of indentation. `AllocError` where its number doesn't fit a `usize`, which no
/// tree in memory reaches.
pub(crate) fn deeper(level: usize) -> Result<usize, AllocError>
    ensures { IfOk result (λ deeper. deeper ≡ level + 1) }
{
    level.checked_add(1).ok_or(AllocError)
}
