//! Names, paths, numbers and types.
ghost use Rattle.std.specs.Prelude.{◌≡◌, ◌++◌, ◌/◌, ◌^◌, OnOk};
ghost use Rattle.std.specs.List.{flat_map};
ghost use Rattle.fixed_point.specs.Text.{last_digits};
ghost use Rattle.chart_tree.specs.Views.{parts_of, path_of, sort_of};
ghost use Rattle.chart_print.specs.Pieces.{written};
ghost use Rattle.chart_print.specs.Words as spec;

use crate::printer::Printer;
use chart_tree::{LitText, NameText, PathText, SortText};
use fixed_point::{Mode, Scale};
use std::alloc::AllocError;
use token_grammar::Kind;

impl Printer {
    /// Appends a word that is a name to the grammar.
    #[tactic(auto, using(crate::proofs::Written::printed), unfolding(crate::specs::Words::word_pieces))]
    pub(crate) fn word(&mut self, word: &str) -> Result<(), AllocError>
        ensures { OnOk result (self.new ≡ written self.old (spec.word_pieces word.now)) }
    {
        self.bytes(word)
    }

    /// Appends a name.
    pub(crate) fn name(&mut self, name: &NameText) -> Result<(), AllocError>
        ensures { OnOk result (self.new ≡ written self.old (spec.name_pieces name.now)) }
    {
        self.word(name.text.text())
    }

    /// Appends names, each after a slash.
    #[tactic(auto, using(crate::proofs::Written::printed), unfolding(crate::specs::Words::step_pieces))]
    fn steps(&mut self, names: &[NameText]) -> Result<(), AllocError>
        ensures { OnOk result
            (self.new ≡ written self.old (flat_map spec.step_pieces names.now)) }
    {
        for name in names {
            self.key(Kind::Slash)?;
            self.name(name)?;
        }
        Ok(())
    }

    /// Appends a path.
    #[tactic(auto, using(crate::proofs::Written::printed), unfolding(crate::specs::Words::path_pieces))]
    pub(crate) fn path(&mut self, path: &PathText) -> Result<(), AllocError>
        ensures { OnOk result (self.new ≡ written self.old (spec.path_pieces (path_of path.now))) }
    {
        match path.names.items() {
            [] => Ok(()),
            [first, others @ ..] => {
                self.name(first)?;
                self.steps(others)
            }
        }
    }

    /// Appends a number.
    #[tactic(auto, using(crate::proofs::Written::printed), unfolding(crate::specs::Words::literal_pieces))]
    pub(crate) fn literal(&mut self, lit: LitText) -> Result<(), AllocError>
        ensures { OnOk result (self.new ≡ written self.old (spec.literal_pieces lit)) }
    {
        self.digits(lit.units, lit.places)?;
        self.bits(lit.q)
    }

    /// Appends the digits of a number, with its point.
    #[tactic(auto, using(crate::proofs::Written::printed), unfolding(crate::specs::Words::digits_bytes))]
    fn digits(&mut self, units: u128, places: u8) -> Result<(), AllocError>
        ensures { OnOk result (self.new ≡ self.old ++ spec.digits_bytes units places) }
    {
        if places == 0 {
            return self.number(units);
        }
        self.number(whole_of(units, places))?;
        self.bytes(".")?;
        self.last_digits(units, places)
    }

    /// Appends the last `places` digits of a number.
    #[tactic(auto, using(crate::proofs::Digits::digits))]
    fn last_digits(&mut self, number: u128, count: u8) -> Result<(), AllocError>
        ensures { OnOk result (self.new ≡ self.old ++ last_digits count number) }
    {
        if count == 0 {
            return Ok(());
        }
        self.last_digits(number / 10, count - 1)?;
        self.number(number % 10)
    }

    /// Appends `q` and the number of bits after the point, where the number has a `q`.
    #[tactic(auto, using(crate::proofs::Written::printed), unfolding(crate::specs::Words::bits_bytes))]
    fn bits(&mut self, bits: Option<u8>) -> Result<(), AllocError>
        ensures { OnOk result (self.new ≡ self.old ++ spec.bits_bytes bits) }
    {
        match bits {
            None => Ok(()),
            Some(bits) => {
                self.bytes("q")?;
                self.number(u128::from(bits))
            }
        }
    }

    /// Appends a type.
    #[tactic(auto, using(crate::proofs::Written::printed), unfolding(crate::specs::Words::sort_pieces))]
    pub(crate) fn sort(&mut self, sort: SortText) -> Result<(), AllocError>
        ensures { OnOk result (self.new ≡ written self.old (spec.sort_pieces (sort_of sort))) }
    {
        match sort {
            SortText::Flag => self.word("bool"),
            SortText::Number(scale, mode) => {
                self.scale(scale)?;
                self.mode(mode)
            }
        }
    }

    /// Appends the word of a scale.
    #[tactic(auto, using(crate::proofs::Written::printed), unfolding(crate::specs::Words::word_pieces, crate::specs::Words::scale_pieces))]
    fn scale(&mut self, scale: Scale) -> Result<(), AllocError>
        ensures { OnOk result (self.new ≡ written self.old (spec.scale_pieces (parts_of scale))) }
    {
        if is_int(scale) {
            self.int(scale)
        } else {
            self.fix(scale)
        }
    }

    /// Appends `intW` or `uintW`.
    #[tactic(auto, using(crate::proofs::Written::printed), unfolding(crate::specs::Words::int_bytes))]
    fn int(&mut self, scale: Scale) -> Result<(), AllocError>
        ensures { OnOk result (self.new ≡ self.old ++ spec.int_bytes (parts_of scale)) }
    {
        self.bytes(if scale.signed { "int" } else { "uint" })?;
        self.number(u128::from(scale.width))
    }

    /// Appends `sfixW_EnF` or `ufixW_EnF`.
    #[tactic(auto, using(crate::proofs::Written::printed), unfolding(crate::specs::Words::fix_bytes))]
    fn fix(&mut self, scale: Scale) -> Result<(), AllocError>
        ensures { OnOk result (self.new ≡ self.old ++ spec.fix_bytes (parts_of scale)) }
    {
        self.bytes(if scale.signed { "sfix" } else { "ufix" })?;
        self.number(u128::from(scale.width))?;
        self.bytes("_En")?;
        self.number(u128::from(scale.frac))
    }

    /// Appends the word of a mode after a space. Saturate has none.
    #[tactic(auto, using(crate::proofs::Written::printed), unfolding(crate::specs::Words::mode_pieces))]
    fn mode(&mut self, mode: Mode) -> Result<(), AllocError>
        ensures { OnOk result (self.new ≡ written self.old (spec.mode_pieces mode)) }
    {
        match mode {
            Mode::Saturate => Ok(()),
            Mode::Wrap => {
                self.space()?;
                self.key(Kind::Wrap)
            }
            Mode::Error => {
                self.space()?;
                self.key(Kind::Error)
            }
        }
    }
}

/// The part of a number before its last `places` digits.
fn whole_of(number: u128, places: u8) -> u128
    ensures { result ≡ number / 10 ^ places }
{
    match 10_u128.checked_pow(u32::from(places)) {
        Some(power) => number / power,
        None => 0,
    }
}

/// Whether the scale is that of an `int` or a `uint`.
fn is_int(scale: Scale) -> bool
    ensures { result ≡ spec.is_int (parts_of scale) }
{
    scale.frac == 0
        && (scale.width == 8 || scale.width == 16 || scale.width == 32 || scale.width == 64)
}
