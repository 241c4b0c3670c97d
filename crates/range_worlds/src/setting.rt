//! What stays the same while a certificate is checked, and what it may lack.
use checked_chart::Chart;
use range_rules::{Cell, Certificate};
use range_spans::{Declared, Gap, Span};
use std::alloc::Global;
use std::cell::Cell as Counter;

/// What a certificate lacks, or why nothing is said of a chart. The search for a certificate mends
/// what is lacking, where it can, and asks again.
#[derive(Drop)]
pub enum Lack {
    /// There is no more memory.
    Memory,
    /// A number is that of no state, datum or junction or doesn't fit 128 bits, the search of lists
    /// goes through too many junctions, states are nested too deep, or nothing is known of what a
    /// datum is given.
    Unknown,
    /// There may be a divisor of 0, and the certificate says that there is none.
    Zero,
    /// The datum of that number may overflow, and the certificate says that it doesn't.
    Overflow(u32),
    /// The datum of that number may be anywhere in that span, which isn't inside the one in which
    /// the certificate says that it always is.
    Beyond(u32, Span),
    /// All steps of the check were used. Of the certificate nothing is said.
    GivenUp,
    /// No cell of the certificate is for the processing of that state for that event from those
    /// worlds. This one is, and has no ends yet.
    Sent(Box<Cell>),
}

impl From<Gap> for Lack {
    fn from(gap: Gap) -> Lack {
        match gap {
            Gap::Memory => Lack::Memory,
            Gap::Unknown => Lack::Unknown,
        }
    }
}

/// What stays the same while a certificate is checked.
#[derive(Clone, Copy)]
pub struct Setting<'a> {
    /// Where memory comes from.
    pub alloc: Global,
    /// The chart.
    pub chart: &'a Chart,
    /// The certificate.
    pub cert: &'a Certificate,
    /// Whether sets of worlds are kept apart where flags of the chart differ.
    pub apart: bool,
    /// How many transitions may still be looked at.
    pub steps: &'a Counter<u64>,
}

/// Uses one of the steps of a check. The answer is `GivenUp` where none is left.
pub fn use_step(setting: &Setting<'_>) -> Result<(), Lack> {
    let left = setting.steps.get();
    if left == 0 {
        return Err(Lack::GivenUp);
    }
    setting.steps.set(left - 1);
    Ok(())
}
