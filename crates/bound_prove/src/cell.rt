//! Cells of a certificate, and how far each is looked at.
use crate::need::Part;
use actions::Event;

/// A cell: a part of a chart under an event.
#[derive(Clone, Copy)]
pub struct Cell {
    /// The event.
    pub event: Event,
    /// The piece of work.
    pub part: Part,
    /// The number of the junction or state.
    pub index: u32,
}

/// How far a cell is looked at.
#[derive(Clone, Copy, PartialEq, Eq)]
pub enum Colour {
    /// Not at all.
    White,
    /// Its need waits for the cells that it looks up.
    Grey,
    /// Its need is final.
    Black,
}
