//! What a certificate of ranges says of the runs of a chart: in which span each datum is at each
//! moment, which faults there may be, and which worlds there may be between two events.
//!
//! Read the definitions in this order: `specs/Worlds.antt`, sets of worlds and how work may end;
//! `specs/Closed.antt`, what a checker has to show of a certificate; and `specs/Kept.antt`, what
//! follows for each moment of each run. The laws say that it follows.
#![tactic(auto)]

mod cert;
mod laws;

pub use cert::{Around, Cell, Certificate};
pub use laws::{claims_are_kept, ranges_are_kept};
