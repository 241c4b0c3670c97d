//! Which bounds of a run can never be overrun, with a certificate that says why.
//!
//! Read the definitions in this order: `specs/Needs.antt`, how much depth and how many steps work
//! may take; `specs/Reaches.antt`, the states that a list reaches; `specs/Cells.antt`, the cells
//! of a certificate and which certificate is good; `specs/Roots.antt`, what a certificate says of
//! the whole chart, and what an overrun is; `specs/Certs.antt`, a certificate as a table; and
//! `specs/Checks.antt`, what its check answers. `specs/Lookups.antt` says what the evaluation of
//! one cell gives, on which the check goes, and `specs/Waiting.antt` what the finder of a
//! certificate knows between two steps.
#![tactic(auto)]

mod bounds;
mod cell;
mod cert;
mod check;
mod children;
mod colours;
mod evaluate;
mod find;
mod firings;
mod homes;
mod laws;
mod lists;
mod lookup;
mod need;
mod process;

pub use bounds::bounds_of;
pub use cell::Cell;
pub use cert::Cert;
pub use check::check_cert;
pub use find::find_cert;
pub use laws::{cycles_have_no_bounds, no_overrun, one_need};
pub use need::{Need, Part};
