//! Copies of procedures that do what their procedures do, for the notes that are pending where they
//! begin, or for the depth at which they begin.
//!
//! The public calls are `copy_by_notes` and `copy_by_depth`. Read `specs/PureCopies.antt`, when
//! code is made of copies.
#![tactic(auto)]

mod laws;
mod making;
mod naming;
mod plan;
mod searching;

pub use laws::pure_copies_run_as_their_code;
pub use making::{Copies, copy_by_depth, copy_by_notes};
pub use searching::{
    DEPTH_ROOM, NOTE_PLACE_LIMIT, PENDING_LIMIT, ROUND_LIMIT, SEND_LIMIT, SPREAD_LIMIT,
};
