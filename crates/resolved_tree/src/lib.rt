//! A resolved chart: a chart text in which each name and path is replaced by its number.
//!
//! The states stand in one list in pre-order, and the junctions in the order in which their names
//! stand in the text. Read `specs/Resolved.antt` first, then `specs/Plain.antt`, the chart for
//! which a resolved chart stands, and `specs/Promise.antt`, what holds of every resolved chart that
//! comes from a chart text.
#![tactic(auto)]

mod laws;
mod resolved;

pub use laws::the_first_of_a_list_comes_first;
pub use resolved::{
    Ref, Resolved, ResolvedDest, ResolvedExpr, ResolvedGuard, ResolvedJunction, ResolvedState,
    ResolvedStmt, ResolvedTrans,
};
