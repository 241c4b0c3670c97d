//! Tests of the last result that are decided, and calls whose result isn't read.
//!
//! The public call is `fold_results`. Read `specs/Results.antt`, what may be known of the last
//! result, and `specs/Folded.antt`, how code is made by it and when what is known is right. The
//! modules `searching`, `spreading`, `reading` and `joining` find what is known, and `checking`
//! checks it; what is proved rests on the check alone.
#![tactic(auto)]

mod checking;
mod folding;
mod joining;
mod laws;
mod making;
mod plan;
mod reading;
mod results;
mod searching;
mod spreading;

pub use folding::fold_results;
pub use laws::code_by_a_right_plan_of_results_has_the_same_runs;
pub use plan::{KnownResults, Place, Results};
