//! Which functions stay as they are.
ghost use Rattle.std.specs.Prelude.{◌≡◌};
ghost use Rattle.c_fact_search.specs.Searched as spec;

use c_decided_runs::Outside;

/// Whether a function stays as it is: the start and the reaction do.
pub fn is_kept(outside: Outside, function: usize) -> bool
    ensures { result ≡ spec.is_kept outside function }
{
    function == outside.start as usize || function == outside.react as usize
}
