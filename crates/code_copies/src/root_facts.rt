//! What is known of the root from place to place of a copy.
ghost use Rattle.std.specs.Prelude.{◌≡◌, ℕ, List, Vec};
ghost use Rattle.std.specs.declared.alloc.Global.{Global};
ghost use Rattle.code_language.specs.Code.{cond_of};
ghost use Rattle.code_copies.specs.Facts as spec;
ghost use Rattle.code_copies.specs.Views.{facts_of};

use crate::known::Facts;
use code_language::Cond;

/// Whether a home is known to be the root.
fn is_root(home: Option<u32>) -> bool
    ensures { result ≡ spec.is_root home }
{
    match home {
        Some(state) => state == 0,
        None => false,
    }
}

/// Whether a condition holds only where the root is active, for a home that is known or not.
pub(crate) fn tells_root(home: Option<u32>, cond: &Cond) -> bool
    ensures { result ≡ spec.tells_root home (cond_of cond.now) }
{
    match cond {
        Cond::On(state) | Cond::Bare(state) => *state == 0,
        Cond::OnHome | Cond::BareHome => is_root(home),
        Cond::Current(_) | Cond::Result(_) | Cond::Test(_) | Cond::Last(_) => false,
    }
}

/// The facts, and that the root is active where that is said.
fn know_root(is_rooted: bool, facts: Facts) -> Facts
    ensures { (sets : List (Vec ℕ Global))
        → facts_of sets result ≡ spec.know_root is_rooted (facts_of sets facts) }
{
    Facts {
        is_rooted: facts.is_rooted || is_rooted,
        ..facts
    }
}

/// What is known after a state became active, where the root stays active once it is or not.
pub(crate) fn after_mark(keeps_root: bool, state: u32, facts: Facts) -> Facts
    ensures { (sets : List (Vec ℕ Global))
        → facts_of sets result ≡ spec.after_mark keeps_root state (facts_of sets facts) }
{
    know_root(keeps_root && state == 0, facts)
}

/// What is known where a condition was found to hold, where the root stays active once it is or
/// not.
pub(crate) fn after_test(keeps_root: bool, cond: &Cond, facts: Facts) -> Facts
    ensures { (sets : List (Vec ℕ Global)) → facts_of sets result
        ≡ spec.after_test keeps_root (cond_of cond.now) (facts_of sets facts) }
{
    know_root(keeps_root && tells_root(facts.home, cond), facts)
}
