//! The numbers of the parts of a transition.
ghost use Rattle.std.specs.Prelude.{◌≡◌, ◌≤◌, ◌+◌};
ghost use Rattle.checked_chart.specs.Views.{trans_seen};
ghost use Rattle.chart_code.specs.Numbers.{condition_of};
ghost use Rattle.chart_code.specs.Places.{guard_count, trans_numbers};
ghost use Rattle.list_compile.specs.declared.number_limits.TheConstants as limits;

use checked_chart::{ListKind, Trans};

/// The number of its guard's procedure, where the first of its parts has the number `first`.
pub(crate) fn guard_number(trans: &Trans, first: u32) -> Option<u32>
    ensures { result ≡ (trans_numbers first (trans_seen trans.now)).guard }
{
    match trans.guard {
        Some(_) => Some(first),
        None => None,
    }
}

/// The number of the first part after its guard.
fn after_guard(trans: &Trans, first: u32) -> u32
    requires { first ≤ limits.PART_LIMIT }
    ensures { result ≡ first + guard_count (trans_seen trans.now).guard }
{
    match trans.guard {
        Some(_) => first + 1,
        None => first,
    }
}

/// The number of the procedure of its condition action for a kind of list.
pub(crate) fn condition_number(trans: &Trans, kind: ListKind, first: u32) -> Option<u32>
    requires { first ≤ limits.PART_LIMIT }
    ensures { result ≡ condition_of kind (trans_numbers first (trans_seen trans.now)) }
{
    if trans.cond.items().is_empty() {
        return None;
    }
    match kind {
        ListKind::Outer | ListKind::Inner => Some(after_guard(trans, first)),
        ListKind::Default => Some(after_guard(trans, first) + 1),
    }
}

/// The number of the procedure of its transition action.
pub(crate) fn action_number(trans: &Trans, first: u32) -> Option<u32>
    requires { first ≤ limits.PART_LIMIT }
    ensures { result ≡ (trans_numbers first (trans_seen trans.now)).action }
{
    if trans.act.items().is_empty() {
        return None;
    }
    let conditions = if trans.cond.items().is_empty() { 0 } else { 2 };
    Some(after_guard(trans, first) + conditions)
}
