//! An order of functions is searched for in which each stands behind those that it calls: the calls
//! are followed from the functions that are called from outside.
use crate::calls::FunctionCall;
use crate::known::{Uses, is_outside};
use crate::made::Made;
use c_text::function_kind;
use flow_base::Memory;
use std::alloc::Global;

/// A search through the calls of a file.
#[derive(Drop)]
struct Visits {
    /// Of each function the place of the next of its calls, which stand one after the other.
    next: Vec<usize>,
    /// Of each function whether it was met.
    met: Vec<bool>,
    /// The functions whose calls are being followed, each called by the one before it.
    open: Vec<u32>,
    /// The functions all of whose calls were followed, in the order in which that was so.
    done: Vec<u32>,
}

/// Of each function the place of its first call, where there is one.
fn first_calls(alloc: Global, calls: &[FunctionCall], count: usize) -> Result<Vec<usize>, Memory> {
    let mut first = vec![in alloc; calls.len(); count]?;
    for place in (0..calls.len()).rev() {
        if let Some(own) = first.get_mut(calls[place].caller as usize) {
            *own = place;
        }
    }
    Ok(first)
}

/// Opens a function that wasn't met before.
fn open(visits: &mut Visits, function: u32) -> Result<(), Memory> {
    if let Some(is_met) = visits.met.get_mut(function as usize) {
        if !*is_met {
            *is_met = true;
            visits.open.push(function)?;
        }
    }
    Ok(())
}

/// The next call of a function, if there is one.
fn next_call(visits: &mut Visits, calls: &[FunctionCall], function: u32) -> Option<FunctionCall> {
    let place = visits.next.get_mut(function as usize)?;
    let call = calls.get(*place)?;
    if call.caller != function {
        return None;
    }
    *place += 1;
    Some(*call)
}

/// Follows one more call of the function that was opened last, or closes it. Whether one was open.
fn step(visits: &mut Visits, calls: &[FunctionCall]) -> Result<bool, Memory> {
    let Some(function) = visits.open.last().copied() else {
        return Ok(false);
    };
    if let Some(call) = next_call(visits, calls, function) {
        open(visits, call.callee)?;
    } else {
        let _ = visits.open.pop();
        visits.done.push(function)?;
    }
    Ok(true)
}

/// Follows the calls from a function on. Each step follows a call or closes a function.
fn follow(visits: &mut Visits, calls: &[FunctionCall], function: u32) -> Result<(), Memory> {
    open(visits, function)?;
    for _ in 0..calls.len().saturating_add(visits.met.len()) {
        if !step(visits, calls)? {
            return Ok(());
        }
    }
    Ok(())
}

/// An order of functions, those that are called before those that call them. Those that are called
/// from outside aren't in it.
pub(crate) fn found_order(alloc: Global, made: &Made<'_>, uses: &Uses) -> Result<Vec<u32>, Memory> {
    let count = uses.reached.len();
    let mut visits = Visits {
        next: first_calls(alloc, &uses.calls, count)?,
        met: vec![in alloc; false; count]?,
        open: Vec::new(alloc),
        done: Vec::new(alloc),
    };
    for call in &uses.calls {
        if is_outside(function_kind(&made.labels, call.caller)) {
            follow(&mut visits, &uses.calls, call.callee)?;
        }
    }
    Ok(visits.done)
}
