//! Functions are gone through, and before a call for the first time the function that is called.
use crate::found::Found;
use crate::keeping::weight;
use crate::lines::{Own, Walk};
use crate::outside::is_kept;
use crate::work::line_work;
use c_decided_runs::Outside;
use c_facts::copied;
use c_subset::{Function, Line};
use flow_base::Memory;
use std::alloc::Global;

/// More lines are never gone through at once.
const MOST_LINES: u32 = 4_000_000_000;

/// A function that is gone through.
#[derive(Drop)]
struct Visit {
    /// The function.
    own: Own,
    /// How far it is gone through.
    walk: Walk,
    /// The line that comes next.
    next: usize,
    /// How much is known where it begins.
    known: u64,
}

/// What all visits share.
#[derive(Clone, Copy)]
pub struct Setting<'a> {
    /// All functions.
    pub functions: &'a [Function],
    /// Those that are called from outside.
    pub outside: Outside,
}

/// The line that comes next.
fn next_line<'a>(setting: Setting<'a>, visit: &Visit) -> Option<&'a Line> {
    let function = setting.functions.get(visit.own.number)?;
    function.lines.items().get(visit.next)
}

/// Begins to go through a function that is due.
fn enter(
    alloc: Global,
    setting: Setting<'_>,
    found: &mut Found,
    number: usize,
    open: &mut Vec<Visit>,
) -> Result<(), Memory> {
    let Some(function) = setting.functions.get(number) else {
        return Ok(());
    };
    if !found.take_due(number) {
        return Ok(());
    }
    let Some(facts) = found.find(number) else {
        return Ok(());
    };
    let own = Own {
        number,
        result: function.result,
        stays: is_kept(setting.outside, number),
    };
    let known = weight(&facts.begins);
    let walk = Walk::new(alloc, copied(alloc, &facts.begins)?);
    open.push(Visit {
        own,
        walk,
        next: 0,
        known,
    })?;
    Ok(())
}

/// Goes through a line, or begins with a function that is to be gone through first.
fn advance(
    alloc: Global,
    setting: Setting<'_>,
    found: &mut Found,
    visit: Visit,
    line: &Line,
    open: &mut Vec<Visit>,
) -> Result<(), Memory> {
    let mut own = visit;
    let first = own.walk.new_callee(alloc, found, line)?;
    if let Some(callee) = first {
        open.push(own)?;
        return enter(alloc, setting, found, callee, open);
    }
    own.walk.step(alloc, found, own.own, line)?;
    own.next = own.next.saturating_add(1);
    open.push(own)?;
    Ok(())
}

/// Goes through a function, if it is due, and through those that it calls for the first time.
pub fn go_through(
    alloc: Global,
    setting: Setting<'_>,
    found: &mut Found,
    number: usize,
) -> Result<(), Memory> {
    let mut open = Vec::new(alloc);
    enter(alloc, setting, found, number, &mut open)?;
    for _ in 0..MOST_LINES {
        let Some(visit) = open.pop() else {
            return Ok(());
        };
        match next_line(setting, &visit) {
            None => found.tell_callers(visit.own.number),
            Some(line) => {
                let work = line_work(found, visit.own.number, visit.known, line);
                if !found.spend(work) {
                    return Ok(());
                }
                advance(alloc, setting, found, visit, line, &mut open)?;
            }
        }
    }
    Ok(())
}
