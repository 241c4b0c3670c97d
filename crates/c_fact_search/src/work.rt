//! How much work a line is, as far as it matters: it is measured by how much is known there.
use crate::found::Found;
use c_subset::{CExpr, Case, Line};

/// So many places are looked through in the time that something else takes that is known.
const PLACES: u64 = 16;

/// How many comparisons there are in a test.
fn comparisons(expr: &CExpr) -> u64 {
    match expr {
        CExpr::Bang(inner) => comparisons(inner),
        CExpr::Both(left, right) => comparisons(left).saturating_add(comparisons(right)),
        CExpr::Either(left, right) => comparisons(left).saturating_add(comparisons(right)),
        CExpr::Const(..)
        | CExpr::Field(..)
        | CExpr::Element(..)
        | CExpr::Local(..)
        | CExpr::Cast(..)
        | CExpr::Minus(..)
        | CExpr::Calc(..)
        | CExpr::Divide(..)
        | CExpr::Bits(..)
        | CExpr::Compare(..)
        | CExpr::Choose(..) => 1,
    }
}

/// The work for a test of so many comparisons: both ways of a part of it are asked for each of those
/// after it.
fn test_work(known: u64, comparisons: u64) -> u64 {
    known
        .saturating_mul(comparisons)
        .saturating_mul(comparisons)
}

/// The work for a call: each place that may change is looked for.
fn call_work(found: &Found, caller: usize, known: u64, callee: usize) -> u64 {
    let all = known.saturating_add(found.places(caller));
    all.saturating_mul((found.places(callee) / PLACES).saturating_add(1))
}

/// The work for the calls of cases.
fn cases_work(found: &Found, caller: usize, known: u64, cases: &[Case]) -> u64 {
    let mut work = 1u64;
    for case in cases {
        work = work.saturating_add(call_work(found, caller, known, case.function as usize));
    }
    work
}

/// The work for a line of a function, where so much is known as it begins.
pub fn line_work(found: &Found, function: usize, known: u64, line: &Line) -> u64 {
    match line {
        Line::If(expr) | Line::While(expr) => test_work(known, comparisons(expr)),
        Line::Call(_, _, callee, _) => call_work(found, function, known, *callee as usize),
        Line::Select(_, _, _, cases, _) => cases_work(found, function, known, cases.items()),
        Line::Set(..)
        | Line::Store(..)
        | Line::StoreAt(..)
        | Line::Else
        | Line::Close
        | Line::Return(..) => known,
    }
}
