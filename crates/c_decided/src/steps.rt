//! What is known after a statement, by what is known before it.
ghost use Rattle.std.specs.Prelude.{◌≡◌, ◌&&◌, ◌==◌, true, false, IfOk};
ghost use Rattle.c_subset.specs.Lines.{expr_of};
ghost use Rattle.c_facts.specs.Asking as asking;
ghost use Rattle.c_facts.specs.Views.{known_of};
ghost use Rattle.c_decided.specs.Facts as places;
ghost use Rattle.c_decided.specs.Numbered as numbered;
ghost use Rattle.c_decided.specs.Walk as spec;
ghost use Rattle.c_decided.specs.Views.{by_of, cases_of, facts_of};

use crate::by_number::{
    all_of, brought, copied_by, fits, is_nowhere, joined_by, stored_by, tested_by, whatever,
    with_case,
};
use crate::inquiries::{Inquiry, asks, same_type};
use crate::plan::{ByNumber, Cases, Facts};
use c_facts::{Known, agrees, copied, joined};
use c_subset::{CExpr, CType};
use flow_base::Memory;
use std::alloc::Global;

/// No local is looked at.
pub fn alone(known: Known) -> Facts
    ensures { facts_of result ≡ places.alone (known_of known) }
{
    Facts {
        of: CType::Truth,
        local: 0,
        by: whatever(known),
    }
}

/// The same. `Memory` where there is no memory for it.
pub fn copied_facts(alloc: Global, facts: &Facts) -> Result<Facts, Memory>
    ensures { IfOk result (λ copy. facts_of copy ≡ facts_of facts.now) }
{
    let by = copied_by(alloc, &facts.by)?;
    Ok(Facts {
        of: facts.of,
        local: facts.local,
        by,
    })
}

/// Whether these are facts by that local.
fn is_local(of: CType, local: u32, facts: &Facts) -> bool
    ensures { result ≡ places.is_local of local (facts_of facts.now) }
{
    facts.local == local && same_type(facts.of, of)
}

/// What holds if one of both holds, where a run comes to both.
fn joined_both(alloc: Global, first: &Facts, second: &Facts) -> Result<Facts, Memory>
    ensures { IfOk result (λ all. facts_of all
        ≡ numbered.joined_both (facts_of first.now) (facts_of second.now)) }
{
    if is_local(first.of, first.local, second) {
        let by = joined_by(alloc, &first.by, &second.by)?;
        return Ok(Facts {
            of: first.of,
            local: first.local,
            by,
        });
    }
    let one = all_of(alloc, &first.by)?;
    let other = all_of(alloc, &second.by)?;
    let both = joined(alloc, &one, &other)?;
    Ok(alone(both))
}

/// What holds if one of both holds. `Memory` where there is no memory for it.
pub fn joined_facts(alloc: Global, first: &Facts, second: &Facts) -> Result<Facts, Memory>
    ensures { IfOk result (λ all. facts_of all
        ≡ numbered.joined_facts (facts_of first.now) (facts_of second.now)) }
{
    if is_nowhere(&first.by) {
        copied_facts(alloc, second)
    } else if is_nowhere(&second.by) {
        copied_facts(alloc, first)
    } else {
        joined_both(alloc, first, second)
    }
}

/// What is known of a case after the question whether it is a number came out so.
fn narrowed_case(
    alloc: Global,
    of: CType,
    way: bool,
    number: u32,
    own: u32,
    known: &Known,
) -> Result<Known, Memory>
    ensures { IfOk result (λ left. known_of left
        ≡ numbered.narrowed_case of way number own (known_of known.now)) }
{
    if fits(of, own) && !agrees(way, own == number) {
        Ok(Known::Never)
    } else {
        copied(alloc, known)
    }
}

/// Each of these after the question whether a local is a number came out so.
fn narrowed(
    alloc: Global,
    of: CType,
    way: bool,
    number: u32,
    cases: &Cases,
) -> Result<Cases, Memory>
    ensures { IfOk result (λ left. cases_of left
        ≡ numbered.narrowed of way number (cases_of cases.now)) }
{
    match cases {
        Cases::End => Ok(Cases::End),
        Cases::Case(own, known, rest) => {
            let more = narrowed(alloc, of, way, number, rest)?;
            let left = narrowed_case(alloc, of, way, number, *own, known)?;
            with_case(alloc, *own, left, more)
        }
    }
}

/// After the question came out so.
fn narrowed_facts(
    alloc: Global,
    way: bool,
    inquiry: Inquiry,
    facts: &Facts,
) -> Result<Facts, Memory>
    ensures { IfOk result (λ after. facts_of after
        ≡ spec.narrowed_facts way inquiry (facts_of facts.now)) }
{
    let way_of_it = agrees(inquiry.is, way);
    let cases = narrowed(
        alloc,
        inquiry.of,
        way_of_it,
        inquiry.number,
        &facts.by.cases,
    )?;
    let others = copied(alloc, &facts.by.others)?;
    Ok(Facts {
        of: facts.of,
        local: facts.local,
        by: ByNumber { cases, others },
    })
}

/// After a test of the struct came out so.
fn tested_facts(alloc: Global, way: bool, expr: &CExpr, facts: &Facts) -> Result<Facts, Memory>
    ensures { IfOk result (λ after. facts_of after
        ≡ spec.each_fact (asking.tested way (expr_of expr.now)) (facts_of facts.now)) }
{
    let by = tested_by(alloc, expr, way, &facts.by)?;
    Ok(Facts {
        of: facts.of,
        local: facts.local,
        by,
    })
}

/// After a test that asks this of a local, or nothing of one, came out so.
fn inquired(
    alloc: Global,
    way: bool,
    expr: &CExpr,
    found: Option<Inquiry>,
    facts: &Facts,
) -> Result<Facts, Memory>
    ensures { IfOk result (λ after. facts_of after
        ≡ spec.inquired way (expr_of expr.now) found (facts_of facts.now)) }
{
    match found {
        None => tested_facts(alloc, way, expr, facts),
        Some(inquiry) => {
            if is_local(inquiry.of, inquiry.local, facts) {
                narrowed_facts(alloc, way, inquiry, facts)
            } else {
                tested_facts(alloc, way, expr, facts)
            }
        }
    }
}

/// After a test came out so. `Memory` where there is no memory for it.
pub fn test(alloc: Global, way: bool, expr: &CExpr, facts: &Facts) -> Result<Facts, Memory>
    ensures { IfOk result (λ after. facts_of after
        ≡ spec.test way (expr_of expr.now) (facts_of facts.now)) }
{
    inquired(alloc, way, expr, asks(expr), facts)
}

/// One number alone.
fn constant(alloc: Global, of: CType, value: i128, known: Known) -> Result<ByNumber, Memory>
    ensures { IfOk result (λ by. by_of by ≡ spec.constant of value (known_of known)) }
{
    if 0 <= value && value <= 4_294_967_295 && fits(of, value as u32) {
        let cases = with_case(alloc, value as u32, known, Cases::End)?;
        Ok(ByNumber {
            cases,
            others: Known::Never,
        })
    } else {
        Ok(whatever(known))
    }
}

/// By what a comparison gives.
fn compared(alloc: Global, expr: &CExpr, facts: &Facts) -> Result<ByNumber, Memory>
    ensures { IfOk result (λ by. by_of by
        ≡ spec.by_truth (expr_of expr.now) (facts_of facts.now)) }
{
    let yes = test(alloc, true, expr, facts)?;
    let no = test(alloc, false, expr, facts)?;
    let zero = with_case(alloc, 0, all_of(alloc, &no.by)?, Cases::End)?;
    let cases = with_case(alloc, 1, all_of(alloc, &yes.by)?, zero)?;
    Ok(ByNumber {
        cases,
        others: Known::Never,
    })
}

/// What is known by the value of an expression. `Memory` where there is no memory for it.
pub fn by_value(alloc: Global, expr: &CExpr, facts: &Facts) -> Result<ByNumber, Memory>
    ensures { IfOk result (λ by. by_of by
        ≡ spec.by_value (expr_of expr.now) (facts_of facts.now)) }
{
    match expr {
        CExpr::Const(of, value) => constant(alloc, *of, *value, all_of(alloc, &facts.by)?),
        CExpr::Local(of, local) => {
            if is_local(*of, *local, facts) {
                copied_by(alloc, &facts.by)
            } else {
                Ok(whatever(all_of(alloc, &facts.by)?))
            }
        }
        CExpr::Compare(..) => compared(alloc, expr, facts),
        CExpr::Field(..)
        | CExpr::Element(..)
        | CExpr::Cast(..)
        | CExpr::Minus(..)
        | CExpr::Bang(..)
        | CExpr::Calc(..)
        | CExpr::Divide(..)
        | CExpr::Bits(..)
        | CExpr::Both(..)
        | CExpr::Either(..)
        | CExpr::Choose(..) => Ok(whatever(all_of(alloc, &facts.by)?)),
    }
}

/// After `x = e;`. `Memory` where there is no memory for it.
pub fn after_set(
    alloc: Global,
    of: CType,
    local: u32,
    expr: &CExpr,
    facts: &Facts,
) -> Result<Facts, Memory>
    ensures { IfOk result (λ after. facts_of after
        ≡ spec.after_set of local (expr_of expr.now) (facts_of facts.now)) }
{
    if !is_local(of, local, facts) {
        return copied_facts(alloc, facts);
    }
    let value = by_value(alloc, expr, facts)?;
    let by = brought(alloc, of, &value)?;
    Ok(Facts { of, local, by })
}

/// After `m->f = e;`. `Memory` where there is no memory for it.
pub fn after_store(alloc: Global, field: u32, expr: &CExpr, facts: &Facts) -> Result<Facts, Memory>
    ensures { IfOk result (λ after. facts_of after
        ≡ spec.each_fact (asking.stored field (expr_of expr.now)) (facts_of facts.now)) }
{
    let by = stored_by(alloc, field, expr, &facts.by)?;
    Ok(Facts {
        of: facts.of,
        local: facts.local,
        by,
    })
}
