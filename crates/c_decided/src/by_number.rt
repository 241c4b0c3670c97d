//! What is known by a number.
ghost use Rattle.std.specs.Prelude.{◌≡◌, ◌∷◌, [], IfOk, Some, nat_lt, pos};
ghost use Rattle.c_subset.specs.Lines.{expr_of};
ghost use Rattle.c_facts.specs.Asking as asking;
ghost use Rattle.c_facts.specs.Facts as domain;
ghost use Rattle.c_facts.specs.Views.{known_of, places_of};
ghost use Rattle.c_decided.specs.Facts as places;
ghost use Rattle.c_decided.specs.Numbered as spec;
ghost use Rattle.c_decided.specs.Views.{by_of, cases_of};

use crate::plan::{ByNumber, Cases};
use c_facts::{Known, Places, copied, covers, framed, is_never, joined, stored, tested};
use c_subset::{CExpr, CType, Width};
use flow_base::Memory;
use std::alloc::Global;

/// A case before others. `Memory` where there is no memory for it.
pub fn with_case(alloc: Global, number: u32, known: Known, rest: Cases) -> Result<Cases, Memory>
    ensures { IfOk result (λ all. cases_of all
        ≡ record { number = number; known = known_of known } ∷ cases_of rest) }
{
    match Box::new(alloc, rest) {
        Ok(holder) => Ok(Cases::Case(number, known, holder)),
        Err(refused) => {
            drop(refused);
            drop(known);
            Err(Memory)
        }
    }
}

/// What is known where the value is a number.
fn known_at<'a>(cases: &'a Cases, others: &'a Known, number: u32) -> &'a Known
    ensures { known_of result.now
        ≡ places.known_at (cases_of cases.now) (known_of others.now) (Some (pos number)) }
{
    match cases {
        Cases::End => others,
        Cases::Case(own, known, rest) => {
            if number == *own {
                known
            } else {
                known_at(rest, others, number)
            }
        }
    }
}

/// What is known where the value is a number.
pub fn at(by: &ByNumber, number: u32) -> &Known
    ensures { known_of result.now ≡ places.at (by_of by.now) (Some (pos number)) }
{
    known_at(&by.cases, &by.others, number)
}

/// What is known whatever the number is.
fn all_cases(alloc: Global, cases: &Cases, others: &Known) -> Result<Known, Memory>
    ensures { IfOk result (λ all. known_of all
        ≡ spec.all_cases (cases_of cases.now) (known_of others.now)) }
{
    match cases {
        Cases::End => copied(alloc, others),
        Cases::Case(_, known, rest) => {
            let more = all_cases(alloc, rest, others)?;
            joined(alloc, known, &more)
        }
    }
}

/// What is known whatever the number is. `Memory` where there is no memory for it.
pub fn all_of(alloc: Global, by: &ByNumber) -> Result<Known, Memory>
    ensures { IfOk result (λ all. known_of all ≡ spec.all_of (by_of by.now)) }
{
    all_cases(alloc, &by.cases, &by.others)
}

/// The same whatever the number is.
pub fn whatever(known: Known) -> ByNumber
    ensures { by_of result ≡ places.whatever (known_of known) }
{
    ByNumber {
        cases: Cases::End,
        others: known,
    }
}

/// The same cases.
fn copied_cases(alloc: Global, cases: &Cases) -> Result<Cases, Memory>
    ensures { IfOk result (λ copy. cases_of copy ≡ cases_of cases.now) }
{
    match cases {
        Cases::End => Ok(Cases::End),
        Cases::Case(number, known, rest) => {
            let more = copied_cases(alloc, rest)?;
            let own = copied(alloc, known)?;
            with_case(alloc, *number, own, more)
        }
    }
}

/// The same. `Memory` where there is no memory for it.
pub fn copied_by(alloc: Global, by: &ByNumber) -> Result<ByNumber, Memory>
    ensures { IfOk result (λ copy. by_of copy ≡ by_of by.now) }
{
    let cases = copied_cases(alloc, &by.cases)?;
    let others = copied(alloc, &by.others)?;
    Ok(ByNumber { cases, others })
}

/// Whether no run comes to any of these.
fn are_never(cases: &Cases) -> bool
    ensures { result ≡ spec.are_never (cases_of cases.now) }
{
    match cases {
        Cases::End => true,
        Cases::Case(_, known, rest) => is_never(known) && are_never(rest),
    }
}

/// Whether no run comes here.
pub fn is_nowhere(by: &ByNumber) -> bool
    ensures { result ≡ spec.is_nowhere (by_of by.now) }
{
    is_never(&by.others) && are_never(&by.cases)
}

/// Whether one of these names a number.
fn names(cases: &Cases, number: u32) -> bool
    ensures { result ≡ spec.names (Some (pos number)) (cases_of cases.now) }
{
    match cases {
        Cases::End => false,
        Cases::Case(own, _, rest) => number == *own || names(rest, number),
    }
}

/// The second cases whose numbers the first ones don't name.
fn added(alloc: Global, cases: &Cases, others: &Known, second: &Cases) -> Result<Cases, Memory>
    ensures { IfOk result (λ more. cases_of more
        ≡ spec.added (cases_of cases.now) (known_of others.now) (cases_of second.now)) }
{
    match second {
        Cases::End => Ok(Cases::End),
        Cases::Case(number, known, rest) => {
            let more = added(alloc, cases, others, rest)?;
            if names(cases, *number) {
                return Ok(more);
            }
            let both = joined(alloc, others, known)?;
            with_case(alloc, *number, both, more)
        }
    }
}

/// For each of the numbers what holds in one of both, before other cases.
fn joined_cases(alloc: Global, cases: &Cases, by: &ByNumber, more: Cases) -> Result<Cases, Memory>
    ensures { IfOk result (λ all. cases_of all
        ≡ spec.joined_cases (cases_of cases.now) (by_of by.now) (cases_of more)) }
{
    match cases {
        Cases::End => Ok(more),
        Cases::Case(number, known, rest) => {
            let others = joined_cases(alloc, rest, by, more)?;
            let both = joined(alloc, known, at(by, *number))?;
            with_case(alloc, *number, both, others)
        }
    }
}

/// For each number what holds in one of both. `Memory` where there is no memory for it.
pub fn joined_by(alloc: Global, first: &ByNumber, second: &ByNumber) -> Result<ByNumber, Memory>
    ensures { IfOk result (λ all. by_of all ≡ spec.joined_by (by_of first.now) (by_of second.now)) }
{
    let more = added(alloc, &first.cases, &first.others, &second.cases)?;
    let cases = joined_cases(alloc, &first.cases, second, more)?;
    let others = joined(alloc, &first.others, &second.others)?;
    Ok(ByNumber { cases, others })
}

/// Whether for each of these numbers the second holds where the first does.
fn cases_cover(cases: &Cases, by: &ByNumber) -> bool
    ensures { result ≡ spec.cases_cover (cases_of cases.now) (by_of by.now) }
{
    match cases {
        Cases::End => true,
        Cases::Case(number, known, rest) => {
            covers(known, at(by, *number)) && cases_cover(rest, by)
        }
    }
}

/// Whether the first holds for each of these numbers, where they do.
fn cover_cases(by: &ByNumber, cases: &Cases) -> bool
    ensures { result ≡ spec.cover_cases (by_of by.now) (cases_of cases.now) }
{
    match cases {
        Cases::End => true,
        Cases::Case(number, known, rest) => {
            covers(at(by, *number), known) && cover_cases(by, rest)
        }
    }
}

/// Whether for each number the second holds where the first does.
pub fn covers_by(first: &ByNumber, second: &ByNumber) -> bool
    ensures { result ≡ spec.covers_by (by_of first.now) (by_of second.now) }
{
    covers(&first.others, &second.others)
        && cases_cover(&first.cases, second)
        && cover_cases(first, &second.cases)
}

/// Whether a number is one of the unsigned type of a width.
fn is_small(width: Width, number: u32) -> bool
    ensures { result ≡ nat_lt number (asking.limit width) }
{
    match width {
        Width::W8 => number < 256,
        Width::W16 => number < 65_536,
        Width::W32 | Width::W64 | Width::W128 => true,
    }
}

/// Whether a number is one of the type.
pub fn fits(of: CType, number: u32) -> bool
    ensures { result ≡ spec.fits of number }
{
    match of {
        CType::Signed(_) => false,
        CType::Unsigned(width) => is_small(width, number),
        CType::Truth => number < 2,
    }
}

/// Whether each of these names a number of the type.
fn all_fit(of: CType, cases: &Cases) -> bool
    ensures { result ≡ spec.all_fit of (cases_of cases.now) }
{
    match cases {
        Cases::End => true,
        Cases::Case(number, _, rest) => fits(of, *number) && all_fit(of, rest),
    }
}

/// Each of these, or something else that is known.
fn with_others(alloc: Global, cases: &Cases, others: &Known) -> Result<Cases, Memory>
    ensures { IfOk result (λ all. cases_of all ≡ spec.each_case
        (λ k. domain.joined k (known_of others.now)) (cases_of cases.now)) }
{
    match cases {
        Cases::End => Ok(Cases::End),
        Cases::Case(number, known, rest) => {
            let more = with_others(alloc, rest, others)?;
            let both = joined(alloc, known, others)?;
            with_case(alloc, *number, both, more)
        }
    }
}

/// By the value that is brought to a type. `Memory` where there is no memory for it.
pub fn brought(alloc: Global, of: CType, by: &ByNumber) -> Result<ByNumber, Memory>
    ensures { IfOk result (λ made. by_of made ≡ spec.brought of (by_of by.now)) }
{
    if !all_fit(of, &by.cases) {
        return Ok(whatever(all_of(alloc, by)?));
    }
    let cases = with_others(alloc, &by.cases, &by.others)?;
    let others = copied(alloc, &by.others)?;
    Ok(ByNumber { cases, others })
}

/// Each of these after a test came out so.
fn tested_cases(alloc: Global, expr: &CExpr, way: bool, cases: &Cases) -> Result<Cases, Memory>
    ensures { IfOk result (λ all. cases_of all ≡ spec.each_case
        (asking.tested way (expr_of expr.now)) (cases_of cases.now)) }
{
    match cases {
        Cases::End => Ok(Cases::End),
        Cases::Case(number, known, rest) => {
            let more = tested_cases(alloc, expr, way, rest)?;
            let own = tested(alloc, expr, way, known)?;
            with_case(alloc, *number, own, more)
        }
    }
}

/// After a test of the struct came out so. `Memory` where there is no memory for it.
pub fn tested_by(alloc: Global, expr: &CExpr, way: bool, by: &ByNumber) -> Result<ByNumber, Memory>
    ensures { IfOk result (λ after. by_of after
        ≡ spec.each (asking.tested way (expr_of expr.now)) (by_of by.now)) }
{
    let cases = tested_cases(alloc, expr, way, &by.cases)?;
    let others = tested(alloc, expr, way, &by.others)?;
    Ok(ByNumber { cases, others })
}

/// Each of these after `m->f = e;`.
fn stored_cases(alloc: Global, field: u32, expr: &CExpr, cases: &Cases) -> Result<Cases, Memory>
    ensures { IfOk result (λ all. cases_of all ≡ spec.each_case
        (asking.stored field (expr_of expr.now)) (cases_of cases.now)) }
{
    match cases {
        Cases::End => Ok(Cases::End),
        Cases::Case(number, known, rest) => {
            let more = stored_cases(alloc, field, expr, rest)?;
            let own = stored(alloc, field, expr, known)?;
            with_case(alloc, *number, own, more)
        }
    }
}

/// After `m->f = e;`. `Memory` where there is no memory for it.
pub fn stored_by(alloc: Global, field: u32, expr: &CExpr, by: &ByNumber) -> Result<ByNumber, Memory>
    ensures { IfOk result (λ after. by_of after
        ≡ spec.each (asking.stored field (expr_of expr.now)) (by_of by.now)) }
{
    let cases = stored_cases(alloc, field, expr, &by.cases)?;
    let others = stored(alloc, field, expr, &by.others)?;
    Ok(ByNumber { cases, others })
}

/// Each of these after a call.
fn framed_cases(
    alloc: Global,
    before: &Known,
    touched: &Places,
    cases: &Cases,
) -> Result<Cases, Memory>
    ensures { IfOk result (λ all. cases_of all ≡ spec.each_case
        (domain.framed (domain.is_touched (places_of touched.now)) (known_of before.now))
        (cases_of cases.now)) }
{
    match cases {
        Cases::End => Ok(Cases::End),
        Cases::Case(number, known, rest) => {
            let more = framed_cases(alloc, before, touched, rest)?;
            let own = framed(alloc, before, known, touched)?;
            with_case(alloc, *number, own, more)
        }
    }
}

/// By the number that a function returned, after a call that may change these places. `Memory`
/// where there is no memory for it.
pub fn framed_by(
    alloc: Global,
    before: &Known,
    touched: &Places,
    left: &ByNumber,
) -> Result<ByNumber, Memory>
    ensures { IfOk result (λ after. by_of after ≡ spec.each
        (domain.framed (domain.is_touched (places_of touched.now)) (known_of before.now))
        (by_of left.now)) }
{
    let cases = framed_cases(alloc, before, touched, &left.cases)?;
    let others = framed(alloc, before, &left.others, touched)?;
    Ok(ByNumber { cases, others })
}
