//! Which claims a certificate proves.
ghost use Rattle.std.specs.Prelude.{◌≡◌, None, IfOk};
ghost use Rattle.std.specs.Bool.{OnTrue};
ghost use Rattle.actions.specs.Names.{names_of};
ghost use Rattle.actions.specs.Trees.{expr_of};
ghost use Rattle.checked_chart.specs.Kept.{chart_of};
ghost use Rattle.range_rules.specs.Closed.{IsClosed};
ghost use Rattle.range_rules.specs.Kept.{Proves};
ghost use Rattle.range_spans.specs.Boxes.{box_of, sort_at};
ghost use Rattle.range_spans.specs.Known as known;
ghost use Rattle.range_check.specs.Runs.{IsSure, IsTrueInRuns};

use actions::Expr;
use checked_chart::Chart;
use range_rules::{Around, Certificate};
use range_spans::{Declared, Gap, Guess, Known, guess};
use std::alloc::Global;

/// Whether what is known of a value is that it is true, and no divisor may be 0.
fn is_sure(found: Guess) -> bool
    ensures { OnTrue result (IsSure found) }
{
    if found.zero {
        return false;
    }
    match found.known {
        Known::Truth(may_be_false, _) => !may_be_false,
        Known::Number(..) | Known::Nothing => false,
    }
}

/// Whether what is known of a claim in the worlds of a set is that it is true.
fn is_known(declared: &Declared<'_>, x: &Around, claim: &Expr) -> Result<bool, Gap>
    ensures { IfOk result (λ b. OnTrue b (IsSure (known.guess
        (sort_at (names_of declared.now.names.now)) (box_of x.now.spans.items) x.now.config
        (expr_of claim.now)))) }
{
    match guess(declared, &x.spans, &x.config, claim) {
        Err(Gap::Memory) => Err(Gap::Memory),
        Err(Gap::Unknown) => Ok(false),
        Ok(found) => Ok(is_sure(found)),
    }
}

/// The number of the first set between two events in which a claim isn't known to be true. Where
/// there is none, the certificate proves the claim: if it is closed, the claim is true after the
/// start and after each event of each run. A claim of which nothing can be said, as where a number
/// on the way doesn't fit 128 bits, isn't known. The only gap is `Memory`.
pub fn unproved_at(
    alloc: Global,
    chart: &Chart,
    cert: &Certificate,
    claim: &Expr,
) -> Result<Option<usize>, Gap>
    ensures proves { IfOk result (λ at. at ≡ None
        → Proves (chart_of chart.now) cert.now (expr_of claim.now)) }
    ensures runs { IfOk result (λ at. at ≡ None → IsClosed (chart_of chart.now) cert.now
        → IsTrueInRuns (chart_of chart.now) (expr_of claim.now)) }
{
    let declared = Declared {
        alloc,
        names: chart.names(),
    };
    for i in 0..cert.rest.len() {
        let known = is_known(&declared, &cert.rest[i], claim)?;
        if !known {
            return Ok(Some(i));
        }
    }
    Ok(None)
}
