//! The lines of a text of ranges.
ghost use Rattle.std.specs.Prelude.{◌≡◌, ◌++◌, codes, string_bytes, OnOk, IfOk};
ghost use Rattle.actions.specs.Names.{names_of};
ghost use Rattle.range_spans.specs.Boxes.{box_of};
ghost use Rattle.range_text.specs.Lines as spec;

use crate::values::{push, push_value};
use actions::{Names, Var};
use fixed_point::Mode;
use range_rules::Certificate;
use range_spans::{Gap, Span};
use std::alloc::Global;

/// Appends the line of a datum and its span.
fn push_span(out: &mut String, var: &Var, span: Span) -> Result<(), Gap>
    ensures { OnOk result
        (string_bytes out.new ≡ string_bytes out.old ++ spec.span_line var.now span) }
{
    push(out, var.name.text())?;
    push(out, " ")?;
    push_value(out, var.sort, span.low)?;
    push(out, " ")?;
    push_value(out, var.sort, span.high)?;
    push(out, "\n")?;
    Ok(())
}

/// Appends the lines of data and their spans. `Unknown` where a datum has no span.
fn push_spans(out: &mut String, vars: &[Var], spans: &[Span]) -> Result<(), Gap>
    ensures { OnOk result
        (string_bytes out.new ≡ string_bytes out.old ++ spec.spans_text (box_of spans.now) 0 vars.now) }
{
    for (number, var) in vars.iter().enumerate() {
        match spans.get(number) {
            None => return Err(Gap::Unknown),
            Some(span) => push_span(out, var, *span)?,
        }
    }
    Ok(())
}

/// Appends the line that no divisor is 0, where none may be.
fn push_zero(out: &mut String, zero: bool) -> Result<(), Gap>
    ensures { OnOk result (string_bytes out.new ≡ string_bytes out.old ++ spec.zero_text zero) }
{
    if zero { Ok(()) } else { push(out, "no zero\n") }
}

/// Appends words, a name and words.
fn push_between(out: &mut String, before: &str, name: &str, after: &str) -> Result<(), Gap>
    ensures { OnOk result (string_bytes out.new
        ≡ string_bytes out.old ++ (before.now ++ (name.now ++ after.now))) }
{
    push(out, before)?;
    push(out, name)?;
    push(out, after)?;
    Ok(())
}

/// Appends the line that the datum of that name doesn't overflow.
fn push_no_overflow(out: &mut String, name: &str) -> Result<(), Gap>
    ensures { OnOk result (string_bytes out.new
        ≡ string_bytes out.old ++ (codes "no overflow " ++ (name.now ++ codes "\n"))) }
{
    push_between(out, "no overflow ", name, "\n")
}

/// Appends the line that a datum whose mode is `error` doesn't overflow, where it may not.
fn push_over(out: &mut String, var: &Var, over: bool) -> Result<(), Gap>
    ensures { OnOk result (string_bytes out.new
        ≡ string_bytes out.old ++ spec.over_line var.now.mode var.now.name over) }
{
    match var.mode {
        Mode::Saturate => Ok(()),
        Mode::Wrap => Ok(()),
        Mode::Error => if over {
            Ok(())
        } else {
            push_no_overflow(out, var.name.text())
        },
    }
}

/// Whether a datum may overflow.
fn may_overflow(over: &[bool], number: usize) -> bool
    ensures { result ≡ spec.over_of over.now number }
{
    match over.get(number) {
        None => false,
        Some(over) => *over,
    }
}

/// Appends the lines of the data that don't overflow.
fn push_overs(out: &mut String, vars: &[Var], over: &[bool]) -> Result<(), Gap>
    ensures { OnOk result (string_bytes out.new
        ≡ string_bytes out.old ++ spec.overs_text (spec.over_of over.now) 0 vars.now) }
{
    for (number, var) in vars.iter().enumerate() {
        push_over(out, var, may_overflow(over, number))?;
    }
    Ok(())
}

/// The lines by a certificate of a chart that declares these names. Gaps: `Memory`, and `Unknown`
/// where a datum has no span, or one whose ends are too great to be spelled.
pub(crate) fn ranges_text(alloc: Global, names: &Names, cert: &Certificate) -> Result<String, Gap>
    ensures { IfOk result (λ text.
        string_bytes text ≡ spec.ranges_text (names_of names.now) cert.now) }
{
    let vars = names.vars.items();
    let mut out = String::new(alloc);
    push_spans(&mut out, vars, &cert.always)?;
    push_zero(&mut out, cert.zero)?;
    push_overs(&mut out, vars, &cert.over)?;
    Ok(out)
}
