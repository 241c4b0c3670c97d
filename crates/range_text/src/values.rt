//! Values, spelled as in a trace.
ghost use Rattle.std.specs.Prelude.{◌≡◌, ◌≤◌, ◌++◌, string_bytes, OnOk};
ghost use Rattle.fixed_point.specs.Text.{decimal_text};
ghost use Rattle.fixed_point.specs.declared.num.TheConstants.{FRACTION_LIMIT};
ghost use Rattle.actions.specs.Data.{value_at};
ghost use Rattle.trace_text.specs.Trace.{value_text};

use actions::Sort;
use fixed_point::{DECIMAL_TEXT_LIMIT, MAGNITUDE_LIMIT, write_decimal};
use range_spans::Gap;
use std::str;

/// Appends words. The only gap is `Memory`.
pub(crate) fn push(out: &mut String, words: &str) -> Result<(), Gap>
    ensures { OnOk result (string_bytes out.new ≡ string_bytes out.old ++ words.now) }
{
    match out.push_str(words) {
        Ok(()) => Ok(()),
        Err(_) => Err(Gap::Memory),
    }
}

/// Appends the shortest exact decimal text of a number. `Unknown` where its magnitude is over
/// `MAGNITUDE_LIMIT`, which no datum's is.
fn push_number(out: &mut String, mantissa: i128, frac: u32) -> Result<(), Gap>
    requires { frac ≤ FRACTION_LIMIT }
    ensures { OnOk result
        (string_bytes out.new ≡ string_bytes out.old ++ decimal_text mantissa frac) }
{
    if mantissa.unsigned_abs() > MAGNITUDE_LIMIT {
        return Err(Gap::Unknown);
    }
    let mut buf = [0; DECIMAL_TEXT_LIMIT];
    let len = write_decimal(mantissa, frac, &mut buf);
    match str::from_utf8(&buf[..len]) {
        Ok(text) => push(out, text),
        Err(_) => Err(Gap::Unknown),
    }
}

/// Appends a value of a sort.
pub(crate) fn push_value(out: &mut String, sort: Sort, mantissa: i128) -> Result<(), Gap>
    ensures { OnOk result
        (string_bytes out.new ≡ string_bytes out.old ++ value_text (value_at sort mantissa)) }
{
    match sort {
        Sort::Flag => push(out, if 0 < mantissa { "true" } else { "false" }),
        Sort::Number(scale) => push_number(out, mantissa, u32::from(scale.frac)),
    }
}
