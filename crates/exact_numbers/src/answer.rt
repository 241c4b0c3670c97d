//! The answers to the calls of a table.

use crate::call::{Call, read_call};
use crate::conditions::{can_align, can_divide, can_fit, can_multiply, can_write, is_within};
use fixed_point::{
    DECIMAL_TEXT_LIMIT, Num, NumFault, Overflow, Scale, Zero, add, compare, div, exact, fit, mul,
    neg, read_decimal, sub, write_decimal,
};
use std::cmp::Ordering;
use std::fmt;

/// What a line answers.
#[derive(Clone, Copy)]
pub enum LineAnswer {
    /// A number: its mantissa and its fraction.
    Number(Num),
    /// A mantissa of a scale.
    Mantissa(i128),
    /// The order of two numbers.
    Order(Ordering),
    /// The decimal text, and the number of its bytes.
    Text([u8; DECIMAL_TEXT_LIMIT], usize),
    /// A scale, as `s8.0` or `u8.4`.
    Made(Scale),
    /// The divisor is 0.
    Zero,
    /// The mantissa is out of range, and the mode is `error`.
    Overflow,
    /// There is no such value.
    Nothing,
    /// Why a text gives no number.
    Fault(NumFault),
    /// The conditions of the call don't hold.
    OutOfConditions,
    /// The line is no call.
    NotACall,
}

impl fmt::Display for LineAnswer {
    fn fmt<W: fmt::Write>(&self, f: &mut fmt::Formatter<W>) -> fmt::Result {
        match self {
            LineAnswer::Number(Num { mantissa, frac }) => write!(f, "{mantissa} {frac}"),
            LineAnswer::Mantissa(mantissa) => write!(f, "{mantissa}"),
            LineAnswer::Order(order) => write!(f, "{order:?}"),
            LineAnswer::Text(buf, len) => write_text(f, buf, *len),
            LineAnswer::Made(scale) => write_scale(f, *scale),
            LineAnswer::Zero => f.write_str("Zero"),
            LineAnswer::Overflow => f.write_str("Overflow"),
            LineAnswer::Nothing => f.write_str("None"),
            LineAnswer::Fault(fault) => write!(f, "{fault:?}"),
            LineAnswer::OutOfConditions => f.write_str("out of conditions"),
            LineAnswer::NotACall => f.write_str("not a call"),
        }
    }
}

/// The first bytes of a text, and how many they are.
fn write_text<W: fmt::Write>(
    f: &mut fmt::Formatter<W>,
    buf: &[u8; DECIMAL_TEXT_LIMIT],
    len: usize,
) -> fmt::Result {
    for byte in buf.iter().take(len) {
        f.write_char(char::from(*byte))?;
    }
    write!(f, " {len}")
}

/// A scale, as it is written in a call.
fn write_scale<W: fmt::Write>(f: &mut fmt::Formatter<W>, scale: Scale) -> fmt::Result {
    let Scale {
        signed,
        width,
        frac,
        ..
    } = scale;
    let sign = if signed { 's' } else { 'u' };
    write!(f, "{sign}{width}.{frac}")
}

/// What a line answers: `read TEXT`, where the text is all after the first blank, or a call.
pub fn answer_line(line: &str) -> LineAnswer {
    let (name, rest) = line.split_once(' ').unwrap_or((line, ""));
    if name == "read" {
        return match read_decimal(rest.as_bytes()) {
            Ok(number) => LineAnswer::Number(number),
            Err(fault) => LineAnswer::Fault(fault),
        };
    }
    match read_call(name, rest) {
        Some(call) => answer_call(call),
        None => LineAnswer::NotACall,
    }
}

/// What a call answers, or that its conditions don't hold.
fn answer_call(call: Call) -> LineAnswer {
    match call {
        Call::Add(a, b) if can_align(a, b) => LineAnswer::Number(add(a, b)),
        Call::Sub(a, b) if can_align(a, b) => LineAnswer::Number(sub(a, b)),
        Call::Mul(a, b) if can_multiply(a, b) => LineAnswer::Number(mul(a, b)),
        Call::Div(a, b) if can_divide(a, b) => match div(a, b) {
            Ok(quotient) => LineAnswer::Number(quotient),
            Err(Zero) => LineAnswer::Zero,
        },
        Call::Compare(a, b) if can_align(a, b) => LineAnswer::Order(compare(a, b)),
        Call::Neg(a) if is_within(a.mantissa) => LineAnswer::Number(neg(a)),
        Call::Fit(a, to, mode) if can_fit(a, to) => match fit(a, to, mode) {
            Ok(mantissa) => LineAnswer::Mantissa(mantissa),
            Err(Overflow) => LineAnswer::Overflow,
        },
        Call::Exact(a, to) => exact(a, to).map_or(LineAnswer::Nothing, LineAnswer::Mantissa),
        Call::Write(a) if can_write(a) => {
            let mut buf = [0; DECIMAL_TEXT_LIMIT];
            let len = write_decimal(a.mantissa, a.frac, &mut buf);
            LineAnswer::Text(buf, len)
        }
        Call::Make(signed, width, frac) => {
            Scale::make(signed, width, frac).map_or(LineAnswer::Nothing, LineAnswer::Made)
        }
        Call::Add(..)
        | Call::Sub(..)
        | Call::Mul(..)
        | Call::Div(..)
        | Call::Compare(..)
        | Call::Neg(_)
        | Call::Fit(..)
        | Call::Write(_) => LineAnswer::OutOfConditions,
    }
}
