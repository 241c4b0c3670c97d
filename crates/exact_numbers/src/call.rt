//! The calls of a table.

use fixed_point::{Mode, Num, Scale};
use std::str::SplitWhitespace;

/// A call with its arguments. A number is written as its mantissa and its fraction, and a scale as
/// `s8.0` or `u8.4`: its sign, its width and its fraction.
#[derive(Clone, Copy)]
pub enum Call {
    /// `add M F M F`
    Add(Num, Num),
    /// `sub M F M F`
    Sub(Num, Num),
    /// `mul M F M F`
    Mul(Num, Num),
    /// `div M F M F`
    Div(Num, Num),
    /// `compare M F M F`
    Compare(Num, Num),
    /// `neg M F`
    Neg(Num),
    /// `fit M F SCALE MODE`, with the mode `saturate`, `wrap` or `error`
    Fit(Num, Scale, Mode),
    /// `exact M F SCALE`
    Exact(Num, Scale),
    /// `write M F`
    Write(Num),
    /// `scale SIGN WIDTH FRAC`, with the sign `s` or `u`
    Make(bool, u8, u8),
}

/// The call of that name with the words as its arguments, if it is one.
pub fn read_call(name: &str, arguments: &str) -> Option<Call> {
    let mut words = arguments.split_whitespace();
    let call = next_call(name, &mut words)?;
    if words.next().is_some() {
        return None;
    }
    Some(call)
}

/// The call of that name, whose arguments are the next words.
fn next_call(name: &str, words: &mut SplitWhitespace<'_>) -> Option<Call> {
    match name {
        "add" => next_pair(words).map(|(a, b)| Call::Add(a, b)),
        "sub" => next_pair(words).map(|(a, b)| Call::Sub(a, b)),
        "mul" => next_pair(words).map(|(a, b)| Call::Mul(a, b)),
        "div" => next_pair(words).map(|(a, b)| Call::Div(a, b)),
        "compare" => next_pair(words).map(|(a, b)| Call::Compare(a, b)),
        "neg" => next_num(words).map(Call::Neg),
        "fit" => next_fit(words),
        "exact" => next_exact(words),
        "write" => next_num(words).map(Call::Write),
        "scale" => next_scale(words),
        _ => None,
    }
}

/// The two numbers that are the next words.
fn next_pair(words: &mut SplitWhitespace<'_>) -> Option<(Num, Num)> {
    let first = next_num(words)?;
    Some((first, next_num(words)?))
}

/// The call `fit`, whose arguments are the next words.
fn next_fit(words: &mut SplitWhitespace<'_>) -> Option<Call> {
    let number = next_num(words)?;
    let scale = read_scale(words.next()?)?;
    Some(Call::Fit(number, scale, read_mode(words.next()?)?))
}

/// The call `exact`, whose arguments are the next words.
fn next_exact(words: &mut SplitWhitespace<'_>) -> Option<Call> {
    let number = next_num(words)?;
    Some(Call::Exact(number, read_scale(words.next()?)?))
}

/// The call `scale`, whose arguments are the next words.
fn next_scale(words: &mut SplitWhitespace<'_>) -> Option<Call> {
    let signed = read_sign(words.next()?)?;
    let width = words.next()?.parse().ok()?;
    Some(Call::Make(signed, width, words.next()?.parse().ok()?))
}

/// The number whose mantissa and fraction are the next words.
fn next_num(words: &mut SplitWhitespace<'_>) -> Option<Num> {
    Some(Num {
        mantissa: words.next()?.parse().ok()?,
        frac: words.next()?.parse().ok()?,
    })
}

/// Whether there is a sign.
fn read_sign(word: &str) -> Option<bool> {
    match word {
        "s" => Some(true),
        "u" => Some(false),
        _ => None,
    }
}

fn read_scale(word: &str) -> Option<Scale> {
    let signed = word.starts_with('s');
    let parts = word.strip_prefix(if signed { 's' } else { 'u' })?;
    let (width, frac) = parts.split_once('.')?;
    Scale::make(signed, width.parse().ok()?, frac.parse().ok()?)
}

fn read_mode(word: &str) -> Option<Mode> {
    match word {
        "saturate" => Some(Mode::Saturate),
        "wrap" => Some(Mode::Wrap),
        "error" => Some(Mode::Error),
        _ => None,
    }
}
