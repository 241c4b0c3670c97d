//! What a token gives to an input.
ghost use Rattle.std.specs.Prelude.{◌≡◌, ◌<◌, length, IfSome};
ghost use Rattle.std.specs.List.{position, list_any};
ghost use Rattle.std.specs.Str.{bytes_eq};
ghost use Rattle.std.specs.Prelude.{nat_eq};
ghost use Rattle.actions.specs.Data.{IsValueOf, value_at};
ghost use Rattle.actions.specs.Names.{names_of};
ghost use Rattle.actions.specs.declared.names.Var.{Var as VarShown};
ghost use Rattle.event_file.specs.InputValues as spec;
ghost use Rattle.event_file.specs.LineParts as parts;
ghost use Rattle.event_file.specs.LineValues.{IsMadeFor};
ghost use Rattle.actions.specs.Runs.{AreInputValues};

use crate::fault::LineFault;
use crate::input_vals::InputVals;
use crate::limits::FEW_NAMES;
use crate::short_numbers::{short_mantissa, short_value, split_sign};
use actions::{Names, Sort, Value, Var, VarKind};
use fixed_point::{Num, Scale, exact, read_decimal};

/// Keeps the value that a token `NAME=VALUE` gives an input.
#[inline(never)]
pub(crate) fn give(names: &Names, token: &[u8], vals: &mut InputVals) -> Result<(), LineFault>
    requires made { IsMadeFor (names_of names.now) vals.old }
    ensures gave { parts.Gave (names_of names.now) vals.old.values token.now vals.new.values result }
    ensures made { IsMadeFor (names_of names.now) vals.new }
    ensures values { AreInputValues (names_of names.now) 0 vals.old.values
        → AreInputValues (names_of names.now) 0 vals.new.values }
{
    let Some(sign) = first_sign(token) else {
        return Err(LineFault::UnknownInput);
    };
    let Some(place) = place_of_var(names, vals, &token[..sign]) else {
        return Err(LineFault::UnknownInput);
    };
    let vars = names.vars.items();
    let var = &vars[place];
    if !is_input(var.kind) {
        return Err(LineFault::UnknownInput);
    }
    if vals.is_named(place) {
        return Err(LineFault::InputTwice);
    }
    give_text(var.sort, &token[sign + 1..], place, vals)
}

/// Keeps the value of a sort that a text spells, for the datum of that number.
fn give_text(sort: Sort, text: &[u8], place: usize, vals: &mut InputVals) -> Result<(), LineFault>
    requires place { place < length vals.old.values }
    ensures kept { parts.Kept vals.old (spec.value_of_text sort text.now) place vals.new result }
    ensures sort { IfSome (spec.value_of_text sort text.now) (IsValueOf sort) }
{
    match sort {
        Sort::Flag => keep_value(flag_value(text), place, vals),
        Sort::Number(scale) => keep_value(number_value(scale, text), place, vals),
    }
}

/// Keeps a value, if there is one, for the datum of that number.
fn keep_value(value: Option<Value>, place: usize, vals: &mut InputVals) -> Result<(), LineFault>
    requires { place < length vals.old.values }
    ensures { parts.Kept vals.old value place vals.new result }
{
    match value {
        Some(value) => {
            vals.keep(place, value);
            Ok(())
        }
        None => Err(LineFault::BadValue),
    }
}

/// Whether a datum is an input.
fn is_input(kind: VarKind) -> bool
    ensures { result ≡ spec.is_input kind }
{
    match kind {
        VarKind::Input => true,
        VarKind::Output | VarKind::Local => false,
    }
}

/// The place of the first `=`.
fn first_sign(token: &[u8]) -> Option<usize>
    ensures place { result ≡ position (λ b. nat_eq b 61) token.now }
    ensures within { IfSome result (λ n. n < length token.now) }
{
    token.iter().position(|byte| *byte == b'=')
}

/// The place of the first datum of that name.
fn place_of_var(names: &Names, vals: &InputVals, name: &[u8]) -> Option<usize>
    requires made { IsMadeFor (names_of names.now) vals.now }
    ensures place { result ≡ position (λ (v : VarShown). bytes_eq v.name name.now) (names_of names.now).vars }
    ensures within { IfSome result (λ n. n < length (names_of names.now).vars) }
{
    let vars = names.vars.items();
    if vars.len() > FEW_NAMES {
        return vals.datum_number(name);
    }
    first_var(vars, name)
}

/// The place of the first datum of that name, by one after the other.
fn first_var(vars: &[Var], name: &[u8]) -> Option<usize>
    ensures { result ≡ position (λ (v : VarShown). bytes_eq v.name name.now) vars.now }
{
    vars.iter().position(|var| is_var(var, name))
}

/// Whether a datum has that name.
fn is_var(var: &Var, name: &[u8]) -> bool
    ensures { result ≡ bytes_eq var.now.name name.now }
{
    var.name.text().as_bytes() == name
}

/// The flag that a text spells.
fn flag_value(text: &[u8]) -> Option<Value>
    ensures value { result ≡ spec.flag_value text.now }
    ensures sort { IfSome result (IsValueOf Sort.Flag) }
{
    if text == b"true".as_slice() {
        return Some(Value::Flag(true));
    }
    if text == b"false".as_slice() {
        return Some(Value::Flag(false));
    }
    None
}

/// Whether a text has a `q`.
fn has_q(text: &[u8]) -> bool
    ensures { result ≡ list_any (λ b. nat_eq b 113) text.now }
{
    text.iter().any(|byte| *byte == b'q')
}

/// The value of a scale that equals the number of a decimal text.
fn number_value(scale: Scale, text: &[u8]) -> Option<Value>
    ensures value { result ≡ spec.number_value scale text.now }
    ensures sort { IfSome result (IsValueOf (Sort.Number scale)) }
{
    match mantissa_of_text(scale, text) {
        Some(mantissa) => Some(number_at(scale, mantissa)),
        None => None,
    }
}

/// The mantissa of that value.
fn mantissa_of_text(scale: Scale, text: &[u8]) -> Option<i128>
    ensures { result ≡ spec.mantissa_of_text scale text.now }
{
    let (negative, digits) = split_sign(text);
    match short_value(digits) {
        Some(magnitude) => short_mantissa(scale, negative, magnitude),
        None => mantissa_of_decimal(scale, text),
    }
}

/// The same, of any decimal text.
#[inline(never)]
fn mantissa_of_decimal(scale: Scale, text: &[u8]) -> Option<i128>
    ensures { result ≡ spec.mantissa_of_text scale text.now }
{
    if has_q(text) {
        return None;
    }
    match read_decimal(text) {
        Err(_) => None,
        Ok(number) => exact(number, scale),
    }
}

/// The value that a mantissa of a scale stands for.
fn number_at(scale: Scale, mantissa: i128) -> Value
    ensures { result ≡ value_at (Sort.Number scale) mantissa }
{
    Value::Number(Num {
        mantissa,
        frac: u32::from(scale.frac),
    })
}
