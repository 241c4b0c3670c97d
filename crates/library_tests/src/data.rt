//! Tests of what no contract says: that calls succeed, and some values by hand.
ghost use Rattle.std.specs.Prelude.{◌≡◌, ◌<◌, ◌≤◌, ◌^◌, unsigned_abs, length, IfOk, IfSome, IsTrue};
ghost use Rattle.fixed_point.specs.Scales.{is_in_range};
ghost use Rattle.actions.specs.declared.names.Sort.{Sort};
ghost use Rattle.actions.specs.Data.{is_mantissa_of, HasInits, CanTake, IsValueAt};
ghost use Rattle.actions.specs.Names.{names_of};

use crate::checks::check;
use actions::{Names, Sort, Vals, Value, Var, VarKind, assign, assignments_keep_declarations};
use fixed_point::{Mode, Num, Scale, fit};
use flow_base::{Fault, List, Memory, Text};
use std::alloc::Global;
use std::process::Abort;

/// No mantissa in these tests is farther from 0.
const FARTHEST: u128 = 1 << 66;

/// Whether a number is small enough for every scale.
fn is_small(number: Num) -> bool
    ensures { IsTrue result → unsigned_abs number.mantissa ≤ 2 ^ 66 }
{
    number.mantissa.unsigned_abs() <= FARTHEST
}

/// The number brought to the scale. None where it is out of range, or isn't small.
fn fitted(number: Num, scale: Scale) -> Option<i128>
    ensures { IfSome result (λ mantissa. IsTrue (is_in_range scale mantissa)) }
{
    if !is_small(number) {
        return None;
    }
    fit(number, scale, Mode::Error).ok()
}

/// Whether a mantissa is one of the sort.
fn is_mantissa(sort: Sort, mantissa: i128) -> bool
    ensures { IsTrue result → IsTrue (is_mantissa_of sort mantissa) }
{
    match sort {
        Sort::Flag => mantissa == 0 || mantissa == 1,
        Sort::Number(scale) => {
            let frac = u32::from(scale.frac);
            match fitted(Num { mantissa, frac }, scale) {
                Some(kept) => kept == mantissa,
                None => false,
            }
        }
    }
}

/// Declares data of these sorts and modes with these first mantissas, each one of its sort.
pub(crate) fn declare(alloc: Global, rows: &[(Sort, Mode, i128)]) -> Result<Names, Memory>
    ensures inits { IfOk result (λ names. HasInits (names_of names)) }
    ensures count { IfOk result (λ names. length (names_of names).vars ≡ length rows.now) }
{
    let mut vars = List::of(Vec::new(alloc));
    for (sort, mode, init) in rows {
        if !is_mantissa(*sort, *init) {
            return Err(Memory);
        }
        vars.push(Var {
            name: Text::of(String::new(alloc)),
            kind: VarKind::Local,
            sort: *sort,
            mode: *mode,
            init: *init,
        })?;
    }
    Ok(Names {
        states: List::of(Vec::new(alloc)),
        vars,
        events: List::of(Vec::new(alloc)),
    })
}

/// Data of these sorts and modes with these first mantissas, each one of its sort.
fn first_values(alloc: Global, rows: &[(Sort, Mode, i128)]) -> Result<Vals, Memory>
    ensures { IfOk result (λ vals. length vals ≡ length rows.now) }
{
    Vals::make(alloc, &declare(alloc, rows)?)
}

/// Whether a datum that has one value can take another.
fn can_take(was: Value, value: Value) -> bool
    ensures { IsTrue result → (sort : Sort) → IsValueAt sort was → CanTake sort value }
{
    match (was, value) {
        (Value::Flag(_), Value::Flag(_)) => true,
        (Value::Number(_), Value::Number(number)) => is_small(number),
        (Value::Flag(_), Value::Number(_)) | (Value::Number(_), Value::Flag(_)) => false,
    }
}

/// Gives a datum a value. None where it can't take the value.
fn give(vals: &mut Vals, v: u32, value: Value) -> Option<Result<(), Fault>>
    requires { v < length vals.old }
    ensures { length vals.new ≡ length vals.old }
{
    assignments_keep_declarations();
    if !can_take(vals.get(v), value) {
        return None;
    }
    Some(assign(vals, v, value))
}

/// The sort of the scale of these parts.
pub(crate) fn number_sort(rt: &impl Abort, signed: bool, width: u8, frac: u8) -> Sort {
    Sort::Number(Scale::make(signed, width, frac).expect(rt, "a scale"))
}

/// The value of that mantissa and fraction.
fn number(mantissa: i128, frac: u32) -> Value {
    Value::Number(Num { mantissa, frac })
}

/// Asserts how an assignment to a datum ends that has the value 1, and what the datum is then.
fn check_given(
    rt: &(impl AllocGlobal + Abort),
    (sort, mode): (Sort, Mode),
    value: Value,
    (answer, after): (Result<(), Fault>, Value),
) {
    let vals = first_values(rt.alloc(), &[(sort, mode, 1)]);
    let mut vals = vals.expect(rt, "memory");
    let end = give(&mut vals, 0, value);
    check(
        rt,
        &(value, mode),
        &(end, vals.get(0)),
        &(Some(answer), after),
    );
    drop(vals);
}

/// Whether a scale of whole numbers has a sign, its width, the mantissa in range, the one beside
/// it, and what wrapping makes of that one.
const ENDS: &[(bool, u8, i128, i128, i128)] = &[
    (true, 8, -128, -129, 127),
    (true, 8, 127, 128, -128),
    (false, 8, 0, -1, 255),
    (false, 8, 255, 256, 0),
    (false, 8, 255, 260, 4),
    (
        true,
        64,
        -0x8000_0000_0000_0000,
        -0x8000_0000_0000_0001,
        0x7fff_ffff_ffff_ffff,
    ),
    (
        true,
        64,
        0x7fff_ffff_ffff_ffff,
        0x8000_0000_0000_0000,
        -0x8000_0000_0000_0000,
    ),
    (false, 64, 0, -1, 0xffff_ffff_ffff_ffff),
    (false, 64, 0xffff_ffff_ffff_ffff, 0x1_0000_0000_0000_0000, 0),
];

/// The modes.
const MODES: &[Mode] = &[Mode::Saturate, Mode::Wrap, Mode::Error];

#[test]
fn a_mode_decides_out_of_range(rt: HostRuntime) {
    for (signed, width, end, beyond, wrapped) in ENDS {
        let sort = number_sort(&rt, *signed, *width, 0);
        let (end, beyond) = (number(*end, 0), number(*beyond, 0));
        let wrapped = number(*wrapped, 0);
        for &mode in MODES {
            check_given(&rt, (sort, mode), end, (Ok(()), end));
            let want = match mode {
                Mode::Saturate => (Ok(()), end),
                Mode::Wrap => (Ok(()), wrapped),
                Mode::Error => (Err(Fault::Overflow(0)), number(1, 0)),
            };
            check_given(&rt, (sort, mode), beyond, want);
        }
    }
}

/// The parts of a scale, and the mantissas and fractions of what is assigned to a datum of that
/// scale and of what the datum is then.
const SCALED: &[((bool, u8, u8), (i128, u32), (i128, u32))] = &[
    ((true, 8, 0), (-1, 1), (-1, 0)),
    ((true, 8, 0), (3, 1), (1, 0)),
    ((false, 8, 0), (260, 0), (4, 0)),
    ((true, 16, 8), (-3, 1), (-384, 8)),
    ((true, 16, 8), (-1, 9), (-1, 8)),
];

#[test]
fn a_number_comes_to_its_scale(rt: HostRuntime) {
    for ((signed, width, frac), value, after) in SCALED {
        let sort = number_sort(&rt, *signed, *width, *frac);
        let value = number(value.0, value.1);
        let after = number(after.0, after.1);
        check_given(&rt, (sort, Mode::Wrap), value, (Ok(()), after));
    }
    for is in [true, false] {
        let flag = Value::Flag(is);
        check_given(&rt, (Sort::Flag, Mode::Wrap), flag, (Ok(()), flag));
    }
}

/// The values of three data.
fn three(vals: &Vals) -> (Value, Value, Value)
    requires { 2 < length vals.now }
{
    (vals.get(0), vals.get(1), vals.get(2))
}

/// A flag, a number with 8 bits of fraction and a whole number.
fn wanted_three(mantissa: i128) -> (Value, Value, Value) {
    (Value::Flag(true), number(mantissa, 8), number(7, 0))
}

#[test]
fn data_have_their_first_values(rt: HostRuntime) {
    let rows = [
        (Sort::Flag, Mode::Saturate, 1),
        (number_sort(&rt, true, 16, 8), Mode::Wrap, -384),
        (number_sort(&rt, false, 8, 0), Mode::Error, 7),
    ];
    let mut vals = first_values(rt.alloc(), &rows).expect(&rt, "memory");
    check(&rt, &"at first", &three(&vals), &wanted_three(-384));
    let end = give(&mut vals, 1, number(5, 2));
    let found = (end, three(&vals));
    check(
        &rt,
        &"afterwards",
        &found,
        &(Some(Ok(())), wanted_three(320)),
    );
    drop(vals);
}
