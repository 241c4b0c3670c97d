//! Numbers modulo a power of two.
ghost use Rattle.std.specs.Prelude.{◌≡◌, ◌-◌, ◌≤◌, ◌^◌, pos, IfOk};
ghost use Rattle.c_subset.specs.Lines.{expr_of};
ghost use Rattle.c_subset.specs.Trees as c;
ghost use Rattle.c_functions.specs.Storing as spec;

use c_shape::both_made;
use c_subset::{Arithmetic, Bitwise, CExpr, CType, Comparison, Width};
use fixed_point::{Scale, power_of_two};
use flow_base::Memory;
use std::alloc::Global;

/// A word of 64 bits.
const WORD: CType = CType::Unsigned(Width::W64);

/// A number of 64 bits with a sign.
const SIGNED_WORD: CType = CType::Signed(Width::W64);

/// A word with so many low bits set.
fn mask(bits: u32) -> CExpr
    requires { bits ≤ 64 }
    ensures { expr_of result ≡ c.Const (CType.Unsigned Width.W64) (pos (2 ^ bits - 1)) }
{
    let set = power_of_two(bits) - 1;
    CExpr::Const(WORD, set)
}

/// The low bits of a number, as many as the scale has.
pub(crate) fn low_bits(alloc: Global, scale: Scale, number: CExpr) -> Result<CExpr, Memory>
    ensures { IfOk result (λ made. expr_of made ≡ spec.low_bits_c scale (expr_of number)) }
{
    let word = CExpr::cast(alloc, WORD, number)?;
    CExpr::bits(alloc, Bitwise::BitAnd, word, mask(u32::from(scale.width)))
}

/// What the mask is more than the low bits that a local has.
pub(crate) fn rest_of(alloc: Global, scale: Scale, low: u32) -> Result<CExpr, Memory>
    ensures { IfOk result (λ made. expr_of made
        ≡ spec.rest_c scale (c.Local (CType.Unsigned Width.W64) low)) }
{
    let mask = mask(u32::from(scale.width));
    CExpr::calc(alloc, Arithmetic::Less, mask, CExpr::Local(WORD, low))
}

/// The number below 0 whose low bits are so much less than the mask as a local has.
fn negative(alloc: Global, rest: u32) -> Result<CExpr, Memory>
    ensures { IfOk result (λ made. expr_of made
        ≡ c.Calc Arithmetic.Less (c.Minus (c.Cast (CType.Signed Width.W64)
        (c.Local (CType.Unsigned Width.W64) rest)))
        (c.Const (CType.Signed Width.W64) (pos 1))) }
{
    let cast = CExpr::cast(alloc, SIGNED_WORD, CExpr::Local(WORD, rest))?;
    let minus = CExpr::minus(alloc, cast)?;
    CExpr::calc(alloc, Arithmetic::Less, minus, CExpr::Const(SIGNED_WORD, 1))
}

/// The number of a signed scale that has the low bits of a local, where another one has what the
/// mask is more: from the half on it is below 0.
pub(crate) fn signed(alloc: Global, scale: Scale, low: u32, rest: u32) -> Result<CExpr, Memory>
    ensures { IfOk result (λ made. expr_of made
        ≡ spec.signed_c scale (c.Local (CType.Unsigned Width.W64) low)
        (c.Local (CType.Unsigned Width.W64) rest)) }
{
    let half = mask(u32::from(scale.width) - 1);
    let test = CExpr::compare(alloc, Comparison::IsAtMost, CExpr::Local(WORD, low), half)?;
    let same = CExpr::cast(alloc, SIGNED_WORD, CExpr::Local(WORD, low));
    match both_made(same, negative(alloc, rest)) {
        Ok((same, negative)) => CExpr::choose(alloc, SIGNED_WORD, test, same, negative),
        Err(Memory) => {
            drop(test);
            Err(Memory)
        }
    }
}
