//! The numbers of literals.
ghost use Rattle.std.specs.Prelude.{◌≡◌, ◌≤◌};
ghost use Rattle.fixed_point.specs.declared.reading.TheConstants.{DIGIT_LIMIT};
ghost use Rattle.resolved_tree.specs.Plain as spec;
ghost use Rattle.resolved_tree.specs.Promise.{IsLiteral};

use chart_tree::LitText;
use fixed_point::{Num, NumFault, frac_of, number_of};

/// The number of that sign that a literal denotes, or why it denotes none.
fn number_read(negative: bool, lit: LitText) -> Result<Num, NumFault>
    requires { lit.places ≤ DIGIT_LIMIT }
    ensures { result ≡ spec.number_read negative lit }
{
    let places = u32::from(lit.places);
    let frac = frac_of(lit.q.map(u32::from), lit.units, places);
    number_of(negative, lit.units, places, frac)
}

/// The number of that sign that a literal denotes. A literal that denotes a number without a sign
/// denotes one of either sign.
#[tactic(auto, unfolding(resolved_tree::specs::Plain::signed_literal))]
pub fn signed_literal(negative: bool, lit: LitText) -> Num
    requires { IsLiteral lit }
    ensures { result ≡ spec.signed_literal negative lit }
{
    match number_read(negative, lit) {
        Ok(number) => number,
        Err(_) => unreachable!(),
    }
}
