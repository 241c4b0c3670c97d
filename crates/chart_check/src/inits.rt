//! The first values of data.
ghost use Rattle.std.specs.Prelude.{◌≡◌, length, IfOk};
ghost use Rattle.std.specs.List.{AllByRecursion};
ghost use Rattle.flow_base.specs.Lists.{items_of};
ghost use Rattle.actions.specs.Data.{mantissa_in};
ghost use Rattle.resolved_tree.specs.Plain as plain;
ghost use Rattle.resolved_tree.specs.Promise.{IsInit};

use actions::{Sort, Var};
use chart_tree::InitText;
use chart_types::signed_literal;
use fixed_point::exact;
use flow_base::List;
use std::alloc::{AllocError, Global};

/// The mantissa of the first value of a datum of that sort, and 0 where the sort has no such value.
fn init_mantissa(sort: Sort, init: InitText) -> i128
    requires { IsInit init }
    ensures { result ≡ plain.mantissa_or_zero (mantissa_in sort (plain.init_value init)) }
{
    match (sort, init) {
        (Sort::Flag, InitText::Flag { value, .. }) => i128::from(value),
        (Sort::Number(scale), InitText::Number { negative, lit, .. }) => {
            match exact(signed_literal(negative, lit), scale) {
                Some(mantissa) => mantissa,
                None => 0,
            }
        }
        (Sort::Flag, InitText::Number { .. }) => 0,
        (Sort::Number(_), InitText::Flag { .. }) => 0,
    }
}

/// A datum with its first value.
fn with_init(alloc: Global, var: &Var, init: InitText) -> Result<Var, AllocError>
    requires { IsInit init }
    ensures { IfOk result (λ made. made ≡ plain.with_init var.now init) }
{
    Ok(Var {
        name: var.name.copied(alloc)?,
        kind: var.kind,
        sort: var.sort,
        mode: var.mode,
        init: init_mantissa(var.sort, init),
    })
}

/// Data with their first values.
pub fn with_inits(alloc: Global, vars: &[Var], inits: &[InitText]) -> Result<List<Var>, AllocError>
    requires sized { length inits.now ≡ length vars.now }
    requires inits { AllByRecursion IsInit inits.now }
    ensures { IfOk result (λ made. items_of made ≡ plain.with_inits vars.now inits.now) }
{
    let mut made = Vec::new(alloc);
    for (v, var) in vars.iter().enumerate() {
        made.push(with_init(alloc, var, inits[v])?)?;
    }
    Ok(List::of(made))
}
