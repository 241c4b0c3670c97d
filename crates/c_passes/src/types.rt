//! The types of the fields of the struct.
ghost use Rattle.std.specs.Prelude.{◌≡◌, ◌++◌, IfOk, OnOk, map, replicate};
ghost use Rattle.actions.specs.declared.names.Var.{Var};
ghost use Rattle.c_functions.specs.Claims as claims;
ghost use Rattle.c_shape.specs.FileShapes.{shape_seen};
ghost use Rattle.c_passes.specs.Fields.{struct_types};

use actions::Var;
use c_functions::{WORD, field_type};
use c_shape::FileShape;
use c_subset::{CType, Width};
use flow_base::Memory;
use std::alloc::Global;

/// The type of the field of a datum.
fn type_of(var: &Var) -> CType
    ensures { result ≡ claims.field_type var.now.sort }
{
    field_type(var.sort)
}

/// The types of the fields of data.
fn data_types(alloc: Global, vars: &[Var]) -> Result<Vec<CType>, Memory>
    ensures { IfOk result (λ types.
        types.items ≡ map (λ (v : Var). claims.field_type v.sort) vars.now) }
{
    Ok(vars.iter().map(type_of).collect(alloc)?)
}

/// Appends the type of so many fields that have the same one.
fn put_types(types: &mut Vec<CType>, kind: CType, count: u32) -> Result<(), Memory>
    ensures { OnOk result (types.new.items ≡ types.old.items ++ replicate count kind) }
{
    for _ in 0..count {
        types.push(kind)?;
    }
    Ok(())
}

/// The types of the fields: those of data, six counters and marks of the run, the numbers of active
/// and of remembered children, and words of flags.
pub fn field_types(alloc: Global, shape: &FileShape<'_>) -> Result<Vec<CType>, Memory>
    ensures { IfOk result (λ types. types.items ≡ struct_types (shape_seen shape.now)) }
{
    let ors = shape.ors();
    let states = shape.tree.len();
    let mut types = data_types(alloc, shape.names.vars.items())?;
    put_types(&mut types, WORD, 6)?;
    put_types(&mut types, CType::Unsigned(Width::W16), ors + ors)?;
    put_types(&mut types, WORD, (states + 31) / 32)?;
    Ok(types)
}
