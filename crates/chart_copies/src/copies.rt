//! Equal names, destinations and expressions, at the same places. An error only where memory was
//! refused.
ghost use Rattle.std.specs.Prelude.{◌≡◌, IfOk};
ghost use Rattle.chart_tree.specs.Views.{path_of, expr_of, dest_of};

use chart_tree::{DestText, ExprText, NameText, PathText};
use flow_base::List;
use std::alloc::{AllocError, Global};

/// An equal name.
pub fn copy_name(alloc: Global, name: &NameText) -> Result<NameText, AllocError>
    ensures { IfOk result (λ copy. copy ≡ name.now) }
{
    Ok(NameText {
        text: name.text.copied(alloc)?,
        at: name.at,
    })
}

/// Equal names.
fn copy_names(alloc: Global, names: &[NameText]) -> Result<Vec<NameText>, AllocError>
    ensures { IfOk result (λ copies. copies.items ≡ names.now) }
{
    let mut copies = Vec::new(alloc);
    for name in names {
        copies.push(copy_name(alloc, name)?)?;
    }
    Ok(copies)
}

/// An equal path.
pub fn copy_path(alloc: Global, path: &PathText) -> Result<PathText, AllocError>
    ensures { IfOk result (λ copy. path_of copy ≡ path_of path.now) }
{
    Ok(PathText {
        names: List::of(copy_names(alloc, path.names.items())?),
    })
}

/// An equal destination.
pub fn copy_dest(alloc: Global, dest: &DestText) -> Result<DestText, AllocError>
    ensures { IfOk result (λ copy. dest_of copy ≡ dest_of dest.now) }
{
    match dest {
        DestText::State(path) => Ok(DestText::State(copy_path(alloc, path)?)),
        DestText::Junction(name) => Ok(DestText::Junction(copy_name(alloc, name)?)),
    }
}

/// An equal expression.
pub fn copy_expr(alloc: Global, expr: &ExprText) -> Result<ExprText, AllocError>
    ensures { IfOk result (λ copy. expr_of copy ≡ expr_of expr.now) }
{
    match expr {
        ExprText::Lit(lit, at) => Ok(ExprText::Lit(*lit, *at)),
        ExprText::Flag(value, at) => Ok(ExprText::Flag(*value, *at)),
        ExprText::Name(name) => Ok(ExprText::Name(copy_name(alloc, name)?)),
        ExprText::Active(path, at) => Ok(ExprText::Active(copy_path(alloc, path)?, *at)),
        ExprText::Unary(word, operand, at) => {
            let copy = Box::new(alloc, copy_expr(alloc, operand)?)?;
            Ok(ExprText::Unary(*word, copy, *at))
        }
        ExprText::Binary(word, left, right, at) => {
            let left_copy = Box::new(alloc, copy_expr(alloc, left)?)?;
            let right_copy = Box::new(alloc, copy_expr(alloc, right)?)?;
            Ok(ExprText::Binary(*word, left_copy, right_copy, *at))
        }
    }
}
