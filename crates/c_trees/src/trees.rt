//! Statements as trees.
use c_subset::{CExpr, CType, Case};
use flow_base::List;

/// Statements, each with those after it.
#[derive(Drop)]
pub enum Tree {
    /// None.
    End,
    /// `x = e;`
    Set(CType, u32, CExpr, Box<Tree>),
    /// `m->f = e;`
    Store(u32, CExpr, Box<Tree>),
    /// `m->a[i] = e;`
    StoreAt(u32, CExpr, CExpr, Box<Tree>),
    /// `x = f(m, e, ..);`
    Call(CType, u32, u32, List<CExpr>, Box<Tree>),
    /// `switch (e) { case C: x = f(m, e, ..); break; .. default: break; }`
    Select(CType, u32, CExpr, List<Case>, List<CExpr>, Box<Tree>),
    /// `if (e) { .. } else { .. }`
    If(CExpr, Box<Tree>, Box<Tree>, Box<Tree>),
    /// `while (e) { .. }`
    While(CExpr, Box<Tree>, Box<Tree>),
    /// `return e;`
    Return(CExpr),
}
