//! The code of guards and of actions.
ghost use Rattle.std.specs.Prelude.{◌≡◌, ◌++◌, ◌∷◌, [], map, OnOk};
ghost use Rattle.actions.specs.Trees.{expr_of, stmt_of};
ghost use Rattle.code_language.specs.Code.{cond_of};
ghost use Rattle.checked_chart.specs.Views.{block_seen, trans_seen, list_seen};
ghost use Rattle.chart_code.specs.StateProcedures as templates;
ghost use Rattle.chart_code.specs.Places.{numbers};
ghost use Rattle.chart_code.specs.Keys as keys;
ghost use Rattle.chart_code.specs.Bodies.{body};
ghost use Rattle.list_compile.specs.Drafts.{Stmts, code_seen, procs_of, test_of};
ghost use Rattle.list_compile.specs.Numberings.{chart_in};

use crate::draft::{Draft, append, put, put_require, put_return};
use crate::numbering::Numbering;
use crate::results::{DONE, GUARD_FALSE, GUARD_TRUE};
use actions::{Expr, Stmt, copy_expr};
use checked_chart::Trans;
use code_language::{Cond, Instr};
use flow_base::{List, Memory};
use std::alloc::Global;

/// How long an action or a search goes on, for the state that is the home of the call.
#[derive(Clone, Copy, PartialEq, Eq)]
pub enum Lasting {
    /// While the state is active.
    On,
    /// While the state is active and no child of it is.
    Bare,
}

/// Its test.
pub(crate) fn test(lasting: Lasting) -> Cond
    ensures { cond_of result ≡ test_of lasting }
{
    match lasting {
        Lasting::On => Cond::OnHome,
        Lasting::Bare => Cond::BareHome,
    }
}

/// Appends the code of a statement. After a send the life is tested.
fn put_stmt(
    alloc: Global,
    code: &mut List<Instr>,
    numbering: &Numbering<'_>,
    lasting: Lasting,
    stmt: &Stmt,
) -> Result<(), Memory>
    ensures { OnOk result ((rest : Stmts) →
        code_seen code.new
        ++ templates.block_code (numbers (chart_in numbering.now)) (test_of lasting) rest
        ≡ code_seen code.old
        ++ templates.block_code (numbers (chart_in numbering.now)) (test_of lasting)
        (stmt_of stmt.now ∷ rest)) }
{
    match stmt {
        Stmt::Assign(variable, expr) => put(
            code,
            Instr::Assign(*variable, copy_expr(alloc, expr)?),
        ),
        Stmt::Emit(event) => put(code, Instr::Emit(*event)),
        Stmt::Send(event) => {
            put(code, Instr::Send(*event))?;
            put_require(code, test(lasting))
        }
        Stmt::SendTo(event, state) => {
            put(
                code,
                Instr::SendTo(*event, *state, numbering.process(*state)),
            )?;
            put_require(code, test(lasting))
        }
    }
}

/// Appends the procedure of an action.
pub fn append_block(
    alloc: Global,
    draft: &mut Draft,
    numbering: &Numbering<'_>,
    lasting: Lasting,
    stmts: &[Stmt],
) -> Result<(), Memory>
    ensures { OnOk result (procs_of draft.new ≡ procs_of draft.old
        ++ templates.block_code (numbers (chart_in numbering.now)) (test_of lasting)
        (block_seen stmts.now) ∷ []) }
{
    let mut code = List::of(Vec::new(alloc));
    for stmt in stmts {
        put_stmt(alloc, &mut code, numbering, lasting, stmt)?;
    }
    put_return(&mut code, DONE)?;
    append(draft, code)
}

/// Appends the procedure of a guard.
fn append_guard(alloc: Global, draft: &mut Draft, guard: &Expr) -> Result<(), Memory>
    ensures { OnOk result (procs_of draft.new
        ≡ procs_of draft.old ++ templates.guard_code (expr_of guard.now) ∷ []) }
{
    let mut code = List::of(Vec::new(alloc));
    put(
        &mut code,
        Instr::Unless(1, Cond::Test(copy_expr(alloc, guard)?)),
    )?;
    put_return(&mut code, GUARD_TRUE)?;
    put_return(&mut code, GUARD_FALSE)?;
    append(draft, code)
}

/// Appends the procedures of the parts of a transition.
fn append_trans_parts(
    alloc: Global,
    draft: &mut Draft,
    numbering: &Numbering<'_>,
    trans: &Trans,
) -> Result<(), Memory>
    ensures { OnOk result (procs_of draft.new ≡ procs_of draft.old
        ++ map (body (chart_in numbering.now)) (keys.trans_keys (trans_seen trans.now))) }
{
    if let Some(guard) = &trans.guard {
        append_guard(alloc, draft, guard)?;
    }
    if !trans.cond.items().is_empty() {
        append_block(alloc, draft, numbering, Lasting::On, trans.cond.items())?;
        append_block(alloc, draft, numbering, Lasting::Bare, trans.cond.items())?;
    }
    if !trans.act.items().is_empty() {
        append_block(alloc, draft, numbering, Lasting::Bare, trans.act.items())?;
    }
    Ok(())
}

/// Appends the procedures of the parts of the transitions of a list.
#[tactic(auto, unfolding(chart_code::specs::Keys::parts_keys))]
pub fn append_parts(
    alloc: Global,
    draft: &mut Draft,
    numbering: &Numbering<'_>,
    list: &[Trans],
) -> Result<(), Memory>
    ensures { OnOk result (procs_of draft.new ≡ procs_of draft.old
        ++ map (body (chart_in numbering.now)) (keys.parts_keys (list_seen list.now))) }
{
    for trans in list {
        append_trans_parts(alloc, draft, numbering, trans)?;
    }
    Ok(())
}
