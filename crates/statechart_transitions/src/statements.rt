//! Statements without the new words.
ghost use Rattle.std.specs.Prelude.{◌≡◌, ◌++◌, ◌∷◌, [], map, IfOk, OnOk, Option};
ghost use Rattle.std.specs.Option.{option_map};
ghost use Rattle.chart_tree.specs.Trees as trees;
ghost use Rattle.chart_tree.specs.Views as core;
ghost use Rattle.statechart_tree.specs.Trees as source;
ghost use Rattle.statechart_tree.specs.Views.{expr_of};
ghost use Rattle.statechart_tree.specs.Views.{stmt_of};
ghost use Rattle.statechart_meaning.specs.Statements as spec;
ghost use Rattle.statechart_names.specs.Seen.{scope_seen};

use crate::targets::{raised, target, update};
use chart_copies::{copy_name, copy_path};
use chart_tree::{BinWord, ExprText, NameText, PathText, Span, StmtText};
use flow_base::Memory;
use statechart_expressions::{expand_all, expand_expr, function_named, inside};
use statechart_names::Scope;
use statechart_tree::{FunctionBody, SourceExpr, SourceStmt};
use statechart_values::number;
use std::alloc::Global;

/// An assignment.
fn assign(
    alloc: Global,
    scope: &Scope<'_>,
    path: &PathText,
    e: &SourceExpr,
) -> Result<StmtText, Memory>
    ensures { IfOk result (λ stmt. core.stmt_of stmt ∷ []
        ≡ spec.expand_stmt (scope_seen scope.now) (source.Assign (core.path_of path.now) (expr_of e.now))) }
{
    let name = target(alloc, scope, path.names.items())?;
    let value = expand_expr(alloc, scope, e)?;
    Ok(StmtText::Assign(name, value))
}

/// An assignment of a target with an operator and a value.
fn updated(
    alloc: Global,
    scope: &Scope<'_>,
    path: &PathText,
    word: BinWord,
    e: &SourceExpr,
    at: Span,
) -> Result<StmtText, Memory>
    ensures { IfOk result (λ stmt. core.stmt_of stmt ∷ [] ≡ spec.expand_stmt (scope_seen scope.now)
        (source.Update (core.path_of path.now) word (expr_of e.now) at)) }
{
    let name = target(alloc, scope, path.names.items())?;
    let value = expand_expr(alloc, scope, e)?;
    let made = update(alloc, name, word, value, at)?;
    Ok(made)
}

/// An assignment of a target that becomes one more or one less.
fn stepped(
    alloc: Global,
    scope: &Scope<'_>,
    path: &PathText,
    word: BinWord,
    at: Span,
) -> Result<StmtText, Memory>
    ensures { IfOk result (λ stmt. core.stmt_of stmt ∷ [] ≡ spec.expand_stmt (scope_seen scope.now)
        (source.Step (core.path_of path.now) word at)) }
{
    let name = target(alloc, scope, path.names.items())?;
    let made = update(alloc, name, word, ExprText::Lit(number(1), at), at)?;
    Ok(made)
}

/// A send.
fn sent(alloc: Global, name: &NameText, to: &Option<PathText>) -> Result<StmtText, Memory>
    ensures { IfOk result (λ stmt. core.stmt_of stmt
        ≡ trees.Send name.now (option_map core.path_of to.now)) }
{
    let name = copy_name(alloc, name)?;
    match to {
        None => Ok(StmtText::Send(name, None)),
        Some(path) => {
            let path = copy_path(alloc, path)?;
            Ok(StmtText::Send(name, Some(path)))
        }
    }
}

/// Appends what a statement stands for.
#[cycle(statements)]
fn push_stmt(
    alloc: Global,
    scope: &Scope<'_>,
    stmt: &SourceStmt,
    into: &mut Vec<StmtText>,
) -> Result<(), Memory>
    ensures { OnOk result (map core.stmt_of into.new.items ≡ map core.stmt_of into.old.items
        ++ spec.expand_stmt (scope_seen scope.now) (stmt_of stmt.now)) }
{
    match stmt {
        SourceStmt::Assign(path, e) => {
            into.push(assign(alloc, scope, path, e)?)?;
            Ok(())
        }
        SourceStmt::Update(path, word, e, at) => {
            into.push(updated(alloc, scope, path, *word, e, *at)?)?;
            Ok(())
        }
        SourceStmt::Step(path, word, at) => {
            into.push(stepped(alloc, scope, path, *word, *at)?)?;
            Ok(())
        }
        SourceStmt::Send(name, to) => {
            into.push(sent(alloc, name, to)?)?;
            Ok(())
        }
        SourceStmt::Emit(name) => {
            into.push(StmtText::Emit(copy_name(alloc, name)?))?;
            Ok(())
        }
        SourceStmt::Raise(name) => {
            into.push(raised(alloc, scope.declared.events, name)?)?;
            Ok(())
        }
        SourceStmt::Call(name, arguments) => {
            let arguments = expand_all(alloc, scope, arguments.items())?;
            push_call(alloc, scope, name, &arguments, into)?;
            Ok(())
        }
    }
}

/// Appends what a call of a function stands for: its statements. Where there is no such function, or
/// it has a value, that is nothing.
#[cycle(statements)]
fn push_call(
    alloc: Global,
    scope: &Scope<'_>,
    name: &NameText,
    arguments: &[ExprText],
    into: &mut Vec<StmtText>,
) -> Result<(), Memory>
    ensures { OnOk result (map core.stmt_of into.new.items ≡ map core.stmt_of into.old.items
        ++ (scope_seen scope.now).calls.block name.now (map core.expr_of arguments.now)) }
{
    match function_named(scope.functions, name.text.text()) {
        None => Ok(()),
        Some(called) => match &called.function.body {
            FunctionBody::Value(_) => Ok(()),
            FunctionBody::Block(stmts) => {
                push_block(
                    alloc,
                    &inside(&*scope, called, &*arguments),
                    stmts.items(),
                    into,
                )?;
                Ok(())
            }
        },
    }
}

/// Appends what statements stand for.
#[cycle(statements)]
pub fn push_block(
    alloc: Global,
    scope: &Scope<'_>,
    stmts: &[SourceStmt],
    into: &mut Vec<StmtText>,
) -> Result<(), Memory>
    ensures { OnOk result (map core.stmt_of into.new.items ≡ map core.stmt_of into.old.items
        ++ spec.expand_block (scope_seen scope.now) (map stmt_of stmts.now)) }
{
    for stmt in stmts {
        push_stmt(alloc, scope, stmt, into)?;
    }
    Ok(())
}

/// What statements stand for.
pub fn expand_block(
    alloc: Global,
    scope: &Scope<'_>,
    stmts: &[SourceStmt],
) -> Result<Vec<StmtText>, Memory>
    ensures { IfOk result (λ all. map core.stmt_of all.items
        ≡ spec.expand_block (scope_seen scope.now) (map stmt_of stmts.now)) }
{
    let mut all = Vec::new(alloc);
    push_block(alloc, scope, stmts, &mut all)?;
    Ok(all)
}
