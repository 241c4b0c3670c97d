//! Statements, a function for each production of the grammar.
ghost use Rattle.std.specs.Prelude.{◌≡◌, map};
ghost use Rattle.token_grammar.specs.Token.{lexemes, Gives};
ghost use Rattle.chart_tree.specs.Views.{path_of};
ghost use Rattle.statechart_tree.specs.Views.{expr_of, stmt_of, row_of};
ghost use Rattle.chart_grammar.specs.Limits.{usual};
ghost use Rattle.statechart_grammar.specs.Transitions as grammar;
ghost use Rattle.statechart_statements.specs.Parts as parts;

use crate::symbols::{change_refused, update_word};
use chart_tree::{BinWord, NameText, PathText, Span};
use flow_base::List;
use statechart_operands::expr;
use statechart_tokens::{Group, Reader};
use statechart_tree::{SourceExpr, SourceStmt};
use token_grammar::{Kind, ReadError};

#[tactic(auto, unfolding(statechart_grammar::specs::Transitions::assign))]
fn assign(reader: &mut Reader<'_, '_>, target: PathText) -> Result<SourceStmt, ReadError>
    ensures read { Gives stmt_of result (lexemes reader.new.rest.now)
        ((grammar.assign usual (path_of target)).reads (lexemes reader.old.rest.now)) }
    ensures counts { reader.new.counts ≡ reader.old.counts }
{
    reader.token(Kind::Assign)?;
    let value = expr(reader)?;
    reader.closed_by(Kind::Semicolon, SourceStmt::Assign(target, value))
}

/// A value and the semicolon, behind a target and the symbol at that place.
#[tactic(auto, unfolding(statechart_grammar::specs::Transitions::update))]
fn update(
    reader: &mut Reader<'_, '_>,
    target: PathText,
    word: BinWord,
    at: Span,
) -> Result<SourceStmt, ReadError>
    ensures read { Gives stmt_of result (lexemes reader.new.rest.now)
        ((grammar.update usual (path_of target) word at).reads (lexemes reader.old.rest.now)) }
    ensures counts { reader.new.counts ≡ reader.old.counts }
{
    let value = expr(reader)?;
    reader.closed_by(Kind::Semicolon, SourceStmt::Update(target, word, value, at))
}

/// The semicolon behind `++`.
#[tactic(auto, unfolding(statechart_grammar::specs::Transitions::step_up))]
fn step_up(reader: &mut Reader<'_, '_>, target: PathText, at: Span) -> Result<SourceStmt, ReadError>
    ensures read { Gives stmt_of result (lexemes reader.new.rest.now)
        ((grammar.step_up (path_of target) at).reads (lexemes reader.old.rest.now)) }
    ensures counts { reader.new.counts ≡ reader.old.counts }
{
    reader.closed_by(Kind::Semicolon, SourceStmt::Step(target, BinWord::Add, at))
}

/// A symbol that changes a datum, and what stands behind it.
#[tactic(auto, unfolding(statechart_grammar::specs::Transitions::change))]
fn change(reader: &mut Reader<'_, '_>, target: PathText) -> Result<SourceStmt, ReadError>
    ensures read { Gives stmt_of result (lexemes reader.new.rest.now)
        ((grammar.change usual (path_of target)).reads (lexemes reader.old.rest.now)) }
    ensures counts { reader.new.counts ≡ reader.old.counts }
{
    let refused = change_refused(reader);
    let token = reader.unless(refused, Kind::Chart)?;
    match update_word(token.text) {
        None => step_up(reader, target, token.at),
        Some(word) => update(reader, target, word, token.at),
    }
}

/// `--;` behind a target: of the two tokens of `--` the first has both as its text.
#[tactic(auto, unfolding(statechart_grammar::specs::Transitions::step_down))]
fn step_down(reader: &mut Reader<'_, '_>, target: PathText) -> Result<SourceStmt, ReadError>
    ensures read { Gives stmt_of result (lexemes reader.new.rest.now)
        ((grammar.step_down (path_of target)).reads (lexemes reader.old.rest.now)) }
    ensures counts { reader.new.counts ≡ reader.old.counts }
{
    let at = reader.spelled(Kind::Minus, b"--")?.at;
    reader.token(Kind::Minus)?;
    reader.closed_by(Kind::Semicolon, SourceStmt::Step(target, BinWord::Sub, at))
}

/// What stands behind a target.
#[tactic(auto, unfolding(statechart_grammar::specs::Transitions::target_stmt))]
fn target_stmt(reader: &mut Reader<'_, '_>, target: PathText) -> Result<SourceStmt, ReadError>
    ensures read { Gives stmt_of result (lexemes reader.new.rest.now)
        ((grammar.target_stmt usual (path_of target)).reads (lexemes reader.old.rest.now)) }
    ensures counts { reader.new.counts ≡ reader.old.counts }
{
    if reader.is_at(Kind::Assign) {
        assign(reader, target)
    } else if reader.is_at(Kind::Chart) {
        change(reader, target)
    } else {
        step_down(reader, target)
    }
}

/// The names of a target behind its first, and what stands behind it.
fn longer_target(reader: &mut Reader<'_, '_>, first: NameText) -> Result<SourceStmt, ReadError>
    ensures read { Gives stmt_of result (lexemes reader.new.rest.now)
        ((grammar.longer_target usual first).reads (lexemes reader.old.rest.now)) }
    ensures counts { reader.new.counts ≡ reader.old.counts }
{
    let target = reader.longer(first)?;
    target_stmt(reader, target)
}

/// One more argument, behind its comma.
#[tactic(auto, unfolding(statechart_grammar::specs::Transitions::next_value))]
fn next_value(reader: &mut Reader<'_, '_>) -> Result<SourceExpr, ReadError>
    ensures read { Gives expr_of result (lexemes reader.new.rest.now)
        ((grammar.next_value usual).reads (lexemes reader.old.rest.now)) }
    ensures counts { reader.new.counts ≡ reader.old.counts }
{
    reader.token(Kind::Comma)?;
    expr(reader)
}

/// Arguments, at least one.
fn some_values(reader: &mut Reader<'_, '_>) -> Result<Vec<SourceExpr>, ReadError>
    ensures read { Gives (λ v. row_of (map expr_of v.items)) result (lexemes reader.new.rest.now)
        ((grammar.some_values usual).reads (lexemes reader.old.rest.now)) }
    ensures counts { reader.new.counts ≡ reader.old.counts }
{
    let first = expr(reader)?;
    let mut found = Vec::new(reader.alloc);
    found.push(first)?;
    'items: while reader.is_at(Kind::Comma) {
        let item = next_value(reader)?;
        found.push(item)?;
    }
    Ok(found)
}

/// Arguments, if there are any.
fn values(reader: &mut Reader<'_, '_>) -> Result<Vec<SourceExpr>, ReadError>
    ensures read { Gives (λ v. row_of (map expr_of v.items)) result (lexemes reader.new.rest.now)
        (parts.values.reads (lexemes reader.old.rest.now)) }
    ensures counts { reader.new.counts ≡ reader.old.counts }
{
    if reader.is_at_one_of(Group::Operands) {
        some_values(reader)
    } else {
        Ok(Vec::new(reader.alloc))
    }
}

/// The arguments of a call in parentheses, and the semicolon.
#[tactic(auto, unfolding(statechart_grammar::specs::Transitions::invoke))]
fn invoke(reader: &mut Reader<'_, '_>, name: NameText) -> Result<SourceStmt, ReadError>
    ensures read { Gives stmt_of result (lexemes reader.new.rest.now)
        ((grammar.invoke usual name).reads (lexemes reader.old.rest.now)) }
    ensures counts { reader.new.counts ≡ reader.old.counts }
{
    reader.token(Kind::OpenParen)?;
    let found = values(reader)?;
    reader.token(Kind::CloseParen)?;
    let call = SourceStmt::Call(name, List::of(found));
    reader.closed_by(Kind::Semicolon, call)
}

/// A statement that begins with a name.
#[tactic(auto, unfolding(statechart_grammar::specs::Transitions::named_stmt, statechart_grammar::specs::Transitions::raise))]
fn named_stmt(reader: &mut Reader<'_, '_>) -> Result<SourceStmt, ReadError>
    ensures read { Gives stmt_of result (lexemes reader.new.rest.now)
        ((grammar.named_stmt usual).reads (lexemes reader.old.rest.now)) }
    ensures counts { reader.new.counts ≡ reader.old.counts }
{
    let first = reader.name()?;
    if reader.is_at(Kind::Semicolon) {
        reader.closed_by(Kind::Semicolon, SourceStmt::Raise(first))
    } else if reader.is_at(Kind::OpenParen) {
        invoke(reader, first)
    } else {
        longer_target(reader, first)
    }
}

#[tactic(auto, unfolding(statechart_grammar::specs::Transitions::send))]
fn send(reader: &mut Reader<'_, '_>) -> Result<SourceStmt, ReadError>
    ensures read { Gives stmt_of result (lexemes reader.new.rest.now)
        (grammar.send.reads (lexemes reader.old.rest.now)) }
    ensures counts { reader.new.counts ≡ reader.old.counts }
{
    reader.token(Kind::Send)?;
    let name = reader.name()?;
    let to = reader.maybe_receiver()?;
    reader.closed_by(Kind::Semicolon, SourceStmt::Send(name, to))
}

#[tactic(auto, unfolding(statechart_grammar::specs::Transitions::emit))]
fn emit(reader: &mut Reader<'_, '_>) -> Result<SourceStmt, ReadError>
    ensures read { Gives stmt_of result (lexemes reader.new.rest.now)
        (grammar.emit.reads (lexemes reader.old.rest.now)) }
    ensures counts { reader.new.counts ≡ reader.old.counts }
{
    reader.token(Kind::Emit)?;
    let name = reader.name()?;
    reader.closed_by(Kind::Semicolon, SourceStmt::Emit(name))
}

/// A statement.
#[tactic(auto, unfolding(statechart_grammar::specs::Transitions::stmt))]
pub fn stmt(reader: &mut Reader<'_, '_>) -> Result<SourceStmt, ReadError>
    ensures read { Gives stmt_of result (lexemes reader.new.rest.now)
        ((grammar.stmt usual).reads (lexemes reader.old.rest.now)) }
    ensures counts { reader.new.counts ≡ reader.old.counts }
{
    if reader.is_at(Kind::Send) {
        send(reader)
    } else if reader.is_at(Kind::Emit) {
        emit(reader)
    } else {
        named_stmt(reader)
    }
}
