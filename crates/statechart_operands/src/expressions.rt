//! Expressions, a function for each production of the grammar. A function that takes a depth reads
//! operands in which others may be nested so deep.
ghost use Rattle.std.specs.Prelude.{◌≡◌, true, false};
ghost use Rattle.token_grammar.specs.Token.{lexemes, Gives};
ghost use Rattle.chart_tree.specs.declared.name.NameText.{NameText};
ghost use Rattle.statechart_tree.specs.Views.{expr_of};
ghost use Rattle.chart_grammar.specs.Limits.{usual};
ghost use Rattle.statechart_grammar.specs.Expressions as grammar;
ghost use Rattle.statechart_tokens.specs.Groups.{set_of};
ghost use Rattle.statechart_operands.specs.Operands.{operand_of, tail_of, arguments_of, group_of, below};

use crate::atoms::{active, counted, datum, flag, literal};
use crate::operands::{Arguments, Level, Operand, Tail, with_tail};
use crate::temporal::{temporal_refused, time_of};
use chart_operands::{bin_word, un_word};
use chart_tree::NameText;
use flow_base::List;
use flow_base::chart_limits::OPERATOR_LIMIT;
use statechart_lexer::word_of;
use statechart_tokens::{Group, Reader};
use statechart_tree::{SourceExpr, TimeWord};
use token_grammar::{Kind, ReadError, Span, Thing, TokenFault};

/// An operator of the level and the operand after it.
#[cycle(expr)]
#[tactic(auto, unfolding(statechart_grammar::specs::Expressions::tail))]
fn tail(
    reader: &mut Reader<'_, '_>,
    level: Level,
    depth: u32,
    before: u32,
) -> Result<Tail, ReadError>
    ensures read { Gives tail_of result (lexemes reader.new.rest.now)
        ((grammar.tail usual (set_of (group_of level))
        (below level (grammar.unary usual depth)) before).reads
        (lexemes reader.old.rest.now)) }
    ensures counts { reader.new.counts ≡ reader.old.counts }
{
    let operator = reader.operator(level.operators(), before)?;
    let right = operand(reader, level, depth, before + 1)?;
    Ok(Tail {
        word: bin_word(operator.kind),
        at: operator.at,
        right,
    })
}

/// Operands of the level with its operators between them.
#[cycle(expr)]
fn chain(
    reader: &mut Reader<'_, '_>,
    level: Level,
    depth: u32,
    before: u32,
) -> Result<Operand, ReadError>
    ensures read { Gives operand_of result (lexemes reader.new.rest.now)
        ((grammar.chain usual (set_of (group_of level))
        (below level (grammar.unary usual depth)) before).reads
        (lexemes reader.old.rest.now)) }
    ensures counts { reader.new.counts ≡ reader.old.counts }
{
    let mut left = operand(reader, level, depth, before)?;
    'operators: while reader.is_at_one_of(level.operators()) {
        let tail = tail(reader, level, depth, left.operators)?;
        left = with_tail(reader.alloc, left, tail)?;
    }
    Ok(left)
}

/// An operand of the level.
#[cycle(expr)]
#[tactic(auto, unfolding(statechart_grammar::specs::Expressions::product, statechart_grammar::specs::Expressions::sum, statechart_grammar::specs::Expressions::conjunction))]
fn operand(
    reader: &mut Reader<'_, '_>,
    level: Level,
    depth: u32,
    before: u32,
) -> Result<Operand, ReadError>
    ensures read { Gives operand_of result (lexemes reader.new.rest.now)
        ((below level (grammar.unary usual depth) before).reads
        (lexemes reader.old.rest.now)) }
    ensures counts { reader.new.counts ≡ reader.old.counts }
{
    match level {
        Level::Products => unary(reader, depth, before),
        Level::Sums => chain(reader, Level::Products, depth, before),
        Level::Comparisons => chain(reader, Level::Sums, depth, before),
        Level::Conjunctions => comparison(reader, depth, before),
        Level::Disjunctions => chain(reader, Level::Conjunctions, depth, before),
    }
}

#[cycle(expr)]
#[tactic(auto, unfolding(statechart_grammar::specs::Expressions::comparison, statechart_grammar::specs::Expressions::pair))]
fn comparison(reader: &mut Reader<'_, '_>, depth: u32, before: u32) -> Result<Operand, ReadError>
    ensures read { Gives operand_of result (lexemes reader.new.rest.now)
        ((grammar.comparison usual (grammar.unary usual depth) before).reads
        (lexemes reader.old.rest.now)) }
    ensures counts { reader.new.counts ≡ reader.old.counts }
{
    let left = operand(reader, Level::Comparisons, depth, before)?;
    if !reader.is_at_one_of(Group::Comparisons) {
        return Ok(left);
    }
    let tail = tail(reader, Level::Comparisons, depth, left.operators)?;
    Ok(with_tail(reader.alloc, left, tail)?)
}

/// An operand without a binary operator.
#[cycle(expr)]
fn unary(reader: &mut Reader<'_, '_>, depth: u32, before: u32) -> Result<Operand, ReadError>
    ensures read { Gives operand_of result (lexemes reader.new.rest.now)
        ((grammar.unary usual depth before).reads (lexemes reader.old.rest.now)) }
    ensures counts { reader.new.counts ≡ reader.old.counts }
{
    if depth == 0 {
        deepest(reader, before)
    } else {
        nesting(reader, depth - 1, before)
    }
}

/// An operand in which others may be nested, each so deep.
#[cycle(expr)]
#[tactic(auto, unfolding(statechart_grammar::specs::Expressions::unary_over))]
fn nesting(reader: &mut Reader<'_, '_>, depth: u32, before: u32) -> Result<Operand, ReadError>
    ensures read { Gives operand_of result (lexemes reader.new.rest.now)
        ((grammar.unary_over usual false (grammar.unary usual depth) before).reads
        (lexemes reader.old.rest.now)) }
    ensures counts { reader.new.counts ≡ reader.old.counts }
{
    if reader.is_at_one_of(Group::Signs) {
        signed(reader, depth, before)
    } else if reader.is_at(Kind::OpenParen) {
        parens(reader, depth, before)
    } else if reader.is_at(Kind::Number) {
        literal(reader, before)
    } else if reader.is_at_one_of(Group::Flags) {
        flag(reader, before)
    } else if reader.is_at(Kind::In) {
        active(reader, before)
    } else if reader.is_at(Kind::Tick) {
        temporal(reader, depth, before)
    } else {
        named(reader, depth, before)
    }
}

#[cycle(expr)]
#[tactic(auto, unfolding(statechart_grammar::specs::Expressions::signed))]
fn signed(reader: &mut Reader<'_, '_>, depth: u32, before: u32) -> Result<Operand, ReadError>
    ensures read { Gives operand_of result (lexemes reader.new.rest.now)
        ((grammar.signed usual false (grammar.unary usual depth) before).reads
        (lexemes reader.old.rest.now)) }
    ensures counts { reader.new.counts ≡ reader.old.counts }
{
    let operator = reader.operator(Group::Signs, before)?;
    let found = unary(reader, depth, before + 1)?;
    let word = un_word(operator.kind);
    Ok(Operand {
        expr: SourceExpr::Unary(word, Box::new(reader.alloc, found.expr)?, operator.at),
        operators: found.operators,
    })
}

#[cycle(expr)]
#[tactic(auto, unfolding(statechart_grammar::specs::Expressions::parens, statechart_grammar::specs::Expressions::disjunction))]
fn parens(reader: &mut Reader<'_, '_>, depth: u32, before: u32) -> Result<Operand, ReadError>
    ensures read { Gives operand_of result (lexemes reader.new.rest.now)
        ((grammar.parens usual false (grammar.unary usual depth) before).reads
        (lexemes reader.old.rest.now)) }
    ensures counts { reader.new.counts ≡ reader.old.counts }
{
    reader.operator(Group::Parentheses, before)?;
    let found = chain(reader, Level::Disjunctions, depth, before + 1)?;
    reader.closed_by(Kind::CloseParen, found)
}

/// One more argument, behind its comma.
#[cycle(expr)]
#[tactic(auto, unfolding(statechart_grammar::specs::Expressions::next_argument, statechart_grammar::specs::Expressions::disjunction))]
fn next_argument(reader: &mut Reader<'_, '_>, depth: u32, before: u32) -> Result<Operand, ReadError>
    ensures read { Gives operand_of result (lexemes reader.new.rest.now)
        ((grammar.next_argument usual (grammar.unary usual depth) before).reads
        (lexemes reader.old.rest.now)) }
    ensures counts { reader.new.counts ≡ reader.old.counts }
{
    reader.token(Kind::Comma)?;
    chain(reader, Level::Disjunctions, depth, before)
}

/// Arguments, at least one.
#[cycle(expr)]
fn some_arguments(
    reader: &mut Reader<'_, '_>,
    depth: u32,
    before: u32,
) -> Result<Arguments, ReadError>
    ensures read { Gives arguments_of result (lexemes reader.new.rest.now)
        ((grammar.some_arguments usual (grammar.unary usual depth) before).reads
        (lexemes reader.old.rest.now)) }
    ensures counts { reader.new.counts ≡ reader.old.counts }
{
    let first = chain(reader, Level::Disjunctions, depth, before)?;
    let mut operators = first.operators;
    let mut exprs = Vec::new(reader.alloc);
    exprs.push(first.expr)?;
    'arguments: while reader.is_at(Kind::Comma) {
        let next = next_argument(reader, depth, operators)?;
        operators = next.operators;
        exprs.push(next.expr)?;
    }
    Ok(Arguments { exprs, operators })
}

/// Arguments, if there are any.
#[cycle(expr)]
#[tactic(auto, unfolding(statechart_grammar::specs::Expressions::arguments))]
fn arguments(reader: &mut Reader<'_, '_>, depth: u32, before: u32) -> Result<Arguments, ReadError>
    ensures read { Gives arguments_of result (lexemes reader.new.rest.now)
        ((grammar.arguments usual (grammar.unary usual depth) before).reads
        (lexemes reader.old.rest.now)) }
    ensures counts { reader.new.counts ≡ reader.old.counts }
{
    if reader.is_at_one_of(Group::Operands) {
        some_arguments(reader, depth, before)
    } else {
        Ok(Arguments {
            exprs: Vec::new(reader.alloc),
            operators: before,
        })
    }
}

/// The parentheses of a call with its arguments.
#[cycle(expr)]
#[tactic(auto, unfolding(statechart_grammar::specs::Expressions::call))]
fn call(
    reader: &mut Reader<'_, '_>,
    depth: u32,
    name: NameText,
    before: u32,
) -> Result<Operand, ReadError>
    ensures read { Gives operand_of result (lexemes reader.new.rest.now)
        ((grammar.call usual false (grammar.unary usual depth) name before).reads
        (lexemes reader.old.rest.now)) }
    ensures counts { reader.new.counts ≡ reader.old.counts }
{
    reader.operator(Group::Parentheses, before)?;
    let found = arguments(reader, depth, before + 1)?;
    let call = Operand {
        expr: SourceExpr::Call(name, List::of(found.exprs)),
        operators: found.operators,
    };
    reader.closed_by(Kind::CloseParen, call)
}

/// A target or a call.
#[cycle(expr)]
#[tactic(auto, unfolding(statechart_grammar::specs::Expressions::named))]
fn named(reader: &mut Reader<'_, '_>, depth: u32, before: u32) -> Result<Operand, ReadError>
    ensures read { Gives operand_of result (lexemes reader.new.rest.now)
        ((grammar.named usual false (grammar.unary usual depth) before).reads
        (lexemes reader.old.rest.now)) }
    ensures counts { reader.new.counts ≡ reader.old.counts }
{
    let first = reader.name()?;
    if reader.is_at(Kind::OpenParen) {
        call(reader, depth, first, before)
    } else {
        datum(reader, first, before)
    }
}

/// The parentheses of `after`, `before` or `at`.
#[cycle(expr)]
#[tactic(auto, unfolding(statechart_grammar::specs::Expressions::timed, statechart_grammar::specs::Expressions::disjunction))]
fn timed(
    reader: &mut Reader<'_, '_>,
    depth: u32,
    word: TimeWord,
    at: Span,
    before: u32,
) -> Result<Operand, ReadError>
    ensures read { Gives operand_of result (lexemes reader.new.rest.now)
        ((grammar.timed usual (grammar.unary usual depth) word at before).reads
        (lexemes reader.old.rest.now)) }
    ensures counts { reader.new.counts ≡ reader.old.counts }
{
    reader.token(Kind::OpenParen)?;
    let found = chain(reader, Level::Disjunctions, depth, before)?;
    reader.token(Kind::Comma)?;
    let event = reader.name()?;
    let timed = Operand {
        expr: SourceExpr::Timed(word, Box::new(reader.alloc, found.expr)?, event, at),
        operators: found.operators,
    };
    reader.closed_by(Kind::CloseParen, timed)
}

/// A temporal word with what stands behind it.
#[cycle(expr)]
#[tactic(auto, unfolding(statechart_grammar::specs::Expressions::temporal))]
fn temporal(reader: &mut Reader<'_, '_>, depth: u32, before: u32) -> Result<Operand, ReadError>
    ensures read { Gives operand_of result (lexemes reader.new.rest.now)
        ((grammar.temporal usual false (grammar.unary usual depth) before).reads
        (lexemes reader.old.rest.now)) }
    ensures counts { reader.new.counts ≡ reader.old.counts }
{
    let refused = temporal_refused(reader, false, before);
    let token = reader.unless(refused, Kind::Tick)?;
    match time_of(word_of(token.text)) {
        None => counted(reader, token.at, before),
        Some(word) => timed(reader, depth, word, token.at, before + 1),
    }
}

/// An operand in which none may be nested.
#[tactic(auto, unfolding(statechart_grammar::specs::Expressions::unary, statechart_grammar::specs::Expressions::unary_over))]
fn deepest(reader: &mut Reader<'_, '_>, before: u32) -> Result<Operand, ReadError>
    ensures read { Gives operand_of result (lexemes reader.new.rest.now)
        ((grammar.unary usual 0 before).reads (lexemes reader.old.rest.now)) }
    ensures counts { reader.new.counts ≡ reader.old.counts }
{
    if reader.is_at_one_of(Group::Signs) {
        Err(ReadError::Fault(TokenFault::TooMany(Thing::Operators)))
    } else if reader.is_at(Kind::OpenParen) {
        Err(ReadError::Fault(TokenFault::TooMany(Thing::Operators)))
    } else if reader.is_at(Kind::Number) {
        literal(reader, before)
    } else if reader.is_at_one_of(Group::Flags) {
        flag(reader, before)
    } else if reader.is_at(Kind::In) {
        active(reader, before)
    } else if reader.is_at(Kind::Tick) {
        deepest_temporal(reader, before)
    } else {
        deepest_named(reader, before)
    }
}

/// `temporalCount`, where no operand may be nested.
fn deepest_temporal(reader: &mut Reader<'_, '_>, before: u32) -> Result<Operand, ReadError>
    ensures read { Gives operand_of result (lexemes reader.new.rest.now)
        ((grammar.temporal usual true (grammar.literal usual) before).reads
        (lexemes reader.old.rest.now)) }
    ensures counts { reader.new.counts ≡ reader.old.counts }
{
    let refused = temporal_refused(reader, true, before);
    let token = reader.unless(refused, Kind::Tick)?;
    counted(reader, token.at, before)
}

/// A target, where no operand may be nested.
fn deepest_named(reader: &mut Reader<'_, '_>, before: u32) -> Result<Operand, ReadError>
    ensures read { Gives operand_of result (lexemes reader.new.rest.now)
        ((grammar.named usual true (grammar.literal usual) before).reads
        (lexemes reader.old.rest.now)) }
    ensures counts { reader.new.counts ≡ reader.old.counts }
{
    let first = reader.name()?;
    if reader.is_at(Kind::OpenParen) {
        return Err(ReadError::Fault(TokenFault::TooMany(Thing::Operators)));
    }
    datum(reader, first, before)
}

/// An expression.
#[tactic(auto, unfolding(statechart_grammar::specs::Expressions::expr, statechart_grammar::specs::Expressions::operand, statechart_grammar::specs::Expressions::disjunction))]
pub fn expr(reader: &mut Reader<'_, '_>) -> Result<SourceExpr, ReadError>
    ensures read { Gives expr_of result (lexemes reader.new.rest.now)
        ((grammar.expr usual).reads (lexemes reader.old.rest.now)) }
    ensures counts { reader.new.counts ≡ reader.old.counts }
{
    let whole = chain(reader, Level::Disjunctions, OPERATOR_LIMIT, 0)?;
    Ok(whole.expr)
}
