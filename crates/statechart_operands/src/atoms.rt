//! Operands without an expression in them.
ghost use Rattle.std.specs.Prelude.{◌≡◌};
ghost use Rattle.token_grammar.specs.Token.{lexemes, Gives};
ghost use Rattle.chart_grammar.specs.Limits.{usual};
ghost use Rattle.statechart_grammar.specs.Expressions as grammar;
ghost use Rattle.statechart_operands.specs.Operands.{operand_of};

use crate::operands::Operand;
use chart_tree::NameText;
use statechart_tokens::{Group, Reader};
use statechart_tree::SourceExpr;
use token_grammar::{Kind, ReadError, Span};

/// A number.
#[tactic(auto, unfolding(statechart_grammar::specs::Expressions::literal))]
pub fn literal(reader: &mut Reader<'_, '_>, before: u32) -> Result<Operand, ReadError>
    ensures read { Gives operand_of result (lexemes reader.new.rest.now)
        ((grammar.literal usual before).reads (lexemes reader.old.rest.now)) }
    ensures counts { reader.new.counts ≡ reader.old.counts }
{
    let number = reader.number()?;
    Ok(Operand {
        expr: SourceExpr::Lit(number.lit, number.token.at),
        operators: before,
    })
}

/// `true` or `false`.
#[tactic(auto, unfolding(statechart_grammar::specs::Expressions::flag))]
pub fn flag(reader: &mut Reader<'_, '_>, before: u32) -> Result<Operand, ReadError>
    ensures read { Gives operand_of result (lexemes reader.new.rest.now)
        ((grammar.flag before).reads (lexemes reader.old.rest.now)) }
    ensures counts { reader.new.counts ≡ reader.old.counts }
{
    let token = reader.one_of(Group::Flags)?;
    Ok(Operand {
        expr: SourceExpr::Flag(token.kind == Kind::True, token.at),
        operators: before,
    })
}

/// `in(PATH)`.
#[tactic(auto, unfolding(statechart_grammar::specs::Expressions::active))]
pub fn active(reader: &mut Reader<'_, '_>, before: u32) -> Result<Operand, ReadError>
    ensures read { Gives operand_of result (lexemes reader.new.rest.now)
        ((grammar.active before).reads (lexemes reader.old.rest.now)) }
    ensures counts { reader.new.counts ≡ reader.old.counts }
{
    let at = reader.token(Kind::In)?.at;
    reader.token(Kind::OpenParen)?;
    let path = reader.path()?;
    let active = Operand {
        expr: SourceExpr::Active(path, at),
        operators: before,
    };
    reader.closed_by(Kind::CloseParen, active)
}

/// A target that begins with that name.
#[tactic(auto, unfolding(statechart_grammar::specs::Expressions::datum))]
pub fn datum(
    reader: &mut Reader<'_, '_>,
    first: NameText,
    before: u32,
) -> Result<Operand, ReadError>
    ensures read { Gives operand_of result (lexemes reader.new.rest.now)
        ((grammar.datum first before).reads (lexemes reader.old.rest.now)) }
    ensures counts { reader.new.counts ≡ reader.old.counts }
{
    let target = reader.longer(first)?;
    Ok(Operand {
        expr: SourceExpr::Name(target),
        operators: before,
    })
}

/// `(EVENT)`, behind `temporalCount`.
#[tactic(auto, unfolding(statechart_grammar::specs::Expressions::counted))]
pub fn counted(reader: &mut Reader<'_, '_>, at: Span, before: u32) -> Result<Operand, ReadError>
    ensures read { Gives operand_of result (lexemes reader.new.rest.now)
        ((grammar.counted at before).reads (lexemes reader.old.rest.now)) }
    ensures counts { reader.new.counts ≡ reader.old.counts }
{
    reader.token(Kind::OpenParen)?;
    let event = reader.name()?;
    let counted = Operand {
        expr: SourceExpr::Count(event, at),
        operators: before,
    };
    reader.closed_by(Kind::CloseParen, counted)
}
