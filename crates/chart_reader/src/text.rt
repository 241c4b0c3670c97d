//! Reads a chart from its text.
ghost use Rattle.std.specs.Prelude.{◌≡◌, not, IfOk, IfErr};
ghost use Rattle.std.specs.List.{filter};
ghost use Rattle.token_grammar.specs.declared.token.Kind.TheVariants as kinds;
ghost use Rattle.token_grammar.specs.Token.{lexemes, kind_eq, Gives};
ghost use Rattle.token_grammar.specs.Grammar.{ended, whole_reads};
ghost use Rattle.chart_tree.specs.Trees as trees;
ghost use Rattle.chart_tree.specs.Views.{chart_of};
ghost use Rattle.chart_grammar.specs.Limits.{usual};
ghost use Rattle.chart_grammar.specs.States as states;
ghost use Rattle.chart_reader.specs.Named.{AreNamed};
ghost use Rattle.chart_reader.specs.Answer as spec;
ghost use Rattle.chart_reader.specs.Answer.{IsAnswer};
ghost use Rattle.chart_reader.specs.Text.{Spells, IsReadAs, IsRefusal};

use crate::counts::Counts;
use crate::reader::Reader;
use chart_lexer::{Stop, lex};
use chart_tree::{CHART_TEXT_LIMIT, ChartText, FormFault, FormKind};
use std::alloc::{AllocError, Global};
use token_grammar::{Kind, ReadError, Span, Token, TokenFault};

impl<'t, 'a> Reader<'t, 'a> {
    /// The value, where no token is left.
    fn ended<T: Drop>(&self, value: T) -> Result<T, ReadError>
        ensures { Gives (λ v. v) result (lexemes self.now.rest.now)
            (ended value (lexemes self.now.rest.now)) }
    {
        match self.rest {
            [] => Ok(value),
            [_, ..] => Err(ReadError::Fault(TokenFault::Expected)),
        }
    }

    /// A chart, and then the end.
    fn whole(&mut self) -> Result<ChartText, ReadError>
        ensures { Gives chart_of result (lexemes self.new.rest.now)
            (whole_reads (states.chart usual) (lexemes self.old.rest.now)) }
    {
        let chart = self.chart()?;
        self.ended(chart)
    }
}

/// The kind of fault where no token is left, by what stands after the last token.
fn end_kind(stop: Stop) -> FormKind
    ensures { result ≡ spec.end_kind stop }
{
    match stop {
        Stop::End => FormKind::Expected,
        Stop::BadByte => FormKind::BadByte,
        Stop::BadToken => FormKind::BadToken,
    }
}

/// A fault of reading at the first token that is left; where none is left, the fault of what stands
/// after the last token.
fn fault_at(fault: TokenFault, rest: &[Token<'_>], stop: Stop, end: Span) -> FormFault
    ensures { result ≡ spec.fault_at fault (lexemes rest.now) stop end }
{
    match rest {
        [token, ..] => FormFault::At(FormKind::of(fault), token.at),
        [] => FormFault::At(end_kind(stop), end),
    }
}

/// The chart of all tokens, where the text ends after them; else the fault of what stands there.
fn chart_at(chart: ChartText, stop: Stop, end: Span) -> Result<ChartText, FormFault>
    ensures { IsAnswer result (spec.chart_at (chart_of chart) stop end) }
{
    match stop {
        Stop::End => Ok(chart),
        Stop::BadByte | Stop::BadToken => Err(FormFault::At(end_kind(stop), end)),
    }
}

/// What reading all tokens answers, with what stands after them and its place.
fn read_tokens(
    alloc: Global,
    tokens: &[Token<'_>],
    stop: Stop,
    end: Span,
) -> Result<ChartText, FormFault>
    requires { AreNamed (lexemes tokens.now) }
    ensures { IsAnswer result
        (spec.answer stop end (whole_reads (states.chart usual) (lexemes tokens.now))) }
{
    let mut reader = Reader {
        alloc,
        rest: tokens,
        counts: Counts::at_begin(),
    };
    match reader.whole() {
        Ok(chart) => chart_at(chart, stop, end),
        Err(ReadError::Fault(fault)) => Err(fault_at(fault, reader.rest, stop, end)),
        Err(ReadError::Memory) => Err(FormFault::Memory),
    }
}

/// The tokens in order, without comments.
fn without_comments<'a>(alloc: Global, tokens: &[Token<'a>]) -> Result<Vec<Token<'a>>, AllocError>
    ensures { IfOk result (λ v. lexemes v.items
        ≡ filter (λ t. not (kind_eq t.kind kinds.Comment)) (lexemes tokens.now)) }
{
    let mut found = Vec::new(alloc);
    for token in tokens {
        if token.kind != Kind::Comment {
            found.push(*token)?;
        }
    }
    Ok(found)
}

/// The chart that the text spells.
///
/// A text of over `CHART_TEXT_LIMIT` bytes is `TextTooLong` at its first byte, before all else. Any
/// other text that is no chart text is refused at its first token, byte or end that doesn't
/// continue one within the limits, with the fault that it has there.
pub fn read_chart(alloc: Global, text: &[u8]) -> Result<ChartText, FormFault>
    // What is read is the chart that the text spells.
    ensures found { IfOk result (λ c. Spells text.now (chart_of c)) }
    // A chart text is read, unless memory runs out.
    ensures only { (c : trees.Chart) → Spells text.now c → IsReadAs c result }
    // Each refusal has its cause and its place.
    ensures refused { IfErr result (IsRefusal text.now) }
{
    if text.len() > CHART_TEXT_LIMIT {
        let begin = Span { line: 1, column: 1 };
        return Err(FormFault::At(FormKind::TextTooLong, begin));
    }
    let lexed = lex(alloc, text)?;
    let tokens = without_comments(alloc, &lexed.tokens)?;
    read_tokens(alloc, &tokens, lexed.stop, lexed.at)
}
