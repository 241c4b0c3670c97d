//! Transitions, a function for each production of the grammar.
ghost use Rattle.std.specs.Prelude.{◌≡◌, None, List as ListShown, map, IfOk, OnOk};
ghost use Rattle.token_grammar.specs.declared.token.Span.{Span as SpanShown};
ghost use Rattle.token_grammar.specs.Token.{lexeme, lexemes, Gives};
ghost use Rattle.token_grammar.specs.Grammar.{is, one_of, allowed, at_first, first_place, first_refused};
ghost use Rattle.flow_base.specs.Lists.{items_of};
ghost use Rattle.chart_tree.specs.Trees.{Dest};
ghost use Rattle.chart_tree.specs.Views.{dest_of};
ghost use Rattle.statechart_tree.specs.Trees.{Case as CaseShown, Trans};
ghost use Rattle.statechart_tree.specs.Views.{block_of, trans_of};
ghost use Rattle.chart_grammar.specs.Limits.{Counted, usual, first_of, transition_refused, after_transition};
ghost use Rattle.statechart_grammar.specs.Transitions as grammar;
ghost use Rattle.statechart_tokens.specs.Counts.{counts_of};
ghost use Rattle.statechart_junctions.specs.Ends.{trans_with};
ghost use Rattle.statechart_junctions.specs.Parts as parts;

use chart_tree::{DestText, Span};
use flow_base::List;
use statechart_lexer::{Word, word_of};
use statechart_statements::{block, maybe_when};
use statechart_tokens::{Counts, Group, Reader};
use statechart_tree::{SourceStmt, SourceTrans};
use token_grammar::{Kind, ReadError, Token, TokenFault};

/// What follows the cases of a transition.
#[derive(Drop)]
pub(crate) struct TransEnd {
    pub cond: List<SourceStmt>,
    pub act: List<SourceStmt>,
    pub dest: DestText,
}

/// The condition action, an empty block where none is written.
#[tactic(auto, unfolding(statechart_grammar::specs::Transitions::maybe_block))]
fn maybe_block(reader: &mut Reader<'_, '_>) -> Result<List<SourceStmt>, ReadError>
    ensures read { Gives (λ b. block_of (items_of b)) result (lexemes reader.new.rest.now)
        ((grammar.maybe_block usual (counts_of reader.old.counts)).reads
        (lexemes reader.old.rest.now)) }
    ensures counts { IfOk result (λ b. counts_of reader.new.counts
        ≡ grammar.after_stmts (counts_of reader.old.counts) (block_of (items_of b))) }
{
    if reader.is_at(Kind::OpenBrace) {
        block(reader)
    } else {
        Ok(List::of(Vec::new(reader.alloc)))
    }
}

/// The block of a transition action, behind its slash.
#[tactic(auto, unfolding(statechart_grammar::specs::Transitions::action))]
fn action(reader: &mut Reader<'_, '_>) -> Result<List<SourceStmt>, ReadError>
    ensures read { Gives (λ b. block_of (items_of b)) result (lexemes reader.new.rest.now)
        ((grammar.action usual (counts_of reader.old.counts)).reads
        (lexemes reader.old.rest.now)) }
    ensures counts { IfOk result (λ b. counts_of reader.new.counts
        ≡ grammar.after_stmts (counts_of reader.old.counts) (block_of (items_of b))) }
{
    reader.token(Kind::Slash)?;
    block(reader)
}

/// The transition action, an empty block where none is written.
#[tactic(auto, unfolding(statechart_grammar::specs::Transitions::maybe_action))]
fn maybe_action(reader: &mut Reader<'_, '_>) -> Result<List<SourceStmt>, ReadError>
    ensures read { Gives (λ b. block_of (items_of b)) result (lexemes reader.new.rest.now)
        ((grammar.maybe_action usual (counts_of reader.old.counts)).reads
        (lexemes reader.old.rest.now)) }
    ensures counts { IfOk result (λ b. counts_of reader.new.counts
        ≡ grammar.after_stmts (counts_of reader.old.counts) (block_of (items_of b))) }
{
    if reader.is_at(Kind::Slash) {
        action(reader)
    } else {
        Ok(List::of(Vec::new(reader.alloc)))
    }
}

/// The destination of a transition, after its arrow.
#[tactic(auto, unfolding(crate::specs::Parts::arrow_dest))]
fn arrow_dest(reader: &mut Reader<'_, '_>) -> Result<DestText, ReadError>
    ensures read { (make : Dest → Counted Trans) → Gives (λ d. make (dest_of d)) result
        (lexemes reader.new.rest.now)
        ((parts.arrow_dest make).reads (lexemes reader.old.rest.now)) }
    ensures counts { reader.new.counts ≡ reader.old.counts }
{
    reader.token(Kind::Arrow)?;
    let dest = reader.dest()?;
    reader.closed_by(Kind::Semicolon, dest)
}

/// What follows the cases of a transition.
#[tactic(auto, unfolding(crate::specs::Parts::trans_rest))]
fn trans_end(reader: &mut Reader<'_, '_>) -> Result<TransEnd, ReadError>
    ensures { (at : SpanShown) (cases : ListShown CaseShown)
        → Gives (λ e. record { value = trans_with at cases e; counts = counts_of reader.new.counts })
        result (lexemes reader.new.rest.now)
        ((parts.trans_rest (counts_of reader.old.counts) at cases).reads
        (lexemes reader.old.rest.now)) }
{
    let cond = maybe_block(reader)?;
    let act = maybe_action(reader)?;
    let dest = arrow_dest(reader)?;
    Ok(TransEnd { cond, act, dest })
}

/// A transition, which gets that place.
fn trans(reader: &mut Reader<'_, '_>, at: Span) -> Result<SourceTrans, ReadError>
    ensures { Gives (λ t. record { value = trans_of t; counts = counts_of reader.new.counts })
        result (lexemes reader.new.rest.now)
        ((grammar.trans usual (counts_of reader.old.counts) at).reads
        (lexemes reader.old.rest.now)) }
{
    let cases = maybe_when(reader)?;
    let end = trans_end(reader)?;
    Ok(SourceTrans {
        at,
        cases,
        cond: end.cond,
        act: end.act,
        dest: end.dest,
    })
}

/// The place of the token at hand.
fn place(reader: &Reader<'_, '_>) -> Span
    ensures { result ≡ first_place (lexemes reader.now.rest.now) }
{
    match reader.rest {
        [token, ..] => token.at,
        [] => Span { line: 0, column: 0 },
    }
}

/// One more transition, at the place of its first token.
fn one_trans(reader: &mut Reader<'_, '_>) -> Result<SourceTrans, ReadError>
    requires { transition_refused usual (counts_of reader.old.counts) ≡ None }
    ensures { Gives (λ t. record { value = trans_of t; counts = counts_of reader.new.counts })
        result (lexemes reader.new.rest.now)
        ((at_first (grammar.trans usual (after_transition (counts_of reader.old.counts)))).reads
        (lexemes reader.old.rest.now)) }
{
    let at = place(reader);
    reader.counts = reader.counts.after_transition();
    trans(reader, at)
}

/// The fault of a word that begins no case.
fn no_event(token: Token<'_>) -> Option<TokenFault>
    ensures { result ≡ grammar.no_event (lexeme token.entry) }
{
    if token.kind != Kind::Tick {
        return None;
    }
    match word_of(token.text) {
        Some(Word::After | Word::Before | Word::At | Word::Every) => None,
        _ => Some(TokenFault::Expected),
    }
}

/// The fault of a token that begins a transition of a junction, with these counts before it.
fn begin_refused(token: Token<'_>, counts: Counts) -> Option<TokenFault>
    ensures { result ≡ first_of (grammar.no_event (lexeme token.entry))
        (transition_refused usual (counts_of counts)) }
{
    match no_event(token) {
        Some(fault) => Some(fault),
        None => counts.transition_refused(),
    }
}

/// The fault of the token at hand, where it begins a transition of a junction.
fn trans_refused(reader: &Reader<'_, '_>) -> Option<TokenFault>
    ensures { result ≡ first_refused grammar.trans_heads
        (λ t. first_of (grammar.no_event t) (transition_refused usual (counts_of reader.now.counts)))
        (lexemes reader.now.rest.now) }
{
    if !reader.is_at_one_of(Group::Transitions) {
        return None;
    }
    match reader.rest {
        [token, ..] => begin_refused(*token, reader.counts),
        [] => None,
    }
}

/// A transition of a junction, at the place of its first token.
#[tactic(auto, unfolding(statechart_grammar::specs::Transitions::junction_trans))]
pub fn junction_trans(reader: &mut Reader<'_, '_>) -> Result<SourceTrans, ReadError>
    ensures { Gives (λ t. record { value = trans_of t; counts = counts_of reader.new.counts })
        result (lexemes reader.new.rest.now)
        ((grammar.junction_trans usual (counts_of reader.old.counts)).reads
        (lexemes reader.old.rest.now)) }
{
    match trans_refused(reader) {
        Some(fault) => Err(ReadError::Fault(fault)),
        None if reader.is_at_one_of(Group::Transitions) => one_trans(reader),
        None => Err(ReadError::Fault(TokenFault::Expected)),
    }
}

/// The keyword of one more transition.
fn keyword<'a>(reader: &mut Reader<'_, 'a>, kind: Kind) -> Result<Token<'a>, ReadError>
    ensures read { Gives lexeme result (lexemes reader.new.rest.now)
        ((allowed (is kind) (λ t. transition_refused usual (counts_of reader.old.counts))
        (one_of (is kind))).reads (lexemes reader.old.rest.now)) }
    ensures counts { reader.new.counts ≡ reader.old.counts }
    ensures room { OnOk result
        (transition_refused usual (counts_of reader.old.counts) ≡ None) }
{
    let refused = reader.counts.transition_refused();
    reader.allowed_token(kind, refused)
}

/// A transition of a state, at the place of its keyword.
///
/// One that is too many is refused at its keyword.
#[tactic(auto, unfolding(statechart_grammar::specs::Transitions::keyword_trans))]
pub fn keyword_trans(reader: &mut Reader<'_, '_>, kind: Kind) -> Result<SourceTrans, ReadError>
    ensures { Gives (λ t. record { value = trans_of t; counts = counts_of reader.new.counts })
        result (lexemes reader.new.rest.now)
        ((grammar.keyword_trans usual (is kind) (counts_of reader.old.counts)).reads
        (lexemes reader.old.rest.now)) }
{
    let at = keyword(reader, kind)?.at;
    reader.counts = reader.counts.after_transition();
    trans(reader, at)
}
