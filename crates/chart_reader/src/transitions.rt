//! Transitions, a method for each production of the grammar.
ghost use Rattle.std.specs.Prelude.{◌≡◌, Option, None, IfOk, OnOk};
ghost use Rattle.std.specs.Option.{option_map};
ghost use Rattle.token_grammar.specs.declared.token.Span.{Span as SpanShown};
ghost use Rattle.token_grammar.specs.Token.{lexeme, lexemes, Gives};
ghost use Rattle.token_grammar.specs.Grammar.{is, one_of, allowed, at_first, first_place};
ghost use Rattle.flow_base.specs.Lists.{items_of};
ghost use Rattle.chart_tree.specs.declared.name.NameText.{NameText as NameShown};
ghost use Rattle.chart_tree.specs.Trees.{Dest, Guard, Trans};
ghost use Rattle.chart_tree.specs.Views.{block_of, dest_of, guard_of, trans_of};
ghost use Rattle.chart_grammar.specs.Limits.{Counted, usual, transition_refused, after_transition};
ghost use Rattle.chart_grammar.specs.Transitions as grammar;
ghost use Rattle.chart_reader.specs.Counts.{counts_of};
ghost use Rattle.chart_reader.specs.Ends.{trans_with};
ghost use Rattle.chart_reader.specs.Parts as parts;

use crate::group::Group;
use crate::reader::Reader;
use chart_tree::{DestText, GuardText, NameText, StmtText, TransText};
use flow_base::List;
use token_grammar::{Kind, ReadError, Span, Token, TokenFault};

/// What follows the event and the guard of a transition.
#[derive(Drop)]
pub(crate) struct TransEnd {
    pub cond: List<StmtText>,
    pub act: List<StmtText>,
    pub dest: DestText,
}

impl<'t, 'a> Reader<'t, 'a> {
    #[tactic(auto, unfolding(chart_grammar::specs::Transitions::to_junction))]
    fn to_junction(&mut self) -> Result<DestText, ReadError>
        ensures read { Gives dest_of result (lexemes self.new.rest.now)
            (grammar.to_junction.reads (lexemes self.old.rest.now)) }
        ensures counts { self.new.counts ≡ self.old.counts }
    {
        self.token(Kind::At)?;
        Ok(DestText::Junction(self.name()?))
    }

    #[tactic(auto, unfolding(chart_grammar::specs::Transitions::to_state))]
    fn to_state(&mut self) -> Result<DestText, ReadError>
        ensures read { Gives dest_of result (lexemes self.new.rest.now)
            (grammar.to_state.reads (lexemes self.old.rest.now)) }
        ensures counts { self.new.counts ≡ self.old.counts }
    {
        Ok(DestText::State(self.path()?))
    }

    #[tactic(auto, unfolding(chart_grammar::specs::Transitions::dest))]
    fn dest(&mut self) -> Result<DestText, ReadError>
        ensures read { Gives dest_of result (lexemes self.new.rest.now)
            (grammar.dest.reads (lexemes self.old.rest.now)) }
        ensures counts { self.new.counts ≡ self.old.counts }
    {
        if self.is_at(Kind::At) {
            self.to_junction()
        } else {
            self.to_state()
        }
    }

    #[tactic(auto, unfolding(chart_grammar::specs::Transitions::guard))]
    fn guard(&mut self) -> Result<GuardText, ReadError>
        ensures read { Gives guard_of result (lexemes self.new.rest.now)
            ((grammar.guard usual).reads (lexemes self.old.rest.now)) }
        ensures counts { self.new.counts ≡ self.old.counts }
    {
        let at = self.token(Kind::OpenBracket)?.at;
        let expr = self.expr()?;
        self.closed_by(Kind::CloseBracket, GuardText { expr, at })
    }

    #[tactic(auto, unfolding(chart_grammar::specs::Transitions::maybe_event))]
    fn maybe_event(&mut self) -> Result<Option<NameText>, ReadError>
        ensures read { Gives (λ n. n) result (lexemes self.new.rest.now)
            (grammar.maybe_event.reads (lexemes self.old.rest.now)) }
        ensures counts { self.new.counts ≡ self.old.counts }
    {
        if self.is_at(Kind::Name) {
            Ok(Some(self.name()?))
        } else {
            Ok(None)
        }
    }

    #[tactic(auto, unfolding(chart_grammar::specs::Transitions::maybe_guard))]
    fn maybe_guard(&mut self) -> Result<Option<GuardText>, ReadError>
        ensures read { Gives (option_map guard_of) result (lexemes self.new.rest.now)
            ((grammar.maybe_guard usual).reads (lexemes self.old.rest.now)) }
        ensures counts { self.new.counts ≡ self.old.counts }
    {
        if self.is_at(Kind::OpenBracket) {
            Ok(Some(self.guard()?))
        } else {
            Ok(None)
        }
    }

    #[tactic(auto, unfolding(chart_grammar::specs::Transitions::maybe_block))]
    fn maybe_block(&mut self) -> Result<List<StmtText>, ReadError>
        ensures read { Gives (λ b. block_of (items_of b)) result (lexemes self.new.rest.now)
            ((grammar.maybe_block usual (counts_of self.old.counts)).reads
            (lexemes self.old.rest.now)) }
        ensures counts { IfOk result (λ b. counts_of self.new.counts
            ≡ grammar.after_stmts (counts_of self.old.counts) (block_of (items_of b))) }
    {
        if self.is_at(Kind::OpenBrace) {
            self.block()
        } else {
            Ok(List::of(Vec::new(self.alloc)))
        }
    }

    #[tactic(auto, unfolding(chart_grammar::specs::Transitions::action))]
    fn action(&mut self) -> Result<List<StmtText>, ReadError>
        ensures read { Gives (λ b. block_of (items_of b)) result (lexemes self.new.rest.now)
            ((grammar.action usual (counts_of self.old.counts)).reads
            (lexemes self.old.rest.now)) }
        ensures counts { IfOk result (λ b. counts_of self.new.counts
            ≡ grammar.after_stmts (counts_of self.old.counts) (block_of (items_of b))) }
    {
        self.token(Kind::Slash)?;
        self.block()
    }

    #[tactic(auto, unfolding(chart_grammar::specs::Transitions::maybe_action))]
    fn maybe_action(&mut self) -> Result<List<StmtText>, ReadError>
        ensures read { Gives (λ b. block_of (items_of b)) result (lexemes self.new.rest.now)
            ((grammar.maybe_action usual (counts_of self.old.counts)).reads
            (lexemes self.old.rest.now)) }
        ensures counts { IfOk result (λ b. counts_of self.new.counts
            ≡ grammar.after_stmts (counts_of self.old.counts) (block_of (items_of b))) }
    {
        if self.is_at(Kind::Slash) {
            self.action()
        } else {
            Ok(List::of(Vec::new(self.alloc)))
        }
    }

    /// The destination of a transition, after its arrow.
    #[tactic(auto, unfolding(crate::specs::Parts::arrow_dest))]
    fn arrow_dest(&mut self) -> Result<DestText, ReadError>
        ensures read { (make : Dest → Counted Trans) → Gives (λ d. make (dest_of d)) result
            (lexemes self.new.rest.now)
            ((parts.arrow_dest make).reads (lexemes self.old.rest.now)) }
        ensures counts { self.new.counts ≡ self.old.counts }
    {
        self.token(Kind::Arrow)?;
        let dest = self.dest()?;
        self.closed_by(Kind::Semicolon, dest)
    }

    /// What follows the event and the guard of a transition.
    #[tactic(auto, unfolding(crate::specs::Parts::trans_rest))]
    fn trans_end(&mut self) -> Result<TransEnd, ReadError>
        ensures { (at : SpanShown) (event : Option NameShown) (guard : Option Guard)
            → Gives (λ e. record { value = trans_with at event guard e; counts = counts_of self.new.counts })
            result (lexemes self.new.rest.now)
            ((parts.trans_rest (counts_of self.old.counts) at event guard).reads
            (lexemes self.old.rest.now)) }
    {
        let cond = self.maybe_block()?;
        let act = self.maybe_action()?;
        let dest = self.arrow_dest()?;
        Ok(TransEnd { cond, act, dest })
    }

    /// A transition with this event and this guard, after both of them.
    fn trans_rest(
        &mut self,
        at: Span,
        event: Option<NameText>,
        guard: Option<GuardText>,
    ) -> Result<TransText, ReadError>
        ensures { Gives (λ t. record { value = trans_of t; counts = counts_of self.new.counts })
            result (lexemes self.new.rest.now)
            ((parts.trans_rest (counts_of self.old.counts) at event
            (option_map guard_of guard)).reads (lexemes self.old.rest.now)) }
    {
        match self.trans_end() {
            Ok(end) => Ok(TransText {
                at,
                event,
                guard,
                cond: end.cond,
                act: end.act,
                dest: end.dest,
            }),
            Err(fault) => {
                drop(guard);
                drop(event);
                Err(fault)
            }
        }
    }

    /// A transition, which gets that place.
    #[tactic(auto, unfolding(chart_grammar::specs::Transitions::trans, crate::specs::Parts::trans_rest, crate::specs::Parts::arrow_dest))]
    pub fn trans(&mut self, at: Span) -> Result<TransText, ReadError>
        ensures { Gives (λ t. record { value = trans_of t; counts = counts_of self.new.counts })
            result (lexemes self.new.rest.now)
            ((grammar.trans usual (counts_of self.old.counts) at).reads
            (lexemes self.old.rest.now)) }
    {
        let event = self.maybe_event()?;
        let guard = self.maybe_guard()?;
        self.trans_rest(at, event, guard)
    }

    /// The place of the token at hand.
    fn place(&self) -> Span
        ensures { result ≡ first_place (lexemes self.now.rest.now) }
    {
        match self.rest {
            [token, ..] => token.at,
            [] => Span { line: 0, column: 0 },
        }
    }

    /// One more transition, at the place of its first token.
    fn one_trans(&mut self) -> Result<TransText, ReadError>
        requires { transition_refused usual (counts_of self.old.counts) ≡ None }
        ensures { Gives (λ t. record { value = trans_of t; counts = counts_of self.new.counts })
            result (lexemes self.new.rest.now)
            ((at_first (grammar.trans usual (after_transition (counts_of self.old.counts)))).reads
            (lexemes self.old.rest.now)) }
    {
        let at = self.place();
        self.counts = self.counts.after_transition();
        self.trans(at)
    }

    /// A transition of a junction, at the place of its first token.
    #[tactic(auto, unfolding(chart_grammar::specs::Transitions::junction_trans))]
    pub fn junction_trans(&mut self) -> Result<TransText, ReadError>
        ensures { Gives (λ t. record { value = trans_of t; counts = counts_of self.new.counts })
            result (lexemes self.new.rest.now)
            ((grammar.junction_trans usual (counts_of self.old.counts)).reads
            (lexemes self.old.rest.now)) }
    {
        match self.counts.transition_refused() {
            None => self.one_trans(),
            Some(fault) if self.is_at_one_of(Group::Transitions) => Err(ReadError::Fault(fault)),
            Some(_) => Err(ReadError::Fault(TokenFault::Expected)),
        }
    }

    /// The keyword of one more transition.
    fn keyword(&mut self, kind: Kind) -> Result<Token<'a>, ReadError>
        ensures read { Gives lexeme result (lexemes self.new.rest.now)
            ((allowed (is kind) (λ t. transition_refused usual (counts_of self.old.counts))
            (one_of (is kind))).reads (lexemes self.old.rest.now)) }
        ensures counts { self.new.counts ≡ self.old.counts }
        ensures room { OnOk result
            (transition_refused usual (counts_of self.old.counts) ≡ None) }
    {
        let refused = self.counts.transition_refused();
        self.allowed_token(kind, refused)
    }

    /// A transition of a state, at the place of its keyword.
    #[tactic(auto, unfolding(chart_grammar::specs::Transitions::keyword_trans))]
    pub fn keyword_trans(&mut self, kind: Kind) -> Result<TransText, ReadError>
        ensures { Gives (λ t. record { value = trans_of t; counts = counts_of self.new.counts })
            result (lexemes self.new.rest.now)
            ((grammar.keyword_trans usual (is kind) (counts_of self.old.counts)).reads
            (lexemes self.old.rest.now)) }
    {
        let at = self.keyword(kind)?.at;
        self.counts = self.counts.after_transition();
        self.trans(at)
    }
}
