//! Cases: in which a transition is tried, or an action done.
ghost use Rattle.std.specs.Prelude.{◌≡◌, map};
ghost use Rattle.std.specs.Option.{option_map};
ghost use Rattle.token_grammar.specs.declared.token.Kind.TheVariants as kinds;
ghost use Rattle.token_grammar.specs.Token.{lexemes, Gives};
ghost use Rattle.token_grammar.specs.Grammar.{is, optional};
ghost use Rattle.flow_base.specs.Lists.{items_of};
ghost use Rattle.statechart_tree.specs.Views.{guard_of, case_of};
ghost use Rattle.chart_grammar.specs.Limits.{usual};
ghost use Rattle.statechart_grammar.specs.Transitions as grammar;

use crate::events::event;
use flow_base::List;
use statechart_operands::expr;
use statechart_tokens::{Group, Reader};
use statechart_tree::{Case, SourceGuard, Trigger};
use token_grammar::{Kind, ReadError};

#[tactic(auto, unfolding(statechart_grammar::specs::Transitions::guard))]
fn guard(reader: &mut Reader<'_, '_>) -> Result<SourceGuard, ReadError>
    ensures read { Gives guard_of result (lexemes reader.new.rest.now)
        ((grammar.guard usual).reads (lexemes reader.old.rest.now)) }
    ensures counts { reader.new.counts ≡ reader.old.counts }
{
    let at = reader.token(Kind::OpenBracket)?.at;
    let expr = expr(reader)?;
    reader.closed_by(Kind::CloseBracket, SourceGuard { expr, at })
}

/// The guard of a case, where a bracket is at hand.
fn maybe_guard(reader: &mut Reader<'_, '_>) -> Result<Option<SourceGuard>, ReadError>
    ensures read { Gives (option_map guard_of) result (lexemes reader.new.rest.now)
        ((optional (is kinds.OpenBracket) (grammar.guard usual)).reads
        (lexemes reader.old.rest.now)) }
    ensures counts { reader.new.counts ≡ reader.old.counts }
{
    if reader.is_at(Kind::OpenBracket) {
        Ok(Some(guard(reader)?))
    } else {
        Ok(None)
    }
}

/// An event, and the guard if there is one.
#[tactic(auto, unfolding(statechart_grammar::specs::Transitions::event_case))]
fn event_case(reader: &mut Reader<'_, '_>) -> Result<Case, ReadError>
    ensures read { Gives case_of result (lexemes reader.new.rest.now)
        ((grammar.event_case usual).reads (lexemes reader.old.rest.now)) }
    ensures counts { reader.new.counts ≡ reader.old.counts }
{
    let trigger = event(reader)?;
    match maybe_guard(reader) {
        Ok(guard) => Ok(Case { trigger, guard }),
        Err(fault) => {
            drop(trigger);
            Err(fault)
        }
    }
}

/// A guard alone.
#[tactic(auto, unfolding(statechart_grammar::specs::Transitions::guard_case))]
fn guard_case(reader: &mut Reader<'_, '_>) -> Result<Case, ReadError>
    ensures read { Gives case_of result (lexemes reader.new.rest.now)
        ((grammar.guard_case usual).reads (lexemes reader.old.rest.now)) }
    ensures counts { reader.new.counts ≡ reader.old.counts }
{
    let guard = guard(reader)?;
    Ok(Case {
        trigger: Trigger::Always,
        guard: Some(guard),
    })
}

#[tactic(auto, unfolding(statechart_grammar::specs::Transitions::case))]
fn case(reader: &mut Reader<'_, '_>) -> Result<Case, ReadError>
    ensures read { Gives case_of result (lexemes reader.new.rest.now)
        ((grammar.case usual).reads (lexemes reader.old.rest.now)) }
    ensures counts { reader.new.counts ≡ reader.old.counts }
{
    if reader.is_at(Kind::OpenBracket) {
        guard_case(reader)
    } else {
        event_case(reader)
    }
}

/// One more case, behind its bar.
#[tactic(auto, unfolding(statechart_grammar::specs::Transitions::next_case))]
fn next_case(reader: &mut Reader<'_, '_>) -> Result<Case, ReadError>
    ensures read { Gives case_of result (lexemes reader.new.rest.now)
        ((grammar.next_case usual).reads (lexemes reader.old.rest.now)) }
    ensures counts { reader.new.counts ≡ reader.old.counts }
{
    reader.spelled(Kind::Comment, b"|")?;
    case(reader)
}

/// Cases in order, at least one.
fn cases(reader: &mut Reader<'_, '_>) -> Result<Vec<Case>, ReadError>
    ensures read { Gives (λ v. map case_of v.items) result (lexemes reader.new.rest.now)
        ((grammar.when usual).reads (lexemes reader.old.rest.now)) }
    ensures counts { reader.new.counts ≡ reader.old.counts }
{
    let first = case(reader)?;
    let mut found = Vec::new(reader.alloc);
    found.push(first)?;
    'items: while reader.is_at(Kind::Comment) {
        let item = next_case(reader)?;
        found.push(item)?;
    }
    Ok(found)
}

/// Cases in order, at least one.
pub fn when(reader: &mut Reader<'_, '_>) -> Result<List<Case>, ReadError>
    ensures read { Gives (λ l. map case_of (items_of l)) result (lexemes reader.new.rest.now)
        ((grammar.when usual).reads (lexemes reader.old.rest.now)) }
    ensures counts { reader.new.counts ≡ reader.old.counts }
{
    Ok(List::of(cases(reader)?))
}

/// The one case of a transition without any: no event and no guard.
fn no_case() -> Case
    ensures { case_of result ≡ grammar.no_case }
{
    Case {
        trigger: Trigger::Always,
        guard: None,
    }
}

/// The cases of a transition. One that is written without any has a single one, without event and
/// guard.
#[tactic(auto, unfolding(statechart_grammar::specs::Transitions::maybe_when))]
pub fn maybe_when(reader: &mut Reader<'_, '_>) -> Result<List<Case>, ReadError>
    ensures read { Gives (λ l. map case_of (items_of l)) result (lexemes reader.new.rest.now)
        ((grammar.maybe_when usual).reads (lexemes reader.old.rest.now)) }
    ensures counts { reader.new.counts ≡ reader.old.counts }
{
    if reader.is_at_one_of(Group::Cases) {
        return when(reader);
    }
    let mut found = Vec::new(reader.alloc);
    found.push(no_case())?;
    Ok(List::of(found))
}
