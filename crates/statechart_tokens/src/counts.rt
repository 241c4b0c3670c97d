//! How many things have begun, and whether one more is too many.
ghost use Rattle.std.specs.Prelude.{◌≡◌, None};
ghost use Rattle.chart_grammar.specs.Limits as spec;
ghost use Rattle.chart_grammar.specs.Limits.{usual};
ghost use Rattle.chart_grammar.specs.States as states;
ghost use Rattle.statechart_tokens.specs.Counts.{counts_of};

use flow_base::chart_limits::{
    EVENT_LIMIT, ITEM_LIMIT, JUNCTION_LIMIT, OPERATOR_LIMIT, STATE_LIMIT, STATEMENT_LIMIT,
    TRANSITION_LIMIT, VARIABLE_LIMIT,
};
use token_grammar::{Thing, TokenFault};

/// How many things have begun so far.
#[derive(Clone, Copy)]
pub struct Counts {
    pub states: u32,
    pub junctions: u32,
    pub transitions: u32,
    pub variables: u32,
    pub events: u32,
    pub items: u32,
}

/// How many of a thing there may be.
fn most(thing: Thing) -> u32
    ensures { result ≡ spec.most thing }
{
    match thing {
        Thing::States => STATE_LIMIT,
        Thing::Junctions => JUNCTION_LIMIT,
        Thing::Transitions => TRANSITION_LIMIT,
        Thing::Variables => VARIABLE_LIMIT,
        Thing::Events => EVENT_LIMIT,
        Thing::Statements => STATEMENT_LIMIT,
        Thing::Operators => OPERATOR_LIMIT,
        Thing::Items => ITEM_LIMIT,
    }
}

/// What is wrong with one more of a thing where there are `count`.
pub fn one_more(thing: Thing, count: u32) -> Option<TokenFault>
    ensures { result ≡ spec.one_more usual thing count }
{
    if count < most(thing) {
        None
    } else {
        Some(TokenFault::TooMany(thing))
    }
}

impl Counts {
    /// The counts before the items of a chart, which counts as a state.
    pub fn at_begin() -> Counts
        ensures { counts_of result ≡ states.at_begin }
    {
        Counts {
            states: 1,
            junctions: 0,
            transitions: 0,
            variables: 0,
            events: 0,
            items: 1,
        }
    }

    /// What is wrong with one more of a thing where there are `count`, which is one more item too.
    fn one_more_item(self, thing: Thing, count: u32) -> Option<TokenFault>
        ensures { result ≡ spec.one_more_item usual thing count (counts_of self) }
    {
        match one_more(thing, count) {
            None => one_more(Thing::Items, self.items),
            Some(fault) => Some(fault),
        }
    }

    /// The fault of one more state.
    pub fn state_refused(self) -> Option<TokenFault>
        ensures { result ≡ spec.state_refused usual (counts_of self) }
    {
        self.one_more_item(Thing::States, self.states)
    }

    /// The fault of one more junction.
    pub fn junction_refused(self) -> Option<TokenFault>
        ensures { result ≡ spec.junction_refused usual (counts_of self) }
    {
        self.one_more_item(Thing::Junctions, self.junctions)
    }

    /// The fault of one more transition.
    pub fn transition_refused(self) -> Option<TokenFault>
        ensures { result ≡ spec.transition_refused usual (counts_of self) }
    {
        self.one_more_item(Thing::Transitions, self.transitions)
    }

    /// The fault of one more datum.
    pub fn variable_refused(self) -> Option<TokenFault>
        ensures { result ≡ spec.variable_refused usual (counts_of self) }
    {
        self.one_more_item(Thing::Variables, self.variables)
    }

    /// The fault of one more event.
    pub fn event_refused(self) -> Option<TokenFault>
        ensures { result ≡ spec.event_refused usual (counts_of self) }
    {
        self.one_more_item(Thing::Events, self.events)
    }

    /// The fault of one more statement in a block that has `before` of them.
    pub fn statement_refused(self, before: u32) -> Option<TokenFault>
        ensures { result ≡ spec.statement_refused usual before (counts_of self) }
    {
        self.one_more_item(Thing::Statements, before)
    }

    /// One more state.
    pub fn after_state(self) -> Counts
        requires { spec.state_refused usual (counts_of self) ≡ None }
        ensures { counts_of result ≡ spec.after_state (counts_of self) }
    {
        Counts {
            states: self.states + 1,
            items: self.items + 1,
            ..self
        }
    }

    /// One more junction.
    pub fn after_junction(self) -> Counts
        requires { spec.junction_refused usual (counts_of self) ≡ None }
        ensures { counts_of result ≡ spec.after_junction (counts_of self) }
    {
        Counts {
            junctions: self.junctions + 1,
            items: self.items + 1,
            ..self
        }
    }

    /// One more transition.
    pub fn after_transition(self) -> Counts
        requires { spec.transition_refused usual (counts_of self) ≡ None }
        ensures { counts_of result ≡ spec.after_transition (counts_of self) }
    {
        Counts {
            transitions: self.transitions + 1,
            items: self.items + 1,
            ..self
        }
    }

    /// One more datum.
    pub fn after_variable(self) -> Counts
        requires { spec.variable_refused usual (counts_of self) ≡ None }
        ensures { counts_of result ≡ spec.after_variable (counts_of self) }
    {
        Counts {
            variables: self.variables + 1,
            items: self.items + 1,
            ..self
        }
    }

    /// One more event.
    pub fn after_event(self) -> Counts
        requires { spec.event_refused usual (counts_of self) ≡ None }
        ensures { counts_of result ≡ spec.after_event (counts_of self) }
    {
        Counts {
            events: self.events + 1,
            items: self.items + 1,
            ..self
        }
    }
}
