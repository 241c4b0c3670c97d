//! An active configuration that is copied and compared.
ghost use Rattle.std.specs.Prelude.{◌≡◌, IfOk, IfErr};
ghost use Rattle.std.specs.Bool.{OnTrue};
ghost use Rattle.active_config.specs.Tree.{state_count};
ghost use Rattle.active_config.specs.Marks as spec;

use crate::declared::Gap;
use active_config::Shape;
use std::alloc::Global;
use std::marker::Model;

/// What is active and remembered, in a set of worlds. Contracts see it as a `Configuration`.
#[derive(Drop)]
pub struct Config {
    flags: Vec<bool>,
    last: Vec<Option<u32>>,
}

impl Model for Config {
    ghost use Rattle.active_config.specs.Marks.{Configuration};

    ghost Value = { Configuration };

    ghost view = { λ c. record { flags = c.flags.items; last = c.last.items } };
}

impl Config {
    /// The configuration in which no state is active and none remembers a child. The only gap is
    /// `Memory`.
    #[tactic(auto, unfolding(active_config::specs::Marks::no_marks))]
    pub fn none(alloc: Global, shape: &Shape) -> Result<Config, Gap>
        ensures none { IfOk result (λ c. c ≡ spec.no_marks shape.now) }
        ensures memory { IfErr result (λ gap. gap ≡ Gap.Memory) }
    {
        let states = shape.len() as usize;
        match vec![in alloc; false; states] {
            Err(_) => Err(Gap::Memory),
            Ok(flags) => match vec![in alloc; None; states] {
                Err(_) => Err(Gap::Memory),
                Ok(last) => Ok(Config { flags, last }),
            },
        }
    }

    /// The same configuration once more. The only gap is `Memory`.
    pub fn copied(&self, alloc: Global) -> Result<Config, Gap>
        ensures same { IfOk result (λ c. c ≡ self.now) }
        ensures memory { IfErr result (λ gap. gap ≡ Gap.Memory) }
    {
        let mut flags = Vec::new(alloc);
        let mut last = Vec::new(alloc);
        match flags.extend_from_slice(&self.flags) {
            Err(_) => Err(Gap::Memory),
            Ok(()) => match last.extend_from_slice(&self.last) {
                Err(_) => Err(Gap::Memory),
                Ok(()) => Ok(Config { flags, last }),
            },
        }
    }

    /// Whether it is the other one: the same states are active, and each state remembers the same
    /// child, or none in both. The contract says what `true` means.
    pub fn same(&self, other: &Config) -> bool
        ensures { OnTrue result (self.now ≡ other.now) }
    {
        same_flags(&self.flags, &other.flags) && same_last(&self.last, &other.last)
    }

    /// Whether a state is active. A number that is no state isn't.
    #[tactic(auto, unfolding(active_config::specs::Marks::is_on))]
    pub fn on(&self, state: u32) -> bool
        ensures { result ≡ spec.is_on state self.now }
    {
        match self.flags.get(state as usize) {
            None => false,
            Some(on) => *on,
        }
    }

    /// The child that a state remembers, if any. A number that is no state remembers none.
    #[tactic(auto, unfolding(active_config::specs::Marks::last_of))]
    pub fn last(&self, state: u32) -> Option<u32>
        ensures { result ≡ spec.last_of state self.now }
    {
        match self.last.get(state as usize) {
            None => None,
            Some(child) => *child,
        }
    }

    /// Makes a state active or inactive. At a number that is no state nothing changes.
    #[tactic(auto, unfolding(active_config::specs::Marks::with_mark))]
    pub fn set(&mut self, state: u32, on: bool)
        ensures { self.new ≡ spec.with_mark state on self.old }
    {
        let state = state as usize;
        if state < self.flags.len() {
            self.flags[state] = on;
        }
    }

    /// Makes a state remember a child. Without a state, and at a number that is no state, nothing
    /// changes.
    pub fn keep(&mut self, parent: Option<u32>, state: u32)
        ensures { self.new ≡ record self.old { last = spec.remember parent state self.old.last } }
    {
        match parent {
            None => {}
            Some(parent) => {
                let parent = parent as usize;
                if parent < self.last.len() {
                    self.last[parent] = Some(state);
                }
            }
        }
    }
}

/// Whether two lists of flags are the same.
fn same_flags(a: &[bool], b: &[bool]) -> bool
    ensures { OnTrue result (a.now ≡ b.now) }
{
    a == b
}

/// Whether two states, or none, are the same.
fn same_state(a: Option<u32>, b: Option<u32>) -> bool
    ensures { OnTrue result (a ≡ b) }
{
    match (a, b) {
        (None, None) => true,
        (Some(x), Some(y)) => x == y,
        _ => false,
    }
}

/// Whether two lists of states are the same.
fn same_last(a: &[Option<u32>], b: &[Option<u32>]) -> bool
    ensures { OnTrue result (a.now ≡ b.now) }
{
    if a.len() != b.len() {
        return false;
    }
    for i in 0..a.len() {
        if !same_state(a[i], b[i]) {
            return false;
        }
    }
    true
}
