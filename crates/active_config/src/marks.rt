//! The active configuration.
use crate::bit_list::BitList;
use crate::comp::Comp;
use crate::shape::Shape;
use crate::tables::no_states;
use flow_base::Memory;
use std::alloc::Global;
use std::marker::Model;

/// The active configuration of a shape: the set of its active states, and the child that each OR
/// remembers, if any. Contracts see it as a `Configuration`.
#[derive(Drop)]
pub struct Marks {
    flags: BitList,
    last: Vec<Option<u32>>,
}

impl Model for Marks {
    ghost use Rattle.active_config.specs.Marks.{Configuration};

    ghost Value = { Configuration };

    ghost view = { λ m. record { flags = m.flags; last = m.last.items } };
}

impl Marks {
    ghost use Rattle.std.specs.Prelude.{
      ◌≡◌,
      ℕ,
      ◌<◌,
      ◌≤◌,
      true,
      false,
      IsTrue,
      IfOk,
      IfSome,
      IsSomeAnd,
      Some,
      None,
    };
    ghost use Rattle.active_config.specs.declared.comp.Comp.TheVariants.{Or};
    ghost use Rattle.active_config.specs.Tree.{state_count, comp_of, parent_of};
    ghost use Rattle.active_config.specs.Marks as spec;

    /// The configuration in which no state is active and none remembers a child.
    pub fn make(alloc: Global, shape: &Shape) -> Result<Marks, Memory>
        ensures none { IfOk result (λ marks. marks ≡ spec.no_marks shape.now) }
        ensures consistent { IfOk result (λ marks. spec.IsConsistent shape.now marks) }
    {
        let states = shape.len();
        let flags = BitList::make(alloc, states)?;
        let last = no_states(alloc, states as usize)?;
        Ok(Marks { flags, last })
    }

    /// Whether a state is active.
    pub fn on(&self, state: u32) -> bool
        requires { state < spec.mark_count self.now }
        ensures { result ≡ spec.is_on state self.now }
    {
        self.flags.get(state)
    }

    /// The first active state from a number on, if there is one. It takes no memory.
    pub fn next_on(&self, from: u32) -> Option<u32>
        requires { from ≤ spec.mark_count self.now }
        ensures next { result ≡ spec.next_on from self.now }
        ensures within { IfSome result (λ state. (from ≤ state) × (state < spec.mark_count self.now)) }
        ensures on { IfSome result (λ state. spec.is_on state self.now ≡ true) }
        ensures first { IfSome result (λ state. (x : ℕ) → from ≤ x → x < state
            → spec.is_on x self.now ≡ false) }
        ensures none { result ≡ None → (x : ℕ) → from ≤ x → spec.is_on x self.now ≡ false }
    {
        self.flags.first_on(from, self.flags.len())
    }

    /// Whether a state is active and none of its children is.
    pub fn bare(&self, shape: &Shape, state: u32) -> bool
        requires state { state < state_count shape.now }
        requires consistent { spec.IsConsistent shape.now self.now }
        ensures { result ≡ spec.is_bare shape.now state self.now }
    {
        self.on(state) && self.active_child(shape, state).is_none()
    }

    /// The first active child of a state, if there is one. An OR has at most one.
    pub fn active_child(&self, shape: &Shape, state: u32) -> Option<u32>
        requires state { state < state_count shape.now }
        requires consistent { spec.IsConsistent shape.now self.now }
        ensures child { result ≡ spec.active_child shape.now state self.now }
        ensures after { IfSome result (λ child. (state < child) × (child < state_count shape.now)) }
    {
        // The parent of an active state is active, so the first active one below is a child.
        let end = shape.subtree_end(state);
        self.flags.first_on(state + 1, end)
    }

    /// Whether a state can become active: it isn't active, and its parent, if it has one, is, and
    /// is bare where it is an OR.
    #[tactic(auto, unfolding(crate::specs::Marks::can_mark))]
    #[inline(always)]
    pub fn can_mark(&self, shape: &Shape, state: u32) -> bool
        requires state { state < state_count shape.now }
        requires consistent { spec.IsConsistent shape.now self.now }
        ensures { result ≡ spec.can_mark shape.now state self.now }
    {
        if self.on(state) {
            return false;
        }
        match shape.parent(state) {
            None => true,
            Some(parent) => match shape.comp(parent) {
                Comp::Or => self.bare(shape, parent),
                Comp::And | Comp::Leaf => self.on(parent),
            },
        }
    }

    /// Makes a state active that isn't active. Its parent, if it has one, must be active, and bare
    /// where it is an OR.
    pub fn mark(&mut self, shape: &Shape, state: u32)
        requires state { state < state_count shape.now }
        requires consistent { spec.IsConsistent shape.now self.old }
        requires can { IsTrue (spec.can_mark shape.now state self.old) }
        ensures marked { self.new ≡ spec.with_mark state true self.old }
        ensures consistent { spec.IsConsistent shape.now self.new }
    {
        // Only the contract reads the shape.
        let _ = shape;
        self.flags.turn_on(state);
    }

    /// Makes a bare state inactive.
    pub fn clear(&mut self, shape: &Shape, state: u32)
        requires state { state < state_count shape.now }
        requires consistent { spec.IsConsistent shape.now self.old }
        requires bare { IsTrue (spec.is_bare shape.now state self.old) }
        ensures cleared { self.new ≡ spec.with_mark state false self.old }
        ensures consistent { spec.IsConsistent shape.now self.new }
    {
        // Only the contract reads the shape.
        let _ = shape;
        self.flags.turn_off(state);
    }

    /// Makes the parent of a state remember it. The parent must be an OR.
    pub fn keep(&mut self, shape: &Shape, state: u32)
        requires state { state < state_count shape.now }
        requires consistent { spec.IsConsistent shape.now self.old }
        requires or { IsSomeAnd (parent_of shape.now state) (λ parent. comp_of shape.now parent ≡ Or) }
        ensures kept { self.new ≡ spec.with_last shape.now state self.old }
        ensures consistent { spec.IsConsistent shape.now self.new }
    {
        if let Some(parent) = shape.parent(state) {
            self.last[parent as usize] = Some(state);
        }
    }

    /// The child that an OR remembers, if any.
    pub fn last(&self, shape: &Shape, state: u32) -> Option<u32>
        requires state { state < state_count shape.now }
        requires or { comp_of shape.now state ≡ Or }
        requires consistent { spec.IsConsistent shape.now self.now }
        ensures child { result ≡ spec.last_of state self.now }
        ensures within { IfSome result (λ child. (parent_of shape.now child ≡ Some state)
            × (child < state_count shape.now)) }
    {
        // Only the contract reads the shape.
        let _ = shape;
        self.last[state as usize]
    }
}
