//! The items that wait on a route.
ghost use Rattle.std.specs.Prelude.{◌≡◌, ◌<◌, ◌≤◌, ◌↔◌, ◌++◌, ◌∷◌, [], length, IfOk, IsTrue};
ghost use Rattle.chart_net.specs.Rings as spec;
ghost use Rattle.net_text.specs.declared.limits.TheConstants.{CAP_LIMIT};

use actions::Value;
use flow_base::Memory;
use std::alloc::Global;
use std::marker::Model;

/// The items that wait on a route, in as many places as the route holds items.
#[derive(Drop)]
pub(crate) struct Ring {
    places: Vec<Option<Value>>,
    first: usize,
    count: usize,
}

impl Model for Ring {
    ghost use Rattle.std.specs.Prelude.{◌<◌, ◌≤◌, length};
    ghost use Rattle.chart_net.specs.Rings.{Queue, window};
    ghost use Rattle.net_text.specs.declared.limits.TheConstants.{CAP_LIMIT};

    ghost Value = { Queue };

    ghost view = { λ q. record { items = window q.first q.count q.places.items; cap = length q.places.items } };

    ghost invariant = { λ q. (q.first < length q.places.items)
        × (q.count ≤ length q.places.items) × (length q.places.items ≤ CAP_LIMIT) };
}

impl Ring {
    /// No items, with room for that many.
    pub(crate) fn make(alloc: Global, cap: usize) -> Result<Ring, Memory>
        requires some { 0 < cap }
        requires few { cap ≤ CAP_LIMIT }
        ensures { IfOk result (λ ring. ring ≡ record { items = []; cap = cap }) }
    {
        let places = vec![in alloc; None; cap]?;
        Ok(Ring {
            places,
            first: 0,
            count: 0,
        })
    }

    /// Whether there is room for no more.
    pub(crate) fn is_full(&self) -> bool
        ensures full { IsTrue result ↔ (length self.now.items ≡ self.now.cap) }
        ensures within { length self.now.items ≤ self.now.cap }
    {
        self.count == self.places.len()
    }

    /// Puts an item after those that wait.
    pub(crate) fn push(&mut self, item: Option<Value>)
        requires { length self.old.items < self.old.cap }
        ensures { self.new ≡ record { items = self.old.items ++ item ∷ []; cap = self.old.cap } }
    {
        let place = (self.first + self.count) % self.places.len();
        self.places[place] = item;
        self.count += 1;
    }

    /// Takes the oldest item. None where none waits.
    pub(crate) fn take(&mut self) -> Option<Option<Value>>
        ensures oldest { result ≡ spec.oldest self.old.items }
        ensures rest { self.new ≡ record { items = spec.later self.old.items; cap = self.old.cap } }
    {
        if self.count == 0 {
            return None;
        }
        let item = self.places[self.first];
        self.first = (self.first + 1) % self.places.len();
        self.count -= 1;
        Some(item)
    }
}
