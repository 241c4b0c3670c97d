//! The active states in a trace line.
ghost use Rattle.std.specs.Prelude.{◌≡◌, ◌<◌, ◌≤◌, Some, true, length, map};
ghost use Rattle.std.specs.List.{join_with_byte};
ghost use Rattle.active_config.specs.Marks.{mark_count};
ghost use Rattle.active_config.specs.Tree.{
  IsTree,
  state_count,
  parent_of,
  is_below,
  is_at_or_below,
};
ghost use Rattle.actions.specs.Names.{names_of};
ghost use Rattle.trace_text.specs.Pieces.{Puts};
ghost use Rattle.trace_text.specs.Trace as spec;
ghost use Rattle.trace_text.specs.TraceParts.{item};

use crate::pieces::Pieces;
use crate::trace_parts::put_item;
use actions::Names;
use active_config::{Marks, Shape};
use flow_base::Sink;

/// Puts the active states but the root, each by its path.
pub(crate) fn put_states<O: Sink>(
    shape: &Shape,
    names: &Names,
    marks: &Marks,
    pieces: &mut Pieces,
    out: &mut O,
)
    requires names { length (names_of names.now).states ≡ state_count shape.now }
    requires marks { mark_count marks.now ≡ state_count shape.now }
    ensures { Puts (O.wrote out.old) (O.wrote out.new) (O.faults out.old) (O.faults out.new)
        pieces.old pieces.new
        (join_with_byte 44 (map (spec.path_of shape.now (names_of names.now)) (spec.active_states shape.now marks.now))) }
{
    let states = shape.len();
    let mut is_first = true;
    let mut from = 1;
    'states: while from < states {
        let Some(state) = marks.next_on(from) else {
            return;
        };
        put_path(shape, names, state, is_first, pieces, out);
        is_first = false;
        from = state + 1;
    }
}

/// Puts the path of a state but the root, after a comma unless it is the first path. It goes from
/// the child of the root that the state is or is below down to the state's own name.
fn put_path<O: Sink>(
    shape: &Shape,
    names: &Names,
    state: u32,
    is_first: bool,
    pieces: &mut Pieces,
    out: &mut O,
)
    requires tree { IsTree shape.now }
    requires state { state < state_count shape.now }
    requires below { 0 < state }
    requires names { length (names_of names.now).states ≡ state_count shape.now }
    ensures { Puts (O.wrote out.old) (O.wrote out.new) (O.faults out.old) (O.faults out.new)
        pieces.old pieces.new (item 44 is_first (spec.path_of shape.now (names_of names.now) state)) }
{
    let first = child_toward(shape, 0, state);
    put_item(b',', is_first, state_name(names, first), pieces, out);
    let mut last = first;
    'names: while last != state {
        let next = child_toward(shape, last, state);
        let name = state_name(names, next);
        pieces.put_led(b'/', name, out);
        last = next;
    }
}

/// The child of a state that is another state or above it.
fn child_toward(shape: &Shape, above: u32, state: u32) -> u32
    requires tree { IsTree shape.now }
    requires state { state < state_count shape.now }
    requires above { is_below shape.now state above ≡ true }
    ensures child { parent_of shape.now result ≡ Some above }
    ensures above { is_at_or_below shape.now state result ≡ true }
    ensures after { above < result }
    ensures within { result ≤ state }
{
    let mut child = state;
    'parents: while let Some(parent) = shape.parent(child) {
        if parent == above {
            return child;
        }
        child = parent;
    }
    child
}

/// The name of a state.
fn state_name(names: &Names, number: u32) -> &[u8]
    requires { number < length (names_of names.now).states }
    ensures { result.now ≡ spec.state_name (names_of names.now) number }
{
    names.states.items()[number as usize].text().as_bytes()
}
