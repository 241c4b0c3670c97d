//! How states of a tree are related. It takes no memory.
ghost use Rattle.std.specs.Prelude.{◌≡◌, ◌<◌, IfSome};
ghost use Rattle.active_config.specs.Tree as trees;
ghost use Rattle.active_config.specs.Tree.{state_count};
ghost use Rattle.checked_chart.specs.declared.parts.ListKind.TheVariants.{Outer};
ghost use Rattle.checked_chart.specs.Homes as spec;

use active_config::Shape;

/// The child of a state that is `dest` or above it.
pub fn child_toward(shape: &Shape, state: u32, dest: u32) -> Option<u32>
    requires tree { trees.IsTree shape.now }
    requires state { state < state_count shape.now }
    requires dest { dest < state_count shape.now }
    ensures child { result ≡ spec.child_toward shape.now state dest }
    ensures below { IfSome result (λ x. (state < x) × (x < state_count shape.now)) }
{
    let mut child = dest;
    while let Some(parent) = shape.parent(child) {
        if parent == state {
            return Some(child);
        }
        child = parent;
    }
    None
}

/// The lowest state that is strictly above both.
fn common_above(shape: &Shape, state: u32, dest: u32) -> Option<u32>
    requires tree { trees.IsTree shape.now }
    requires state { state < state_count shape.now }
    requires dest { dest < state_count shape.now }
    ensures above { result ≡ spec.common_above shape.now state dest }
    ensures within { IfSome result (λ above. above < state_count shape.now) }
{
    let mut next = shape.parent(state);
    while let Some(above) = next {
        if shape.is_below(dest, above) {
            return Some(above);
        }
        next = shape.parent(above);
    }
    None
}

/// The home of a firing of an outer transition: the lowest state that is strictly above both, or
/// the root where there is none.
#[tactic(auto, using(crate::proofs::Walks::tree_some), unfolding(crate::specs::Homes::common_above))]
pub fn outer_home(shape: &Shape, state: u32, dest: u32) -> u32
    requires tree { trees.IsTree shape.now }
    requires state { state < state_count shape.now }
    requires dest { dest < state_count shape.now }
    ensures home { result ≡ spec.home_of shape.now state Outer dest }
    ensures within { result < state_count shape.now }
{
    match common_above(shape, state, dest) {
        None => 0,
        Some(above) => above,
    }
}

/// Whether a state is another one, or below it.
#[tactic(auto, unfolding(active_config::specs::Tree::is_at_or_below))]
fn is_at_or_below(shape: &Shape, state: u32, above: u32) -> bool
    requires state { state < state_count shape.now }
    requires above { above < state_count shape.now }
    ensures { result ≡ trees.is_at_or_below shape.now state above }
{
    state == above || shape.is_below(state, above)
}

/// Where a child of an AND is entered on the way to `dest`: at `dest`, where it is the child or
/// below it, else at the child.
pub fn path_in(shape: &Shape, child: u32, dest: u32) -> u32
    requires child { child < state_count shape.now }
    requires dest { dest < state_count shape.now }
    ensures path { result ≡ spec.path_in shape.now child dest }
    ensures within { result < state_count shape.now }
{
    if is_at_or_below(shape, dest, child) {
        dest
    } else {
        child
    }
}
