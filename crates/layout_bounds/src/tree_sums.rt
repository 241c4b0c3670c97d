//! What holds of sums over a tree of states.
ghost use Rattle.std.specs.Prelude.{◌≡◌, ◌<◌, ◌≤◌, ◌+◌, ◌*◌, ℕ, suc, length, sum_by};
ghost use Rattle.active_config.specs.Tree.{Tree, IsTree, state_count, children_of, ancestors};
ghost use Rattle.chart_code.specs.Ends.{below_count};
ghost use Rattle.chart_code.specs.Orders.{sum_to};
ghost use Rattle.layout_bounds.specs.TreeSums.{sum_below, HasDepth};

/// The sum over the states at or below a state is the share of the state itself and the sums at its
/// children. At the root it is the sum over all states.
pub fn the_sum_below_a_state()
    ensures splits { (t : Tree) (f : ℕ → ℕ) (s : ℕ) → IsTree t → s < state_count t
        → sum_below t f s ≡ f s + sum_by (sum_below t f) (children_of t s) }
    ensures whole { (t : Tree) (f : ℕ → ℕ) → IsTree t → sum_below t f 0 ≡ sum_to f (state_count t) }
{}

/// In the sum of these sums over all states each state counts once for itself and once for each of
/// its ancestors. So the sum is at most that over all states, times the levels of the tree.
pub fn the_sum_of_all_sums_below()
    ensures depths { (t : Tree) (f : ℕ → ℕ) → IsTree t → sum_to (sum_below t f) (state_count t)
        ≡ sum_to (λ s. suc (length (ancestors t s)) * f s) (state_count t) }
    ensures levels { (t : Tree) (f : ℕ → ℕ) (d : ℕ) → IsTree t → HasDepth t d
        → sum_to (sum_below t f) (state_count t) ≤ suc d * sum_to f (state_count t) }
{}

/// Each state but the root is a child once, and it is below each of its ancestors.
pub fn children_and_states_below()
    ensures children { (t : Tree) → IsTree t
        → sum_to (λ s. length (children_of t s)) (state_count t) + 1 ≡ state_count t }
    ensures depths { (t : Tree) → IsTree t → sum_to (below_count t) (state_count t)
        ≡ sum_to (λ s. length (ancestors t s)) (state_count t) }
    ensures below { (t : Tree) (d : ℕ) → IsTree t → HasDepth t d
        → sum_to (below_count t) (state_count t) ≤ d * state_count t }
{}
