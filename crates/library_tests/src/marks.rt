//! Tests of what no contract says: that calls succeed. One tree, its look-ups and its marks by
//! hand.
ghost use Rattle.std.specs.Prelude.{◌≡◌, ◌<◌, IfSome};
ghost use Rattle.active_config.specs.Tree.{state_count, parent_of};
ghost use Rattle.active_config.specs.Marks.{parent_takes_child, IsConsistent};

use crate::checks::check;
use MarkStep::{Clear, IsBare, IsOn, Mark};
use active_config::Comp::{And, Leaf, Or};
use active_config::ShapeFault::NotATree;
use active_config::{Comp, Marks, Shape, ShapeFault};
use std::alloc::Global;
use std::process::Abort;

/// The shape of these lists, if they are a tree.
fn shape(
    rt: &impl Abort,
    alloc: Global,
    parents: &[u32],
    comps: &[Comp],
) -> Result<Shape, ShapeFault> {
    assert!(rt; parents.len() < 1_000, "too many states");
    let parents = Vec::from_slice(alloc, parents).expect(rt, "memory");
    let comps = Vec::from_slice(alloc, comps).expect(rt, "memory");
    Shape::make(alloc, parents, comps)
}

/// The parents of `two_regions`. That of the root counts for nothing.
const PARENTS: &[u32] = &[9, 0, 1, 2, 1, 4, 0];

/// The compositions of `two_regions`.
const COMPS: &[Comp] = &[Or, And, Or, Leaf, Or, Leaf, Leaf];

/// The root 0, an OR, has the AND 1 and the leaf 6; 1 has the ORs 2 and 4, each with one leaf.
fn two_regions(rt: &impl Abort, alloc: Global) -> Shape {
    let shape = shape(rt, alloc, PARENTS, COMPS).expect(rt, "a tree");
    check(rt, &"how many states", &shape.len(), &7);
    shape
}

/// Lists of parents and compositions, and why they are no tree.
const LISTS: &[(&str, &[u32], &[Comp], Option<ShapeFault>)] = &[
    ("one leaf", &[0], &[Leaf], None),
    ("no state", &[], &[], Some(NotATree)),
    ("one OR", &[0], &[Or], Some(NotATree)),
    (
        "two leaves below an OR",
        &[0, 0, 0],
        &[Or, Leaf, Leaf],
        None,
    ),
    ("unequal lists", &[0, 0, 0], &[Or, Leaf], Some(NotATree)),
    (
        "a later parent",
        &[0, 0, 3],
        &[Or, Leaf, Leaf],
        Some(NotATree),
    ),
    (
        "a parent that is left",
        &[0, 0, 1, 0, 1],
        &[Or, Or, Leaf, Or, Leaf],
        Some(NotATree),
    ),
    (
        "a leaf with a child",
        &[0, 0, 1],
        &[Or, Leaf, Leaf],
        Some(NotATree),
    ),
];

#[test]
fn lists_give_a_shape_where_they_are_a_tree(rt: HostRuntime) {
    for (name, parents, comps, fault) in LISTS {
        let found = shape(&rt, rt.alloc(), parents, comps).err();
        check(&rt, name, &found, fault);
    }
}

/// Each state of `two_regions`, and then its composition, its parent, its first and its last child,
/// its next and its previous sibling.
const LOOK_UPS: &[(u32, Comp, &[Option<u32>])] = &[
    (0, Or, &[None, Some(1), Some(6), None, None]),
    (1, And, &[Some(0), Some(2), Some(4), Some(6), None]),
    (2, Or, &[Some(1), Some(3), Some(3), Some(4), None]),
    (3, Leaf, &[Some(2), None, None, None, None]),
    (4, Or, &[Some(1), Some(5), Some(5), None, Some(2)]),
    (5, Leaf, &[Some(4), None, None, None, None]),
    (6, Leaf, &[Some(0), None, None, None, Some(1)]),
];

/// A state, one that may be above it, and whether it is.
const BELOW: &[(u32, u32, bool)] = &[
    (3, 1, true),
    (3, 3, false),
    (1, 3, false),
    (5, 2, false),
    (5, 0, true),
    (6, 1, false),
];

#[test]
fn states_are_looked_up(rt: HostRuntime) {
    let shape = two_regions(&rt, rt.alloc());
    for row in LOOK_UPS {
        let state = row.0;
        assert!(rt; state < shape.len(), "no such state");
        let beside = [
            shape.parent(state),
            shape.first_child(state),
            shape.last_child(state),
            shape.next_sibling(state),
            shape.prev_sibling(state),
        ];
        let found = (state, shape.comp(state), beside.as_slice());
        check(&rt, &"a state looked up", &found, row);
    }
    for row in BELOW {
        assert!(rt; row.0.max(row.1) < shape.len(), "no such state");
        let found = (row.0, row.1, shape.is_below(row.0, row.1));
        check(&rt, &"whether a state is below one", &found, row);
    }
    drop(shape);
}

/// Whether the parent of a state, if it has one, may get it as one more active child.
fn parent_takes(marks: &Marks, shape: &Shape, state: u32) -> bool
    requires state { state < state_count shape.now }
    requires consistent { IsConsistent shape.now marks.now }
    ensures { result ≡ parent_takes_child shape.now (parent_of shape.now state) marks.now }
{
    match shape.parent(state) {
        None => true,
        Some(parent) => match shape.comp(parent) {
            Or => marks.bare(shape, parent),
            Leaf | And => marks.on(parent),
        },
    }
}

/// Makes a state active where it can be, and says whether it could.
fn try_mark(marks: &mut Marks, shape: &Shape, state: u32) -> bool
    requires state { state < state_count shape.now }
    requires consistent { IsConsistent shape.now marks.old }
    ensures { IsConsistent shape.now marks.new }
{
    if marks.on(state) || !parent_takes(marks, shape, state) {
        return false;
    }
    marks.mark(shape, state);
    true
}

/// Makes a state inactive where it is bare, and says whether it was.
fn try_clear(marks: &mut Marks, shape: &Shape, state: u32) -> bool
    requires state { state < state_count shape.now }
    requires consistent { IsConsistent shape.now marks.old }
    ensures { IsConsistent shape.now marks.new }
{
    if !marks.bare(shape, state) {
        return false;
    }
    marks.clear(shape, state);
    true
}

/// Makes the parent of a state remember it where the parent is an OR, and answers whether it is
/// one.
fn try_keep(marks: &mut Marks, shape: &Shape, state: u32) -> bool
    requires state { state < state_count shape.now }
    requires consistent { IsConsistent shape.now marks.old }
    ensures { IsConsistent shape.now marks.new }
{
    match shape.parent(state) {
        None => false,
        Some(parent) => match shape.comp(parent) {
            Or => {
                marks.keep(shape, state);
                true
            }
            Leaf | And => false,
        },
    }
}

/// What an OR remembers.
fn remembered(marks: &Marks, shape: &Shape, state: u32) -> Option<u32>
    requires state { state < state_count shape.now }
    requires consistent { IsConsistent shape.now marks.now }
    ensures { IfSome result (λ child. parent_of shape.now child ≡ Some state) }
{
    match shape.comp(state) {
        Or => marks.last(shape, state),
        Leaf | And => None,
    }
}

/// A tree and its marks, which stay consistent.
#[derive(Drop)]
struct Marked {
    shape: Shape,
    marks: Marks,
    ghost consistent: { IsConsistent shape marks },
}

/// The tree of a shape, none of whose states is active.
fn unmarked(rt: &impl Abort, alloc: Global, shape: Shape) -> Marked {
    let marks = Marks::make(alloc, &shape).expect(rt, "memory");
    Marked { shape, marks }
}

/// What is tried or asked at a state.
#[derive(Clone, Copy)]
enum MarkStep {
    /// To make it active where it can be.
    Mark,
    /// To make it inactive where it is bare.
    Clear,
    /// Whether it is active.
    IsOn,
    /// Whether it is bare.
    IsBare,
}

/// Does what a step says, and answers whether it could be done or is so.
fn take(tree: &mut Marked, step: MarkStep, state: u32) -> bool
    requires { state < state_count tree.old.shape }
{
    match step {
        Mark => try_mark(&mut tree.marks, &tree.shape, state),
        Clear => try_clear(&mut tree.marks, &tree.shape, state),
        IsOn => tree.marks.on(state),
        IsBare => tree.marks.bare(&tree.shape, state),
    }
}

/// Takes each step, and asserts its answer.
fn check_steps(rt: &impl Abort, tree: &mut Marked, steps: &[(MarkStep, u32, bool, &str)]) {
    for (step, state, wanted, why) in steps {
        assert!(rt; *state < tree.shape.len(), "no such state");
        check(rt, why, &take(tree, *step, *state), wanted);
    }
}

/// Asserts the composition and the active child of each of these states.
fn check_children(rt: &impl Abort, tree: &Marked, rows: &[(u32, Comp, Option<u32>)]) {
    for row in rows {
        let state = row.0;
        assert!(rt; state < tree.shape.len(), "no such state");
        let child = tree.marks.active_child(&tree.shape, state);
        let found = (state, tree.shape.comp(state), child);
        check(rt, &"a state's active child", &found, row);
    }
}

/// States of `two_regions` that are made active or can't be.
const MARKED: &[(MarkStep, u32, bool, &str)] = &[
    (Mark, 2, false, "1 isn't active"),
    (Mark, 0, true, "the root"),
    (Mark, 1, true, "the OR 0 is bare"),
    (Mark, 6, false, "the OR 0 has an active child"),
    (Mark, 4, true, "the AND 1 is active"),
    (Mark, 2, true, "the AND 1 takes a second child"),
    (Mark, 3, true, "the OR 2 is bare"),
    (IsBare, 4, true, "4 has no active child"),
    (IsBare, 1, false, "1 has active children"),
];

/// ORs after `MARKED`: what they are, and their active children.
const CHILDREN: &[(u32, Comp, Option<u32>)] = &[(0, Or, Some(1)), (4, Or, None)];

/// States that are made inactive after `MARKED` or can't be.
const CLEARED: &[(MarkStep, u32, bool, &str)] = &[
    (Clear, 2, false, "2 has an active child"),
    (Clear, 3, true, "3 is bare"),
    (IsOn, 3, false, "3 is cleared"),
    (IsOn, 2, true, "2 stays active"),
    (IsBare, 2, true, "2 has no active child any more"),
];

#[test]
fn marks_are_set_and_cleared(rt: HostRuntime) {
    let mut tree = unmarked(&rt, rt.alloc(), two_regions(&rt, rt.alloc()));
    check_steps(&rt, &mut tree, MARKED);
    check_children(&rt, &tree, CHILDREN);
    check_steps(&rt, &mut tree, CLEARED);
    drop(tree);
}

/// The root 0, an AND, has the leaves 1 to 130.
fn wide(rt: &impl Abort, alloc: Global) -> Shape {
    let parents = vec![in alloc; 0; 131].expect(rt, "memory");
    let mut comps = vec![in alloc; Leaf; 131].expect(rt, "memory");
    comps[0] = And;
    let shape = Shape::make(alloc, parents, comps).expect(rt, "a tree");
    check(rt, &"how many states", &shape.len(), &131);
    shape
}

/// States of `wide` that are made active.
const MARKED_WIDE: &[(MarkStep, u32, bool, &str)] = &[
    (Mark, 0, true, "the root"),
    (Mark, 64, true, "64, first of its word"),
    (Mark, 130, true, "130, the last state"),
];

/// The root of `wide` after that, and its first active child.
const WIDE_CHILDREN: &[(u32, Comp, Option<u32>)] = &[(0, And, Some(64))];

/// The states that are searched from, and the active one that is found: 0, 64 and 130 are.
const SEARCHES: &[(u32, Option<u32>)] = &[
    (0, Some(0)),
    (1, Some(64)),
    (63, Some(64)),
    (64, Some(64)),
    (65, Some(130)),
    (130, Some(130)),
    (131, None),
];

#[test]
fn active_states_are_found_in_order(rt: HostRuntime) {
    let mut tree = unmarked(&rt, rt.alloc(), wide(&rt, rt.alloc()));
    check_steps(&rt, &mut tree, MARKED_WIDE);
    for row in SEARCHES {
        assert!(rt; row.0 <= tree.shape.len(), "no such state");
        let found = (row.0, tree.marks.next_on(row.0));
        check(&rt, &"the next active state", &found, row);
    }
    check_children(&rt, &tree, WIDE_CHILDREN);
    drop(tree);
}

/// States of `two_regions`, whether their parent is an OR, and what 0 and 2 remember after each.
const KEPT: &[(u32, bool, Option<u32>, Option<u32>)] = &[
    // The parent of 3 is the OR 2.
    (3, true, None, Some(3)),
    // The parent of 6 is the OR 0, and so is that of 1.
    (6, true, Some(6), Some(3)),
    (1, true, Some(1), Some(3)),
    // The parent of 2 is an AND, and the root has none.
    (2, false, Some(1), Some(3)),
    (0, false, Some(1), Some(3)),
];

/// Keeping makes none active.
const NONE_MARKED: &[(MarkStep, u32, bool, &str)] = &[
    (IsOn, 1, false, "1 is kept alone"),
    (IsOn, 3, false, "3 is kept alone"),
];

/// Tries to make the parent of each state remember it, and asserts what is kept then.
fn check_kept(rt: &impl Abort, tree: &mut Marked, rows: &[(u32, bool, Option<u32>, Option<u32>)]) {
    for row in rows {
        assert!(rt; row.0.max(2) < tree.shape.len(), "no such state");
        let is_kept = try_keep(&mut tree.marks, &tree.shape, row.0);
        let first = remembered(&tree.marks, &tree.shape, 0);
        let second = remembered(&tree.marks, &tree.shape, 2);
        check(rt, &"what is kept", &(row.0, is_kept, first, second), row);
    }
}

#[test]
fn the_child_kept_last_is_remembered(rt: HostRuntime) {
    let mut tree = unmarked(&rt, rt.alloc(), two_regions(&rt, rt.alloc()));
    check_kept(&rt, &mut tree, KEPT);
    check_steps(&rt, &mut tree, NONE_MARKED);
    drop(tree);
}
