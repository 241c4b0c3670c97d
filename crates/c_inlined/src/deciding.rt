//! Whether statements can go on where they return.
ghost use Rattle.std.specs.Prelude.{◌≡◌};
ghost use Rattle.c_trees.specs.Blocks.{block_of};
ghost use Rattle.c_inlined.specs.Continued as spec;

use c_trees::Tree;

/// Whether no statement returns.
#[tactic(auto, unfolding(crate::specs::Continued::never_returns))]
pub fn never_returns(tree: &Tree) -> bool
    ensures { result ≡ spec.never_returns (block_of tree.now) }
{
    match tree {
        Tree::End => true,
        Tree::Set(_, _, _, rest)
        | Tree::Store(_, _, rest)
        | Tree::StoreAt(_, _, _, rest)
        | Tree::Call(_, _, _, _, rest)
        | Tree::Select(_, _, _, _, _, rest) => never_returns(rest),
        Tree::If(_, first, second, rest) => {
            never_returns(first) && (never_returns(second) && never_returns(rest))
        }
        Tree::While(_, first, rest) => never_returns(first) && never_returns(rest),
        Tree::Return(_) => false,
    }
}

/// Whether statements return, whatever happens.
#[tactic(auto, unfolding(crate::specs::Continued::always_returns))]
pub fn always_returns(tree: &Tree) -> bool
    ensures { result ≡ spec.always_returns (block_of tree.now) }
{
    match tree {
        Tree::End => false,
        Tree::Set(_, _, _, rest)
        | Tree::Store(_, _, rest)
        | Tree::StoreAt(_, _, _, rest)
        | Tree::Call(_, _, _, _, rest)
        | Tree::Select(_, _, _, _, _, rest)
        | Tree::While(_, _, rest) => always_returns(rest),
        Tree::If(_, first, second, rest) => {
            (always_returns(first) && always_returns(second)) || always_returns(rest)
        }
        Tree::Return(_) => true,
    }
}

/// Whether no part of an `if` returns.
pub fn neither_returns(first: &Tree, second: &Tree) -> bool
    ensures { result ≡ spec.neither_returns (block_of first.now) (block_of second.now) }
{
    never_returns(first) && never_returns(second)
}

/// Whether one of its parts always returns.
fn one_returns(first: &Tree, second: &Tree) -> bool
    ensures { result ≡ spec.one_returns (block_of first.now) (block_of second.now) }
{
    always_returns(first) || always_returns(second)
}

/// Whether statements can go on where they return.
#[tactic(auto, unfolding(crate::specs::Continued::can_go_on))]
pub fn can_go_on(tree: &Tree) -> bool
    ensures { result ≡ spec.can_go_on (block_of tree.now) }
{
    match tree {
        Tree::End | Tree::Return(_) => true,
        Tree::Set(_, _, _, rest)
        | Tree::Store(_, _, rest)
        | Tree::StoreAt(_, _, _, rest)
        | Tree::Call(_, _, _, _, rest)
        | Tree::Select(_, _, _, _, _, rest) => can_go_on(rest),
        Tree::If(_, first, second, rest) => {
            (neither_returns(first, second)
                || (one_returns(first, second) && (can_go_on(first) && can_go_on(second))))
                && can_go_on(rest)
        }
        Tree::While(_, first, rest) => never_returns(first) && can_go_on(rest),
    }
}
