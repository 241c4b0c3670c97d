//! Whether a function may be a loop.
ghost use Rattle.std.specs.Prelude.{◌≡◌, true};
ghost use Rattle.std.specs.List.{list_all};
ghost use Rattle.c_subset.specs.Lines.{expr_of};
ghost use Rattle.c_trees.specs.Blocks.{block_of};
ghost use Rattle.c_loops.specs.Loops as spec;
ghost use Rattle.c_loops.specs.Results as results;

use crate::expressions::{constant_of, hands_on, is_local, test_of};
use crate::known::{Known, Test, opposite, where_holds};
use c_subset::CExpr;
use c_trees::{Tree, is_end};

/// Whether the result is this constant.
fn is_constant(constant: Option<u32>, known: Known) -> bool
    ensures { result ≡ results.is_constant constant known }
{
    match constant {
        Some(number) => match known {
            Known::Exactly(only) => number == only,
            Known::NotZero | Known::Anything => false,
        },
        None => false,
    }
}

/// Whether an expression is the last result, where that is known of it.
fn is_result(expr: &CExpr, known: Known) -> bool
    ensures { result ≡ results.is_result (expr_of expr.now) known }
{
    is_local(4, expr) || is_constant(constant_of(expr), known)
}

/// Whether it tests the result.
fn is_test(test: Test) -> bool
    ensures { result ≡ results.is_test test }
{
    match test {
        Test::Equal(_) | Test::Unequal(_) => true,
        Test::Other => false,
    }
}

/// Whether statements return the last result, of which that is known, and do nothing else.
#[tactic(auto, unfolding(crate::specs::Results::gives_back))]
pub fn gives_back(tree: &Tree, known: Known) -> bool
    ensures { result ≡ results.gives_back (block_of tree.now) known }
{
    match tree {
        Tree::If(expr, first, second, rest) => {
            let test = test_of(expr);
            if !is_test(test) {
                return false;
            }
            let first_gives = match where_holds(known, test) {
                Some(then) => {
                    if is_end(first) {
                        gives_back(rest, then)
                    } else {
                        gives_back(first, then)
                    }
                }
                None => true,
            };
            let second_gives = match where_holds(known, opposite(test)) {
                Some(otherwise) => {
                    if is_end(second) {
                        gives_back(rest, otherwise)
                    } else {
                        gives_back(second, otherwise)
                    }
                }
                None => true,
            };
            first_gives && second_gives
        }
        Tree::Return(expr) => is_result(expr, known),
        Tree::End
        | Tree::Set(..)
        | Tree::Store(..)
        | Tree::StoreAt(..)
        | Tree::Call(..)
        | Tree::Select(..)
        | Tree::While(..) => false,
    }
}

/// Whether statements don't fall through but where a call hands on.
#[tactic(auto, unfolding(crate::specs::Loops::ends))]
pub fn ends(number: u32, tree: &Tree) -> bool
    ensures { result ≡ spec.ends number (block_of tree.now) }
{
    match tree {
        Tree::End => false,
        Tree::Call(of, local, function, args, rest) => {
            hands_on(number, *of, *local, *function, args.items()) || ends(number, rest)
        }
        Tree::Set(_, _, _, rest)
        | Tree::Store(_, _, rest)
        | Tree::StoreAt(_, _, _, rest)
        | Tree::Select(_, _, _, _, _, rest)
        | Tree::If(_, _, _, rest)
        | Tree::While(_, _, rest) => ends(number, rest),
        Tree::Return(_) => true,
    }
}

/// Whether a call hands on that isn't to stay a call.
#[tactic(auto, using(crate::proofs::Lists::lists), unfolding(crate::specs::Loops::rests))]
fn has_rest(number: u32, tree: &Tree) -> bool
    ensures { result ≡ spec.is_some_of (spec.rests number (block_of tree.now)) }
{
    match tree {
        Tree::Call(of, local, function, args, rest) => {
            hands_on(number, *of, *local, *function, args.items()) || has_rest(number, rest)
        }
        Tree::If(_, first, second, rest) => {
            let leads = is_end(second) && has_rest(number, first) && ends(number, first);
            leads || has_rest(number, rest)
        }
        Tree::Set(_, _, _, rest)
        | Tree::Store(_, _, rest)
        | Tree::StoreAt(_, _, _, rest)
        | Tree::Select(_, _, _, _, _, rest)
        | Tree::While(_, _, rest) => has_rest(number, rest),
        Tree::End | Tree::Return(_) => false,
    }
}

/// Whether the first part of an `if` leads back: the second one is empty, calls in it hand on, and
/// it doesn't fall through otherwise.
pub fn leads_back(number: u32, first: &Tree, second: &Tree) -> bool
    ensures { result ≡ spec.leads_back number (spec.rests number (block_of first.now))
        (block_of first.now) (block_of second.now) }
{
    is_end(second) && has_rest(number, first) && ends(number, first)
}

/// What is known of the last result after a test.
fn after_test(test: Test) -> Known
    ensures { result ≡ spec.after_test test }
{
    match where_holds(Known::Anything, test) {
        Some(known) => known,
        None => Known::Anything,
    }
}

/// What is known of what is returned, where that is known of the last result.
fn result_of(expr: &CExpr, known: Known) -> Known
    ensures { result ≡ spec.result_of (expr_of expr.now) known }
{
    if is_local(4, expr) {
        return known;
    }
    match constant_of(expr) {
        Some(number) => Known::Exactly(number),
        None => Known::Anything,
    }
}

/// Whether `back` gives back each result that `tree` returns, where that is known of the last one;
/// not what is returned after a call that hands on, where `hand` says that calls do.
#[tactic(auto, using(crate::proofs::Lists::lists), unfolding(crate::specs::Loops::results))]
fn are_given(number: u32, hand: bool, known: Known, tree: &Tree, back: &Tree) -> bool
    ensures { result ≡ list_all (results.gives_back (block_of back.now))
        (spec.results hand number known (block_of tree.now)) }
{
    match tree {
        Tree::Call(of, local, function, args, rest) => {
            (hand && hands_on(number, *of, *local, *function, args.items()))
                || are_given(number, hand, Known::Anything, rest, back)
        }
        Tree::If(expr, first, second, rest) => {
            let test = test_of(expr);
            let inner = hand && leads_back(number, first, second);
            are_given(number, inner, after_test(test), first, back)
                && are_given(number, false, after_test(opposite(test)), second, back)
                && are_given(number, hand, Known::Anything, rest, back)
        }
        Tree::While(_, first, rest) => {
            are_given(number, false, Known::Anything, first, back)
                && are_given(number, hand, Known::Anything, rest, back)
        }
        Tree::Set(_, _, _, rest)
        | Tree::Store(_, _, rest)
        | Tree::StoreAt(_, _, _, rest)
        | Tree::Select(_, _, _, _, _, rest) => {
            are_given(number, hand, Known::Anything, rest, back)
        }
        Tree::Return(expr) => gives_back(back, result_of(expr, known)),
        Tree::End => true,
    }
}

/// Whether what stands after each call that hands on gives back each result of `whole`.
#[tactic(auto, using(crate::proofs::Lists::lists), unfolding(crate::specs::Loops::rests))]
fn rests_give(number: u32, whole: &Tree, tree: &Tree) -> bool
    ensures { result ≡ list_all (results.gives_each_back
        (spec.results true number results.Anything (block_of whole.now)))
        (spec.rests number (block_of tree.now)) }
{
    match tree {
        Tree::Call(of, local, function, args, rest) => {
            if hands_on(number, *of, *local, *function, args.items()) {
                are_given(number, true, Known::Anything, whole, rest)
            } else {
                rests_give(number, whole, rest)
            }
        }
        Tree::If(_, first, second, rest) => {
            let first_gives = !leads_back(number, first, second)
                || rests_give(number, whole, first);
            first_gives && rests_give(number, whole, rest)
        }
        Tree::Set(_, _, _, rest)
        | Tree::Store(_, _, rest)
        | Tree::StoreAt(_, _, _, rest)
        | Tree::Select(_, _, _, _, _, rest)
        | Tree::While(_, _, rest) => rests_give(number, whole, rest),
        Tree::End | Tree::Return(_) => true,
    }
}

/// Whether the statements call their function so that after each such call each of its results is
/// given back.
pub fn loops(number: u32, tree: &Tree) -> bool
    ensures { result ≡ spec.loops number (block_of tree.now) }
{
    has_rest(number, tree) && rests_give(number, tree, tree)
}
