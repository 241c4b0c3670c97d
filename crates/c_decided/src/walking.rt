//! Statements are gone through, with what is known before each.
//!
//! An expression, a line or a tree of which nothing is made goes to `drop` by name: a single drop
//! at the end of a scope would be written out for each of its variants, and make the proof long.
ghost use Rattle.std.specs.Prelude.{◌≡◌, ◌&&◌, true, false, IsTrue, IfOk, MatchOption};
ghost use Rattle.flow_base.specs.Lists.{items_of};
ghost use Rattle.c_subset.specs.Lines.{expr_of, exprs_of, line_of};
ghost use Rattle.c_subset.specs.Trees as c;
ghost use Rattle.c_trees.specs.Blocks.{block_of};
ghost use Rattle.c_trees.specs.Reading as reading;
ghost use Rattle.c_facts.specs.Asking as asking;
ghost use Rattle.c_facts.specs.Facts as domain;
ghost use Rattle.c_facts.specs.Known as nothing;
ghost use Rattle.c_facts.specs.Views.{known_of, places_of};
ghost use Rattle.c_decided.specs.Decided as decided;
ghost use Rattle.c_decided.specs.Facts as places;
ghost use Rattle.c_decided.specs.Numbered as numbered;
ghost use Rattle.c_decided.specs.Walk as spec;
ghost use Rattle.c_decided.specs.Views.{by_of, facts_of, function_of, missing, plan_of, walked_of};

use crate::by_number::{all_of, brought, covers_by, framed_by, is_nowhere};
use crate::plan::{Facts, FunctionFacts, Plan};
use crate::steps::{after_set, after_store, alone, by_value, copied_facts, joined_facts, test};
use c_facts::{Known, Rows, all_covered, covers, may_store};
use c_subset::{CExpr, CType, Case, Line};
use c_trees::{Tree, boxed, step};
use flow_base::{List, Memory};
use std::alloc::{AllocFailed, Global};
use std::mem;

/// Why statements weren't gone through.
#[derive(Clone, Copy)]
pub enum Unfit {
    /// Memory was refused.
    NoMemory,
    /// The plan isn't right there.
    NotRight,
}

impl From<Memory> for Unfit {
    ghost use Rattle.std.specs.Prelude.{◌≡◌};
    ghost use Rattle.c_decided.specs.declared.walking.Unfit.TheVariants.{NoMemory};

    ghost from_gives = { λ _ unfit. unfit ≡ NoMemory };

    fn from(_: Memory) -> Self {
        Unfit::NoMemory
    }
}

impl<T: Drop> From<AllocFailed<T>> for Unfit {
    ghost use Rattle.std.specs.Prelude.{◌≡◌};
    ghost use Rattle.c_decided.specs.declared.walking.Unfit.TheVariants.{NoMemory};

    ghost from_gives = { λ _ unfit. unfit ≡ NoMemory };

    fn from(_: AllocFailed<T>) -> Self {
        Unfit::NoMemory
    }
}

/// Statements that were gone through: what is made of them, and what is known where they fall
/// through.
#[derive(Drop)]
pub struct Walked {
    /// The statements.
    pub tree: Tree,
    /// What is known after them.
    pub after: Facts,
}

/// The function whose statements are gone through.
#[derive(Clone, Copy)]
pub struct Own {
    /// Its number.
    pub number: u32,
    /// The type of what it returns.
    pub result: CType,
}

/// What is known of a function.
pub fn find(plan: &Plan, function: u32) -> Option<&FunctionFacts>
    ensures { MatchOption result (function_of plan.now function ≡ missing)
        (λ own. own.now ≡ function_of plan.now function) }
{
    plan.functions.items().get(function as usize)
}

// ---- statements before others

/// Puts other statements after these.
#[tactic(auto, unfolding(crate::specs::Decided::before))]
fn follow(tree: &mut Tree, second: Tree)
    ensures { block_of tree.new ≡ decided.before (block_of tree.old) (block_of second) }
{
    match tree {
        Tree::End => drop(mem::replace(tree, second)),
        Tree::Set(_, _, _, rest) => follow(rest, second),
        Tree::Store(_, _, rest) => follow(rest, second),
        Tree::StoreAt(_, _, _, rest) => follow(rest, second),
        Tree::Call(_, _, _, _, rest) => follow(rest, second),
        Tree::Select(_, _, _, _, _, rest) => follow(rest, second),
        Tree::If(_, _, _, rest) => follow(rest, second),
        Tree::While(_, _, rest) => follow(rest, second),
        Tree::Return(_) => drop(second),
    }
}

/// What was gone through, one before the other.
fn in_turn(first: Walked, second: Walked) -> Walked
    ensures { walked_of result ≡ spec.in_turn (walked_of first) (walked_of second) }
{
    drop(first.after);
    let mut tree = first.tree;
    follow(&mut tree, second.tree);
    Walked {
        tree,
        after: second.after,
    }
}

/// A line before what was gone through.
fn put_before(alloc: Global, line: Line, rest: Walked) -> Result<Walked, Unfit>
    ensures { IfOk result (λ all. walked_of all
        ≡ spec.put_before true (λ b. reading.step (line_of line) b) (walked_of rest)) }
{
    let after = rest.after;
    match boxed(alloc, rest.tree) {
        Ok(holder) => Ok(Walked {
            tree: step(line, holder),
            after,
        }),
        Err(Memory) => {
            drop(line);
            drop(after);
            Err(Unfit::NoMemory)
        }
    }
}

/// `if` with both parts before what was gone through.
fn asked(
    alloc: Global,
    expr: CExpr,
    first: Box<Tree>,
    second: Box<Tree>,
    last: Walked,
) -> Result<Walked, Unfit>
    ensures { IfOk result (λ all. walked_of all ≡ record {
      right = true;
      block = c.If (expr_of expr) (block_of first.value) (block_of second.value)
          (block_of last.tree);
      after = facts_of last.after;
    }) }
{
    let after = last.after;
    match boxed(alloc, last.tree) {
        Ok(rest) => Ok(Walked {
            tree: Tree::If(expr, first, second, rest),
            after,
        }),
        Err(Memory) => {
            drop(expr);
            drop(after);
            Err(Unfit::NoMemory)
        }
    }
}

/// Both ways of a test, and what comes after it.
fn both_asked(
    alloc: Global,
    expr: CExpr,
    first: Walked,
    second: Walked,
    last: Walked,
) -> Result<Walked, Unfit>
    ensures { IfOk result (λ w. walked_of w ≡ spec.asked (expr_of expr) (walked_of first)
        (walked_of second) (walked_of last)) }
{
    drop(first.after);
    drop(second.after);
    match boxed(alloc, first.tree) {
        Err(Memory) => {
            drop(expr);
            drop(second.tree);
            drop(last);
            Err(Unfit::NoMemory)
        }
        Ok(yes) => match boxed(alloc, second.tree) {
            Err(Memory) => {
                drop(expr);
                drop(last);
                Err(Unfit::NoMemory)
            }
            Ok(no) => asked(alloc, expr, yes, no, last),
        },
    }
}

/// Each turn of a loop, and what comes after it.
fn looped(alloc: Global, expr: CExpr, turn: Walked, last: Walked) -> Result<Walked, Unfit>
    ensures { IfOk result (λ w. walked_of w
        ≡ spec.looped (expr_of expr) (walked_of turn) (walked_of last)) }
{
    drop(turn.after);
    let after = last.after;
    match boxed(alloc, turn.tree) {
        Err(Memory) => {
            drop(expr);
            drop(last.tree);
            drop(after);
            Err(Unfit::NoMemory)
        }
        Ok(inner) => match boxed(alloc, last.tree) {
            Err(Memory) => {
                drop(expr);
                drop(after);
                Err(Unfit::NoMemory)
            }
            Ok(rest) => Ok(Walked {
                tree: Tree::While(expr, inner, rest),
                after,
            }),
        },
    }
}

// ---- calls

/// Whether a function may be called in another one.
fn may_call(known: &Known, callee: &FunctionFacts, own: &FunctionFacts) -> bool
    ensures { result ≡ (domain.covers (known_of known.now) (known_of callee.now.begins)
        && domain.all_covered (places_of callee.now.touched) (places_of own.now.touched)) }
{
    covers(known, &callee.begins) && all_covered(&callee.touched, &own.touched)
}

/// After the call of a function that may be called.
fn called(
    alloc: Global,
    known: &Known,
    callee: &FunctionFacts,
    of: CType,
    local: u32,
) -> Result<Facts, Memory>
    ensures { IfOk result (λ after. facts_of after ≡ record {
      type = of;
      local = local;
      by = numbered.brought of (numbered.each
          (domain.framed (domain.is_touched (places_of callee.now.touched)) (known_of known.now))
          (by_of callee.now.leaves));
    }) }
{
    let left = framed_by(alloc, known, &callee.touched, &callee.leaves)?;
    let by = brought(alloc, of, &left)?;
    Ok(Facts { of, local, by })
}

/// After a call in a function, if the plan is right there.
fn known_call(
    alloc: Global,
    callee: &FunctionFacts,
    own: &FunctionFacts,
    of: CType,
    local: u32,
    facts: &Facts,
) -> Result<Facts, Unfit>
    ensures { IfOk result (λ after.
        ((domain.covers (numbered.all_of (by_of facts.now.by)) (known_of callee.now.begins)
        && domain.all_covered (places_of callee.now.touched) (places_of own.now.touched)) ≡ true)
        × (facts_of after ≡ record {
          type = of;
          local = local;
          by = numbered.brought of (numbered.each
              (domain.framed (domain.is_touched (places_of callee.now.touched))
              (numbered.all_of (by_of facts.now.by))) (by_of callee.now.leaves));
        })) }
{
    let known = all_of(alloc, &facts.by)?;
    if !may_call(&known, callee, own) {
        return Err(Unfit::NotRight);
    }
    Ok(called(alloc, &known, callee, of, local)?)
}

/// After `x = f(..);`, if the plan is right there.
fn after_call(
    alloc: Global,
    plan: &Plan,
    own: Own,
    of: CType,
    local: u32,
    function: u32,
    facts: &Facts,
) -> Result<Facts, Unfit>
    ensures { IfOk result (λ after.
        (spec.may_call (plan_of plan.now) own.number (facts_of facts.now) function ≡ true)
        × (facts_of after
        ≡ spec.after_call (plan_of plan.now) of local function (facts_of facts.now))) }
{
    let Some(callee) = find(plan, function) else {
        return Err(Unfit::NotRight);
    };
    let Some(caller) = find(plan, own.number) else {
        return Err(Unfit::NotRight);
    };
    known_call(alloc, callee, caller, of, local, facts)
}

/// After the call of one of these functions, or of none, if the plan is right there.
fn after_cases(
    alloc: Global,
    plan: &Plan,
    own: Own,
    of: CType,
    local: u32,
    cases: &[Case],
    facts: &Facts,
) -> Result<Facts, Unfit>
    ensures { IfOk result (λ after.
        (spec.may_call_each (plan_of plan.now) own.number (facts_of facts.now) cases.now ≡ true)
        × (facts_of after
        ≡ spec.after_cases (plan_of plan.now) of local (facts_of facts.now) cases.now)) }
{
    match cases {
        [] => Ok(copied_facts(alloc, facts)?),
        [first, rest @ ..] => {
            let others = after_cases(alloc, plan, own, of, local, rest, facts)?;
            let one = after_call(alloc, plan, own, of, local, first.function, facts)?;
            Ok(joined_facts(alloc, &one, &others)?)
        }
    }
}

// ---- single statements

/// Whether `m->f = e;` changes no other places than its function is said to.
fn is_within(
    alloc: Global,
    plan: &Plan,
    own: Own,
    field: u32,
    expr: &CExpr,
    facts: &Facts,
) -> Result<bool, Memory>
    ensures { IfOk result (λ may. IsTrue may → asking.may_store
        ((plan_of plan.now).touched own.number) field (expr_of expr.now)
        (numbered.all_of (by_of facts.now.by)) ≡ true) }
{
    let known = all_of(alloc, &facts.by)?;
    match find(plan, own.number) {
        None => Ok(false),
        Some(caller) => Ok(may_store(&caller.touched, field, expr, &known)),
    }
}

/// After `m->f = e;`, if the plan is right there.
fn stored(
    alloc: Global,
    plan: &Plan,
    own: Own,
    field: u32,
    expr: &CExpr,
    facts: &Facts,
) -> Result<Facts, Unfit>
    ensures { IfOk result (λ after. (asking.may_store
        ((plan_of plan.now).touched own.number) field (expr_of expr.now)
        (numbered.all_of (by_of facts.now.by)) ≡ true)
        × (facts_of after
        ≡ spec.each_fact (asking.stored field (expr_of expr.now)) (facts_of facts.now))) }
{
    if !is_within(alloc, plan, own, field, expr, facts)? {
        return Err(Unfit::NotRight);
    }
    Ok(after_store(alloc, field, expr, facts)?)
}

/// Whether what is known where a function returns holds by the value of an expression.
fn may_return(
    alloc: Global,
    plan: &Plan,
    own: Own,
    expr: &CExpr,
    facts: &Facts,
) -> Result<bool, Memory>
    ensures { IfOk result (λ may. IsTrue may → numbered.covers_by
        (numbered.brought own.result (spec.by_value (expr_of expr.now) (facts_of facts.now)))
        ((plan_of plan.now).leaves own.number) ≡ true) }
{
    let value = by_value(alloc, expr, facts)?;
    let by = brought(alloc, own.result, &value)?;
    match find(plan, own.number) {
        None => Ok(false),
        Some(caller) => Ok(covers_by(&by, &caller.leaves)),
    }
}

/// `return e;`
fn walk_return(
    alloc: Global,
    expr: CExpr,
    plan: &Plan,
    own: Own,
    facts: &Facts,
) -> Result<Walked, Unfit>
    ensures { IfOk result (λ w. walked_of w ≡ record {
      right = numbered.covers_by
          (numbered.brought own.result (spec.by_value (expr_of expr) (facts_of facts.now)))
          ((plan_of plan.now).leaves own.number);
      block = c.Return (expr_of expr);
      after = places.alone nothing.Never;
    }) }
{
    match may_return(alloc, plan, own, &expr, facts) {
        Err(Memory) => {
            drop(expr);
            Err(Unfit::NoMemory)
        }
        Ok(false) => {
            drop(expr);
            Err(Unfit::NotRight)
        }
        Ok(true) => Ok(Walked {
            tree: Tree::Return(expr),
            after: alone(Known::Never),
        }),
    }
}

/// A line, and what comes after it.
#[cycle(walk)]
fn walk_line(
    alloc: Global,
    rest: Tree,
    line: Line,
    plan: &Plan,
    own: Own,
    after: &Facts,
) -> Result<Walked, Unfit>
    ensures { IfOk result (λ w. walked_of w
        ≡ spec.put_before true (λ b. reading.step (line_of line) b)
        (spec.walked (plan_of plan.now) own.number own.result (block_of rest)
        (facts_of after.now))) }
{
    match walk(alloc, rest, plan, own, after) {
        Err(unfit) => {
            drop(line);
            Err(unfit)
        }
        Ok(last) => put_before(alloc, line, last),
    }
}

/// `x = e;` and what comes after it.
#[cycle(walk)]
fn walk_set(
    alloc: Global,
    rest: Tree,
    of: CType,
    local: u32,
    expr: CExpr,
    plan: &Plan,
    own: Own,
    facts: &Facts,
) -> Result<Walked, Unfit>
    ensures { IfOk result (λ w. walked_of w ≡ spec.put_before true
        (λ b. c.Set of local (expr_of expr) b)
        (spec.walked (plan_of plan.now) own.number own.result (block_of rest)
        (spec.after_set of local (expr_of expr) (facts_of facts.now)))) }
{
    match after_set(alloc, of, local, &expr, facts) {
        Err(Memory) => {
            drop(rest);
            drop(expr);
            Err(Unfit::NoMemory)
        }
        Ok(after) => walk_line(alloc, rest, Line::Set(of, local, expr), plan, own, &after),
    }
}

/// `m->f = e;` and what comes after it.
#[cycle(walk)]
fn walk_store(
    alloc: Global,
    rest: Tree,
    field: u32,
    expr: CExpr,
    plan: &Plan,
    own: Own,
    facts: &Facts,
) -> Result<Walked, Unfit>
    ensures { IfOk result (λ w. walked_of w ≡ spec.put_before
        (asking.may_store ((plan_of plan.now).touched own.number) field (expr_of expr)
        (numbered.all_of (by_of facts.now.by)))
        (λ b. c.Store field (expr_of expr) b)
        (spec.walked (plan_of plan.now) own.number own.result (block_of rest)
        (spec.each_fact (asking.stored field (expr_of expr)) (facts_of facts.now)))) }
{
    match stored(alloc, plan, own, field, &expr, facts) {
        Err(unfit) => {
            drop(rest);
            drop(expr);
            Err(unfit)
        }
        Ok(after) => walk_line(alloc, rest, Line::Store(field, expr), plan, own, &after),
    }
}

/// `x = f(m, e, ..);` and what comes after it.
#[cycle(walk)]
fn walk_call(
    alloc: Global,
    rest: Tree,
    of: CType,
    local: u32,
    function: u32,
    args: List<CExpr>,
    plan: &Plan,
    own: Own,
    facts: &Facts,
) -> Result<Walked, Unfit>
    ensures { IfOk result (λ w. walked_of w ≡ spec.put_before
        (spec.may_call (plan_of plan.now) own.number (facts_of facts.now) function)
        (λ b. c.Call of local function (exprs_of (items_of args)) b)
        (spec.walked (plan_of plan.now) own.number own.result (block_of rest)
        (spec.after_call (plan_of plan.now) of local function (facts_of facts.now)))) }
{
    match after_call(alloc, plan, own, of, local, function, facts) {
        Err(unfit) => {
            drop(rest);
            drop(args);
            Err(unfit)
        }
        Ok(after) => {
            walk_line(
                alloc,
                rest,
                Line::Call(of, local, function, args),
                plan,
                own,
                &after,
            )
        }
    }
}

/// `switch` and what comes after it.
#[cycle(walk)]
fn walk_select(
    alloc: Global,
    rest: Tree,
    of: CType,
    local: u32,
    expr: CExpr,
    cases: List<Case>,
    args: List<CExpr>,
    plan: &Plan,
    own: Own,
    facts: &Facts,
) -> Result<Walked, Unfit>
    ensures { IfOk result (λ w. walked_of w ≡ spec.put_before
        (spec.may_call_each (plan_of plan.now) own.number (facts_of facts.now) (items_of cases))
        (λ b. c.Select of local (expr_of expr) (items_of cases) (exprs_of (items_of args)) b)
        (spec.walked (plan_of plan.now) own.number own.result (block_of rest)
        (spec.after_cases (plan_of plan.now) of local (facts_of facts.now) (items_of cases)))) }
{
    match after_cases(alloc, plan, own, of, local, cases.items(), facts) {
        Err(unfit) => {
            drop(rest);
            drop(expr);
            drop(cases);
            drop(args);
            Err(unfit)
        }
        Ok(after) => {
            let line = Line::Select(of, local, expr, cases, args);
            walk_line(alloc, rest, line, plan, own, &after)
        }
    }
}

// ---- statements

/// What is known after both ways of a test.
#[derive(Drop)]
struct Ways {
    /// Where it is true.
    yes: Facts,
    /// Where it isn't.
    no: Facts,
}

/// What is known after both ways of a test.
fn both_tests(alloc: Global, expr: &CExpr, facts: &Facts) -> Result<Ways, Memory>
    ensures { IfOk result (λ both.
        (facts_of both.yes ≡ spec.test true (expr_of expr.now) (facts_of facts.now))
        × (facts_of both.no ≡ spec.test false (expr_of expr.now) (facts_of facts.now))) }
{
    let yes = test(alloc, true, expr, facts)?;
    let no = test(alloc, false, expr, facts)?;
    Ok(Ways { yes, no })
}

/// What is known after both ways of the test of a loop, in each turn and after the last one.
fn loop_tests(alloc: Global, expr: &CExpr) -> Result<Ways, Memory>
    ensures { IfOk result (λ both.
        (facts_of both.yes ≡ spec.test true (expr_of expr.now) spec.nothing)
        × (facts_of both.no ≡ spec.test false (expr_of expr.now) spec.nothing)) }
{
    let nothing = alone(Known::Of(Rows::End));
    both_tests(alloc, expr, &nothing)
}

/// Whether a function stays as it is.
pub fn stays(plan: &Plan, function: u32) -> bool
    ensures { result ≡ (plan_of plan.now).stays function }
{
    match find(plan, function) {
        None => false,
        Some(own) => own.stays,
    }
}

/// What no run comes to: it goes, unless its function stays as it is.
fn unreached(plan: &Plan, own: Own, tree: Tree) -> Walked
    ensures { walked_of result
        ≡ spec.unreached ((plan_of plan.now).stays own.number) (block_of tree) }
{
    let after = alone(Known::Never);
    if stays(plan, own.number) {
        return Walked { tree, after };
    }
    drop(tree);
    Walked {
        tree: Tree::End,
        after,
    }
}

/// Whether a test goes of which no run comes that way: not in a function that stays as it is.
fn goes(plan: &Plan, own: Own, facts: &Facts) -> bool
    ensures { result ≡ spec.goes ((plan_of plan.now).stays own.number) (facts_of facts.now) }
{
    !stays(plan, own.number) && is_nowhere(&facts.by)
}

/// Statements, gone through: `NotRight` where the plan isn't right for them, `NoMemory` where
/// memory was refused.
#[cycle(walk)]
#[tactic(auto, using(crate::proofs::Reaching::walks))]
pub fn walk(
    alloc: Global,
    tree: Tree,
    plan: &Plan,
    own: Own,
    facts: &Facts,
) -> Result<Walked, Unfit>
    ensures { IfOk result (λ w. walked_of w ≡ spec.walked (plan_of plan.now) own.number own.result
        (block_of tree) (facts_of facts.now)) }
{
    if is_nowhere(&facts.by) {
        return Ok(unreached(plan, own, tree));
    }
    match tree {
        Tree::End => {
            let after = copied_facts(alloc, facts)?;
            Ok(Walked {
                tree: Tree::End,
                after,
            })
        }
        Tree::Set(of, local, expr, rest) => {
            walk_set(
                alloc,
                Box::into_inner(rest),
                of,
                local,
                expr,
                plan,
                own,
                facts,
            )
        }
        Tree::Store(field, expr, rest) => {
            walk_store(alloc, Box::into_inner(rest), field, expr, plan, own, facts)
        }
        Tree::StoreAt(row, index, expr, rest) => {
            let line = Line::StoreAt(row, index, expr);
            walk_line(alloc, Box::into_inner(rest), line, plan, own, facts)
        }
        Tree::Call(of, local, function, args, rest) => {
            walk_call(
                alloc,
                Box::into_inner(rest),
                of,
                local,
                function,
                args,
                plan,
                own,
                facts,
            )
        }
        Tree::Select(of, local, expr, cases, args, rest) => {
            let inner = Box::into_inner(rest);
            walk_select(alloc, inner, of, local, expr, cases, args, plan, own, facts)
        }
        Tree::If(expr, first, second, rest) => match both_tests(alloc, &expr, facts) {
            Err(Memory) => {
                drop(expr);
                Err(Unfit::NoMemory)
            }
            Ok(ways) => {
                if goes(plan, own, &ways.no) {
                    drop(expr);
                    match walk(alloc, Box::into_inner(first), plan, own, facts) {
                        Err(unfit) => Err(unfit),
                        Ok(one) => {
                            match walk(alloc, Box::into_inner(rest), plan, own, &one.after) {
                                Err(unfit) => {
                                    drop(one);
                                    Err(unfit)
                                }
                                Ok(last) => Ok(in_turn(one, last)),
                            }
                        }
                    }
                } else if goes(plan, own, &ways.yes) {
                    drop(expr);
                    match walk(alloc, Box::into_inner(second), plan, own, facts) {
                        Err(unfit) => Err(unfit),
                        Ok(one) => {
                            match walk(alloc, Box::into_inner(rest), plan, own, &one.after) {
                                Err(unfit) => {
                                    drop(one);
                                    Err(unfit)
                                }
                                Ok(last) => Ok(in_turn(one, last)),
                            }
                        }
                    }
                } else {
                    match walk(alloc, Box::into_inner(first), plan, own, &ways.yes) {
                        Err(unfit) => {
                            drop(expr);
                            Err(unfit)
                        }
                        Ok(one) => match walk(alloc, Box::into_inner(second), plan, own, &ways.no) {
                            Err(unfit) => {
                                drop(one);
                                drop(expr);
                                Err(unfit)
                            }
                            Ok(two) => match joined_facts(alloc, &one.after, &two.after) {
                                Err(Memory) => {
                                    drop(one);
                                    drop(two);
                                    drop(expr);
                                    Err(Unfit::NoMemory)
                                }
                                Ok(after) => {
                                    match walk(alloc, Box::into_inner(rest), plan, own, &after) {
                                        Err(unfit) => {
                                            drop(one);
                                            drop(two);
                                            drop(expr);
                                            Err(unfit)
                                        }
                                        Ok(last) => both_asked(alloc, expr, one, two, last),
                                    }
                                }
                            },
                        },
                    }
                }
            }
        },
        Tree::While(expr, first, rest) => match loop_tests(alloc, &expr) {
            Err(Memory) => {
                drop(expr);
                Err(Unfit::NoMemory)
            }
            Ok(ways) => match walk(alloc, Box::into_inner(first), plan, own, &ways.yes) {
                Err(unfit) => {
                    drop(expr);
                    Err(unfit)
                }
                Ok(turn) => match walk(alloc, Box::into_inner(rest), plan, own, &ways.no) {
                    Err(unfit) => {
                        drop(turn);
                        drop(expr);
                        Err(unfit)
                    }
                    Ok(last) => looped(alloc, expr, turn, last),
                },
            },
        },
        Tree::Return(expr) => walk_return(alloc, expr, plan, own, facts),
    }
}
