//! Bodies of functions in place of calls of them.
ghost use Rattle.std.specs.Prelude.{◌≡◌, ◌≢◌, ◌+◌, ◌<◌, ◌^◌, IfOk, IsTrue, OnOk, length, Some, ℕ};
ghost use Rattle.std.specs.Prelude as prelude;
ghost use Rattle.std.specs.Prelude.{slice_get, true};
ghost use Rattle.flow_base.specs.Lists.{items_of};
ghost use Rattle.c_subset.specs.declared.trees.Function as declared;
ghost use Rattle.c_subset.specs.Lines.{IsFunction, exprs_of};
ghost use Rattle.c_subset.specs.Trees as c;
ghost use Rattle.c_trees.specs.Blocks.{block_of};
ghost use Rattle.c_placing.specs.Placing as placing;
ghost use Rattle.c_bare.specs.Bare.{AreFunctions};
ghost use Rattle.c_inlined.specs.Continued as continuing;
ghost use Rattle.c_inlined.specs.Inlined as spec;
ghost use Rattle.c_inlined.specs.Inlined.{IsInlined};

use crate::continuing::{Target, go_on};
use crate::deciding::can_go_on;
use crate::joining::follow;
use c_bare::is_same;
use c_placing::{NotPlaced, placed, with_parameters};
use c_subset::{CExpr, CType, Function};
use c_trees::{Tree, boxed};
use flow_base::{List, Memory};
use std::alloc::Global;
use std::mem;

/// A function in which calls are replaced.
#[derive(Clone, Copy)]
pub struct Caller {
    /// Its number.
    pub number: u32,
    /// The type of what it returns.
    pub result: CType,
    /// A number above those of all locals that it reads.
    pub base: u32,
}

/// A call.
#[derive(Drop)]
struct Call {
    /// The type of the local that has its result.
    of: CType,
    /// The number of that local.
    local: u32,
    /// The function that is called.
    function: u32,
    /// The arguments.
    args: List<CExpr>,
    /// Whether the next statement returns the result.
    is_last: bool,
}

impl Call {
    /// The call before the statements after it.
    fn stays(self, alloc: Global, rest: Box<Tree>) -> Result<Box<Tree>, Memory>
        ensures { IfOk result (λ made. block_of made.value ≡ c.Call self.of self.local self.function
            (exprs_of (items_of self.args)) (block_of rest.value)) }
    {
        boxed(
            alloc,
            Tree::Call(self.of, self.local, self.function, self.args, rest),
        )
    }
}

/// Whether a statement returns the local.
fn is_returned(tree: &Tree, of: CType, local: u32) -> bool
    ensures { IsTrue result → block_of tree.now ≡ c.Return (c.Local of local) }
{
    match tree {
        Tree::Return(CExpr::Local(own, number)) => is_same(*own, of) && *number == local,
        Tree::Return(..)
        | Tree::End
        | Tree::Set(..)
        | Tree::Store(..)
        | Tree::StoreAt(..)
        | Tree::Call(..)
        | Tree::Select(..)
        | Tree::If(..)
        | Tree::While(..) => false,
    }
}

/// Whether a call of a function with so many arguments may be replaced.
fn may_replace(
    functions: &[Function],
    flags: &[bool],
    caller: Caller,
    function: u32,
    args: usize,
) -> bool
    ensures there { IsTrue result → function < length functions.now }
    ensures other { IsTrue result → function ≢ caller.number }
    ensures same { IsTrue result → (f : declared.Function) → slice_get functions.now function ≡ Some f
        → args ≡ length (items_of f.parameters) }
    ensures fits { IsTrue result → caller.base + args < 2 ^ 32 }
{
    let place = function as usize;
    if place >= functions.len() || place >= flags.len() || !flags[place] {
        return false;
    }
    function != caller.number
        && functions[place].parameters.items().len() == args
        && caller.base as usize + args <= u32::MAX as usize
}

/// The body of a function in place of a call of it: it goes on where it returns.
fn opened(
    alloc: Global,
    base: u32,
    function: &Function,
    call: Call,
    body: Box<Tree>,
    rest: Box<Tree>,
) -> Result<Box<Tree>, Memory>
    requires same { length (items_of call.args) ≡ length (items_of function.now.parameters) }
    requires fits { base + length (items_of call.args) < 2 ^ 32 }
    requires can { continuing.can_go_on (block_of body.value) ≡ true }
    ensures { IfOk result (λ made. (g : c.Function) → IsFunction function.now g →
        block_of body.value ≡ placing.placed base g.body → block_of made.value
        ≡ spec.opened base call.of call.local g (exprs_of (items_of call.args)) (block_of rest.value)) }
{
    let target = Target {
        result: function.result,
        of: call.of,
        local: call.local,
    };
    let end = boxed(alloc, Tree::End)?;
    let mut made = body;
    go_on(alloc, target, &mut made, end)?;
    follow(&mut made, rest);
    with_parameters(alloc, base, function.parameters.items(), call.args, made)
}

/// A placed body in place of a call: it returns where the call's result is returned right away, and
/// goes on where it can; else the call stays.
fn with_body(
    alloc: Global,
    caller: Caller,
    function: &Function,
    call: Call,
    body: Box<Tree>,
    rest: Box<Tree>,
) -> Result<Box<Tree>, Memory>
    requires other { call.function ≢ caller.number }
    requires same { length (items_of call.args) ≡ length (items_of function.now.parameters) }
    requires fits { caller.base + length (items_of call.args) < 2 ^ 32 }
    ensures { IfOk result (λ made. (gs : prelude.List c.Function) (g : c.Function) (a : c.Block) →
        IsFunction function.now g → slice_get gs call.function ≡ Some g →
        block_of body.value ≡ placing.placed caller.base g.body →
        IsInlined gs caller.number caller.result caller.base a (block_of rest.value) →
        (IsTrue call.is_last → a ≡ c.Return (c.Local call.of call.local)) →
        IsInlined gs caller.number caller.result caller.base
        (c.Call call.of call.local call.function (exprs_of (items_of call.args)) a)
        (block_of made.value)) }
{
    if call.is_last && is_same(call.of, caller.result) && is_same(function.result, caller.result) {
        return with_parameters(
            alloc,
            caller.base,
            function.parameters.items(),
            call.args,
            body,
        );
    }
    if can_go_on(&body) {
        return opened(alloc, caller.base, function, call, body, rest);
    }
    call.stays(alloc, rest)
}

/// A call, or the body of the function in place of it, where it is one that may be and whose
/// statements can go on where they return.
fn replaced(
    alloc: Global,
    functions: &[Function],
    flags: &[bool],
    caller: Caller,
    call: Call,
    rest: Box<Tree>,
) -> Result<Box<Tree>, Memory>
    ensures { IfOk result (λ made. (gs : prelude.List c.Function) → AreFunctions functions.now gs →
        (a : c.Block) → IsInlined gs caller.number caller.result caller.base a (block_of rest.value)
        → (IsTrue call.is_last → a ≡ c.Return (c.Local call.of call.local))
        → IsInlined gs caller.number caller.result caller.base
        (c.Call call.of call.local call.function (exprs_of (items_of call.args)) a)
        (block_of made.value)) }
{
    let args = call.args.items().len();
    if !may_replace(functions, flags, caller, call.function, args) {
        return call.stays(alloc, rest);
    }
    let function = &functions[call.function as usize];
    match placed(alloc, caller.base, function.lines.items()) {
        Ok(body) => with_body(alloc, caller, function, call, body, rest),
        Err(NotPlaced::Number) => call.stays(alloc, rest),
        Err(NotPlaced::Memory) => Err(Memory),
    }
}

/// Replaces a call where it may be; in the statements after it calls are replaced already, and
/// `is_last` tells whether they return its result.
fn replace(
    alloc: Global,
    functions: &[Function],
    flags: &[bool],
    caller: Caller,
    is_last: bool,
    tree: &mut Tree,
) -> Result<(), Memory>
    ensures { OnOk result ((gs : prelude.List c.Function) → AreFunctions functions.now gs →
        (t : CType) (i f : ℕ) (args : prelude.List c.CExpr) (a b : c.Block) →
        block_of tree.old ≡ c.Call t i f args b →
        IsInlined gs caller.number caller.result caller.base a b →
        (IsTrue is_last → a ≡ c.Return (c.Local t i)) →
        IsInlined gs caller.number caller.result caller.base (c.Call t i f args a)
        (block_of tree.new)) }
{
    let old = mem::replace(tree, Tree::End);
    match old {
        Tree::Call(of, local, function, args, rest) => {
            let call = Call {
                of,
                local,
                function,
                args,
                is_last,
            };
            let made = replaced(alloc, functions, flags, caller, call, rest)?;
            drop(mem::replace(tree, Box::into_inner(made)));
        }
        Tree::End
        | Tree::Set(..)
        | Tree::Store(..)
        | Tree::StoreAt(..)
        | Tree::Select(..)
        | Tree::If(..)
        | Tree::While(..)
        | Tree::Return(..) => drop(mem::replace(tree, old)),
    }
    Ok(())
}

/// Replaces calls in statements, the last one first.
pub fn inline(
    alloc: Global,
    functions: &[Function],
    flags: &[bool],
    caller: Caller,
    tree: &mut Tree,
) -> Result<(), Memory>
    ensures { OnOk result ((gs : prelude.List c.Function) → AreFunctions functions.now gs →
        IsInlined gs caller.number caller.result caller.base (block_of tree.old)
        (block_of tree.new)) }
{
    match tree {
        Tree::Set(_, _, _, rest) => inline(alloc, functions, flags, caller, rest),
        Tree::Store(_, _, rest) => inline(alloc, functions, flags, caller, rest),
        Tree::StoreAt(_, _, _, rest) => inline(alloc, functions, flags, caller, rest),
        Tree::Call(of, local, _, _, rest) => {
            let is_last = is_returned(rest, *of, *local);
            inline(alloc, functions, flags, caller, rest)?;
            replace(alloc, functions, flags, caller, is_last, tree)
        }
        Tree::Select(_, _, _, _, _, rest) => inline(alloc, functions, flags, caller, rest),
        Tree::If(_, first, second, rest) => {
            inline(alloc, functions, flags, caller, first)?;
            inline(alloc, functions, flags, caller, second)?;
            inline(alloc, functions, flags, caller, rest)
        }
        Tree::While(_, first, rest) => {
            inline(alloc, functions, flags, caller, first)?;
            inline(alloc, functions, flags, caller, rest)
        }
        Tree::End => Ok(()),
        Tree::Return(_) => Ok(()),
    }
}
