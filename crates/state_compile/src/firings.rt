//! The procedures of firings.
ghost use Rattle.std.specs.Prelude.{◌≡◌, ◌<◌, ◌==◌, ◌++◌, ◌∷◌, [], OnOk};
ghost use Rattle.active_config.specs.Tree.{state_count};
ghost use Rattle.checked_chart.specs.Homes as homes;
ghost use Rattle.chart_code.specs.StateProcedures as templates;
ghost use Rattle.chart_code.specs.Places.{numbers};
ghost use Rattle.list_compile.specs.Drafts.{code_seen, procs_of};
ghost use Rattle.list_compile.specs.Numberings.{chart_in};

use code_language::{Cond, Instr};
use flow_base::{List, Memory};
use list_compile::results::DONE;
use list_compile::{Draft, Numbering, append, put, put_call, put_require, put_return};
use std::alloc::Global;

/// Appends how a state is entered on the way to another one: by default where the way ends at it,
/// else by the child towards the other one.
pub(crate) fn put_toward(
    code: &mut List<Instr>,
    numbering: &Numbering<'_>,
    state: u32,
    dest: u32,
) -> Result<(), Memory>
    requires state { state < state_count (chart_in numbering.now).tree }
    requires dest { dest < state_count (chart_in numbering.now).tree }
    ensures { OnOk result (code_seen code.new ≡ code_seen code.old
        ++ templates.toward_code (numbers (chart_in numbering.now)) state dest (state == dest)
        (homes.child_toward (chart_in numbering.now).tree state dest)) }
{
    if state == dest {
        put_call(code, numbering.defaults(state))?;
        return put_return(code, DONE);
    }
    match numbering.chart.child_toward(state, dest) {
        None => put_return(code, DONE),
        Some(child) => {
            put_call(code, numbering.enter(child, dest))?;
            put_return(code, DONE)
        }
    }
}

/// Appends the procedure of the rest of a firing, once the active child of its home is left.
pub(crate) fn append_arrive(
    alloc: Global,
    draft: &mut Draft,
    numbering: &Numbering<'_>,
    state: u32,
    dest: u32,
) -> Result<(), Memory>
    requires state { state < state_count (chart_in numbering.now).tree }
    requires dest { dest < state_count (chart_in numbering.now).tree }
    ensures { OnOk result (procs_of draft.new ≡ procs_of draft.old
        ++ templates.arrive_code (numbers (chart_in numbering.now)) (chart_in numbering.now).tree
        state dest ∷ []) }
{
    let mut code = List::of(Vec::new(alloc));
    put(&mut code, Instr::Home(state))?;
    put(&mut code, Instr::Play)?;
    put_require(&mut code, Cond::BareHome)?;
    put_toward(&mut code, numbering, state, dest)?;
    append(draft, code)
}

/// Appends the procedure of a firing with this home.
#[tactic(auto, unfolding(chart_code::specs::Places::numbers))]
pub(crate) fn append_take(
    alloc: Global,
    draft: &mut Draft,
    numbering: &Numbering<'_>,
    state: u32,
    dest: u32,
) -> Result<(), Memory>
    requires state { state < state_count (chart_in numbering.now).tree }
    requires dest { dest < state_count (chart_in numbering.now).tree }
    ensures { OnOk result (procs_of draft.new ≡ procs_of draft.old
        ++ templates.take_code (numbers (chart_in numbering.now)) state dest ∷ []) }
{
    let mut code = List::of(Vec::new(alloc));
    put_call(&mut code, numbering.group(state))?;
    put_call(&mut code, numbering.arrive(state, dest))?;
    put_return(&mut code, DONE)?;
    append(draft, code)
}
