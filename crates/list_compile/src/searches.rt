//! The code of lists of transitions, and of the junctions that are reached from them.
ghost use Rattle.std.specs.Prelude.{◌≡◌, ◌<◌, ◌≤◌, ◌+◌, ◌++◌, ◌∷◌, [], map, length, OnOk, OnErr};
ghost use Rattle.std.specs.List.{AllByRecursion};
ghost use Rattle.active_config.specs.Tree.{state_count};
ghost use Rattle.checked_chart.specs.Chart.{junction_count};
ghost use Rattle.checked_chart.specs.Valid.{AreTrans, IsDest};
ghost use Rattle.checked_chart.specs.Views.{list_seen, trans_seen};
ghost use Rattle.chart_code.specs.ListProcedures as templates;
ghost use Rattle.code_language.specs.Instrs as instrs;
ghost use Rattle.chart_code.specs.Places as places;
ghost use Rattle.chart_code.specs.Keys as keys;
ghost use Rattle.chart_code.specs.Bodies.{body};
ghost use Rattle.list_compile.specs.declared.number_limits.TheConstants as limits;
ghost use Rattle.list_compile.specs.Drafts.{Instrs, IsFront, code_seen, procs_of, test_of};
ghost use Rattle.list_compile.specs.Numberings.{chart_in};
ghost use Rattle.list_compile.specs.Searches.{IsSearch, search_seen, lasting_seen};

use crate::blocks::{Lasting, test};
use crate::draft::{Draft, append, put, put_call, put_require, put_return};
use crate::number_offsets::END_MARK;
use crate::numbering::Numbering;
use crate::parts::{action_number, condition_number, guard_number};
use crate::reached::{place_of, reached};
use crate::results::{DONE, FIRST_HOME, GUARD_TRUE, NOTHING};
use crate::sizes::trans_size;
use checked_chart::{Dest, ListKind, Trans};
use code_language::{Cond, Instr};
use flow_base::{List, Memory};
use std::alloc::Global;

/// A list of a state, with the number of its procedure and the junctions that are reached from it.
#[derive(Clone, Copy)]
struct Search<'a> {
    /// The state.
    state: u32,
    /// The kind of the list.
    kind: ListKind,
    /// The number of the list's procedure.
    first: u32,
    /// The junctions, in the order of their procedures, which follow that of the list.
    found: &'a [u32],
}

/// How long a search of a list goes on.
fn lasting(kind: ListKind) -> Lasting
    ensures { result ≡ lasting_seen kind }
{
    match kind {
        ListKind::Outer | ListKind::Inner => Lasting::On,
        ListKind::Default => Lasting::Bare,
    }
}

/// The number of the procedure of a firing of a list.
#[tactic(auto, unfolding(chart_code::specs::Places::numbers))]
fn fire(numbering: &Numbering<'_>, state: u32, kind: ListKind, dest: u32) -> u32
    requires state { state < state_count (chart_in numbering.now).tree }
    requires dest { dest < state_count (chart_in numbering.now).tree }
    ensures { result ≡ (templates.context_of (places.numbers (chart_in numbering.now))
        (chart_in numbering.now).tree state kind).fire dest }
{
    match kind {
        ListKind::Outer => numbering.take(numbering.chart.home(state, kind, dest), dest),
        ListKind::Inner => numbering.take(state, dest),
        ListKind::Default => numbering.arrive(state, dest),
    }
}

/// What a search of a list returns after a firing.
fn fired(numbering: &Numbering<'_>, state: u32, kind: ListKind, dest: u32) -> u32
    requires state { state < state_count (chart_in numbering.now).tree }
    requires dest { dest < state_count (chart_in numbering.now).tree }
    ensures { result ≡ templates.fired_result (chart_in numbering.now).tree state kind dest }
{
    match kind {
        ListKind::Outer => {
            // Only the proof reads the number of states: it is small.
            let _ = numbering.states();
            FIRST_HOME + numbering.chart.home(state, kind, dest)
        }
        ListKind::Inner | ListKind::Default => DONE,
    }
}

/// Appends where a transition leads: a firing, or a visit of a junction.
#[tactic(auto, unfolding(chart_code::specs::Places::list_numbers))]
fn put_dest(
    code: &mut List<Instr>,
    numbering: &Numbering<'_>,
    search: &Search<'_>,
    note: Option<u32>,
    dest: Dest,
) -> Result<(), Memory>
    requires search { IsSearch (chart_in numbering.now) search.now }
    requires dest { IsDest (chart_in numbering.now) dest }
    ensures { OnOk result (code_seen code.new ≡ code_seen code.old
        ++ templates.dest_code (search_seen (chart_in numbering.now) search.now) note dest) }
{
    match dest {
        Dest::State(target) => {
            put(
                code,
                Instr::Call(fire(numbering, search.state, search.kind, target), note),
            )?;
            put_return(code, fired(numbering, search.state, search.kind, target))
        }
        Dest::Junction(junction) => {
            put(
                code,
                Instr::Visit(search.first + 1 + place_of(search.found, junction), note),
            )?;
            put(code, Instr::Pass)
        }
    }
}

/// Appends the call of a condition action, after which the life is tested.
fn put_condition(
    code: &mut List<Instr>,
    lasting: Lasting,
    number: Option<u32>,
) -> Result<(), Memory>
    ensures { OnOk result ((body : Instrs) → code_seen code.new ++ body
        ≡ code_seen code.old ++ templates.condition_code (test_of lasting) number body) }
{
    if let Some(procedure) = number {
        put_call(code, procedure)?;
        put_require(code, test(lasting))?;
    }
    Ok(())
}

/// Appends the call of a guard, after which the next instructions are passed over.
fn put_guard(code: &mut List<Instr>, number: Option<u32>, over: u32) -> Result<(), Memory>
    ensures { OnOk result ((body : Instrs) → length body ≡ over → code_seen code.new ++ body
        ≡ code_seen code.old ++ templates.guarded_code number body) }
{
    if let Some(procedure) = number {
        put_call(code, procedure)?;
        put(code, Instr::Unless(over, Cond::Result(GUARD_TRUE)))?;
    }
    Ok(())
}

/// Appends the test of a trigger, after which the next instructions are passed over.
fn put_event(code: &mut List<Instr>, event: Option<u32>, over: u32) -> Result<(), Memory>
    ensures { OnOk result ((body : Instrs) → length body ≡ over → code_seen code.new ++ body
        ≡ code_seen code.old ++ templates.event_code event body) }
{
    if let Some(number) = event {
        put(code, Instr::Unless(over, Cond::Current(number)))?;
    }
    Ok(())
}

/// How many instructions stand after the tests of a transition.
fn lead_length(condition: Option<u32>) -> u32
    ensures length { (alive : instrs.Cond) (body : Instrs) → length body ≡ 2
        → length (templates.condition_code alive condition body) ≡ result }
    ensures low { result ≤ 6 }
{
    match condition {
        Some(_) => 6,
        None => 2,
    }
}

/// How many instructions stand after the trigger of a transition.
fn guarded_length(guard: Option<u32>, lead: u32) -> u32
    requires { lead ≤ 6 }
    ensures { (body : Instrs) → length body ≡ lead
        → length (templates.guarded_code guard body) ≡ result }
{
    match guard {
        Some(_) => 2 + lead,
        None => lead,
    }
}

/// Appends a transition, the first of whose parts has the number `first`.
fn put_trans(
    code: &mut List<Instr>,
    numbering: &Numbering<'_>,
    search: &Search<'_>,
    trans: &Trans,
    first: u32,
) -> Result<(), Memory>
    requires search { IsSearch (chart_in numbering.now) search.now }
    requires dest { IsDest (chart_in numbering.now) trans.now.dest }
    requires low { first ≤ limits.PART_LIMIT }
    ensures { OnOk result (code_seen code.new ≡ code_seen code.old
        ++ templates.trans_code (search_seen (chart_in numbering.now) search.now)
        (trans_seen trans.now) (places.trans_numbers first (trans_seen trans.now))) }
{
    let guard = guard_number(trans, first);
    let condition = condition_number(trans, search.kind, first);
    let action = action_number(trans, first);
    let lead = lead_length(condition);
    let passed = guarded_length(guard, lead);
    put_event(code, trans.event, passed)?;
    put_guard(code, guard, lead)?;
    put_condition(code, lasting(search.kind), condition)?;
    put_dest(code, numbering, search, action, trans.dest)?;
    Ok(())
}

/// Appends the code of a list, the first of whose parts has the number `first`.
#[tactic(auto, unfolding(chart_code::specs::Places::parts_numbers, chart_code::specs::Places::parts_size))]
fn put_list(
    code: &mut List<Instr>,
    numbering: &Numbering<'_>,
    search: &Search<'_>,
    list: &[Trans],
    first: u32,
) -> Result<(), Memory>
    requires search { IsSearch (chart_in numbering.now) search.now }
    requires valid { AreTrans (chart_in numbering.now) (list_seen list.now) }
    requires low { first + places.parts_size (list_seen list.now) ≤ limits.PART_LIMIT }
    ensures { OnOk result (code_seen code.new ≡ code_seen code.old
        ++ templates.list_code (search_seen (chart_in numbering.now) search.now)
        (list_seen list.now) (places.parts_numbers first (list_seen list.now))) }
{
    let mut number = first;
    for trans in list {
        put_trans(code, numbering, search, trans, number)?;
        number += trans_size(trans);
    }
    put_return(code, NOTHING)?;
    Ok(())
}

/// Appends the code of an empty junction: a search ends there, unless it is that of a default list.
#[tactic(auto, unfolding(chart_code::specs::Places::numbers))]
fn put_empty(
    code: &mut List<Instr>,
    numbering: &Numbering<'_>,
    search: &Search<'_>,
) -> Result<(), Memory>
    ensures { OnOk result (code_seen code.new ≡ code_seen code.old
        ++ templates.empty_code (search_seen (chart_in numbering.now) search.now).end) }
{
    // Only the proof reads the numbering: the contract names its chart.
    let _ = numbering;
    match search.kind {
        ListKind::Outer | ListKind::Inner => {
            put_call(code, END_MARK)?;
            put(code, Instr::Pass)?;
            put_return(code, NOTHING)
        }
        ListKind::Default => put_return(code, NOTHING),
    }
}

/// Appends the code of a junction, the first of whose parts has the number `first`.
fn put_junction(
    code: &mut List<Instr>,
    numbering: &Numbering<'_>,
    search: &Search<'_>,
    list: &[Trans],
    first: u32,
) -> Result<(), Memory>
    requires search { IsSearch (chart_in numbering.now) search.now }
    requires valid { AreTrans (chart_in numbering.now) (list_seen list.now) }
    requires low { first + places.parts_size (list_seen list.now) ≤ limits.PART_LIMIT }
    ensures { OnOk result (code_seen code.new ≡ code_seen code.old
        ++ templates.junction_code (search_seen (chart_in numbering.now) search.now)
        (list_seen list.now) (places.parts_numbers first (list_seen list.now))) }
{
    if list.is_empty() {
        return put_empty(code, numbering, search);
    }
    put_list(code, numbering, search, list, first)
}

/// Appends the procedure of a junction that is reached from a list.
#[tactic(auto, unfolding(chart_code::specs::Places::list_numbers))]
fn append_junction(
    alloc: Global,
    draft: &mut Draft,
    numbering: &Numbering<'_>,
    search: &Search<'_>,
    junction: u32,
) -> Result<(), Memory>
    requires search { IsSearch (chart_in numbering.now) search.now }
    requires junction { junction < junction_count (chart_in numbering.now) }
    ensures ok { OnOk result (procs_of draft.new ≡ procs_of draft.old
        ++ body (chart_in numbering.now)
        (keys.JunctionOf search.now.state search.now.kind junction) ∷ []) }
    ensures err { OnErr result (procs_of draft.new ≡ procs_of draft.old) }
{
    // Only the proof reads the number of states: the chart is valid.
    let _ = numbering.states();
    let list = numbering.chart.junction(junction);
    let first = numbering.parts_of_junction(junction);
    let mut code = List::of(Vec::new(alloc));
    put_junction(&mut code, numbering, search, list, first)?;
    append(draft, code)?;
    Ok(())
}

/// Appends the procedures of the junctions that are reached from a list.
fn append_junctions(
    alloc: Global,
    draft: &mut Draft,
    numbering: &Numbering<'_>,
    search: &Search<'_>,
    found: &[u32],
) -> Result<(), Memory>
    requires search { IsSearch (chart_in numbering.now) search.now }
    requires within { AllByRecursion (λ j. j < junction_count (chart_in numbering.now)) found.now }
    ensures ok { OnOk result (procs_of draft.new ≡ procs_of draft.old
        ++ map (body (chart_in numbering.now))
        (map (λ j. keys.JunctionOf search.now.state search.now.kind j) found.now)) }
    ensures err { OnErr result (IsFront (procs_of draft.old) (procs_of draft.new)) }
{
    for junction in found {
        append_junction(alloc, draft, numbering, search, *junction)?;
    }
    Ok(())
}

/// Appends the procedure of a list.
#[tactic(auto, unfolding(chart_code::specs::Places::list_numbers))]
fn append_first(
    alloc: Global,
    draft: &mut Draft,
    numbering: &Numbering<'_>,
    search: &Search<'_>,
) -> Result<(), Memory>
    requires { IsSearch (chart_in numbering.now) search.now }
    ensures ok { OnOk result (procs_of draft.new ≡ procs_of draft.old
        ++ body (chart_in numbering.now) (keys.ListOf search.now.state search.now.kind) ∷ []) }
    ensures err { OnErr result (procs_of draft.new ≡ procs_of draft.old) }
{
    // Only the proof reads the number of states: the chart is valid.
    let _ = numbering.states();
    let list = numbering.chart.list(search.state, search.kind);
    let first = numbering.parts(search.state, search.kind);
    let mut code = List::of(Vec::new(alloc));
    put(&mut code, Instr::Begin)?;
    put_list(&mut code, numbering, search, list, first)?;
    append(draft, code)?;
    Ok(())
}

/// Appends the procedure of a list of a state, and those of the junctions that are reached from it.
/// After an error the procedures that were there are a front of those that are there then.
pub fn append_list(
    alloc: Global,
    draft: &mut Draft,
    numbering: &Numbering<'_>,
    state: u32,
    kind: ListKind,
) -> Result<(), Memory>
    requires { state < state_count (chart_in numbering.now).tree }
    ensures ok { OnOk result (procs_of draft.new ≡ procs_of draft.old
        ++ map (body (chart_in numbering.now))
        (keys.search_keys (chart_in numbering.now) state kind)) }
    ensures err { OnErr result (IsFront (procs_of draft.old) (procs_of draft.new)) }
{
    // Only the proof reads the number of states: the chart is valid.
    let _ = numbering.states();
    let list = numbering.chart.list(state, kind);
    let junctions = reached(alloc, numbering.chart, list)?;
    let first = numbering.list(state, kind);
    let found = junctions.items();
    let search = Search {
        state,
        kind,
        first,
        found,
    };
    append_first(alloc, draft, numbering, &search)?;
    append_junctions(alloc, draft, numbering, &search, found)?;
    Ok(())
}
