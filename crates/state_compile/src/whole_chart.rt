//! All procedures of a chart.
ghost use Rattle.std.specs.Prelude.{◌≡◌, ◌++◌, ◌∷◌, [], map, OnOk, IfOk};
ghost use Rattle.flow_base.specs.Lists.{items_of};
ghost use Rattle.code_language.specs.Code.{instrs_of};
ghost use Rattle.chart_code.specs.StateProcedures as templates;
ghost use Rattle.chart_code.specs.Keys as keys;
ghost use Rattle.chart_code.specs.Bodies.{body};
ghost use Rattle.list_compile.specs.Drafts.{procs_of};
ghost use Rattle.list_compile.specs.Numberings.{chart_in};

use crate::regions::{StateKeys, append_ascending, append_descending, append_junction_parts};
use code_language::Instr;
use flow_base::{List, Memory};
use list_compile::results::EMPTY_JUNCTION;
use list_compile::{Draft, Numbering, append, put_return};
use std::alloc::Global;

/// Appends the procedure to which a search of an outer or inner list goes at an empty junction.
fn append_end_mark(alloc: Global, draft: &mut Draft) -> Result<(), Memory>
    ensures { OnOk result (procs_of draft.new ≡ procs_of draft.old ++ templates.end_code ∷ []) }
{
    let mut code = List::of(Vec::new(alloc));
    put_return(&mut code, EMPTY_JUNCTION)?;
    append(draft, code)
}

/// Appends the procedures of all actions, and those of the parts of all transitions.
fn append_actions_and_parts(
    alloc: Global,
    draft: &mut Draft,
    numbering: &Numbering<'_>,
) -> Result<(), Memory>
    ensures { OnOk result (procs_of draft.new ≡ procs_of draft.old
        ++ map (body (chart_in numbering.now))
        (keys.all_actions (chart_in numbering.now)
        ++ (keys.all_state_parts (chart_in numbering.now)
        ++ keys.all_junction_parts (chart_in numbering.now)))) }
{
    append_ascending(alloc, draft, numbering, StateKeys::Actions)?;
    append_ascending(alloc, draft, numbering, StateKeys::Parts)?;
    append_junction_parts(alloc, draft, numbering)?;
    Ok(())
}

/// Appends the procedures that firings take, those of outer and inner lists, and those by which
/// states are processed.
fn append_reactions(
    alloc: Global,
    draft: &mut Draft,
    numbering: &Numbering<'_>,
) -> Result<(), Memory>
    ensures { OnOk result (procs_of draft.new ≡ procs_of draft.old
        ++ map (body (chart_in numbering.now))
        (keys.all_groups (chart_in numbering.now)
        ++ (keys.all_lists (chart_in numbering.now)
        ++ keys.all_processes (chart_in numbering.now)))) }
{
    append_descending(alloc, draft, numbering, StateKeys::Group)?;
    append_descending(alloc, draft, numbering, StateKeys::Lists)?;
    append_descending(alloc, draft, numbering, StateKeys::Process)?;
    Ok(())
}

/// The procedures of a chart, in the order of the layout.
pub fn procedures(alloc: Global, numbering: &Numbering<'_>) -> Result<List<List<Instr>>, Memory>
    ensures { IfOk result (λ procs. map (λ is. instrs_of (items_of is)) (items_of procs)
        ≡ map (body (chart_in numbering.now)) (keys.layout (chart_in numbering.now))) }
{
    let mut draft = Draft {
        procs: List::of(Vec::new(alloc)),
    };
    append_end_mark(alloc, &mut draft)?;
    append_actions_and_parts(alloc, &mut draft, numbering)?;
    append_reactions(alloc, &mut draft, numbering)?;
    Ok(draft.procs)
}
