//! The text of code.
ghost use Rattle.std.specs.Prelude.{◌≡◌, ◌++◌, ◌∷◌, [], length, map, decimal, string_bytes};
ghost use Rattle.std.specs.Prelude.{IfOk, OnOk};
ghost use Rattle.std.specs.List.{flat_map, AllByRecursion};
ghost use Rattle.flow_base.specs.Lists.{items_of};
ghost use Rattle.code_language.specs.Code.{instr_of, instrs_of};
ghost use Rattle.code_lines.specs.Spelling.{state_line, instr_line, HasNumbers, HasParent};
ghost use Rattle.code_fields.specs.Spelling.{var_line, event_line};
ghost use Rattle.code_lines.specs.declared.format.Format.TheVariants.{Two};
ghost use Rattle.code_text.specs.Spelling as spec;
ghost use Rattle.code_text.specs.Written.{written_of};

use actions::{EventDecl, Var};
use code_fields::{print_event, print_number, print_var};
use code_language::{Code, Instr, RawCode, RawState};
use code_lines::{print_instr, print_state};
use flow_base::{List, Memory};
use std::alloc::{AllocError, Global};

/// The text of code in format 2, its one spelling there.
pub fn print_code(alloc: Global, code: &Code) -> Result<String, Memory>
    ensures text { IfOk result (λ text. string_bytes text ≡ spec.code_text Two (written_of code.now)) }
    // So it can be read again, where it isn't too long.
    ensures spellable { OnOk result (spec.IsSpellable Two (written_of code.now)) }
{
    let text = print_raw(alloc, code.raw())?;
    Ok(text)
}

/// The one spelling of code in format 2, well formed or not.
fn print_raw(alloc: Global, raw: &RawCode) -> Result<String, AllocError>
    ensures text { IfOk result (λ text. string_bytes text ≡ spec.code_text Two (written_of raw.now)) }
    ensures parents { OnOk result (AllByRecursion spec.HasItsParent (written_of raw.now).states) }
    ensures numbers { OnOk result
        (AllByRecursion (AllByRecursion HasNumbers) (written_of raw.now).procedures.procs) }
{
    let mut out = String::new(alloc);
    out.push_str("flowcode 2\n")?;
    print_states(&mut out, raw.states.items())?;
    print_vars(&mut out, raw.vars.items())?;
    print_events(&mut out, raw.events.items())?;
    print_procs(&mut out, raw)?;
    out.push_str("end\n")?;
    Ok(out)
}

/// Appends a line of words and a count.
fn print_count(out: &mut String, words: &str, count: usize) -> Result<(), AllocError>
    ensures { OnOk result (string_bytes out.new
        ≡ string_bytes out.old ++ ((words.now ++ decimal count) ++ 10 ∷ [])) }
{
    print_number(out, words, count as u64)?;
    out.push_str("\n")?;
    Ok(())
}

/// Appends the states under their count.
fn print_states(out: &mut String, states: &[RawState]) -> Result<(), AllocError>
    ensures text { OnOk result (string_bytes out.new
        ≡ string_bytes out.old ++ spec.text_of (spec.states_part states.now)) }
    ensures parents { OnOk result (AllByRecursion spec.HasItsParent states.now) }
{
    print_count(out, "states ", states.len())?;
    print_each_state(out, states)
}

/// Appends the lines of states.
fn print_each_state(out: &mut String, states: &[RawState]) -> Result<(), AllocError>
    ensures text { OnOk result (string_bytes out.new
        ≡ string_bytes out.old ++ spec.text_of (map state_line states.now)) }
    ensures parents { OnOk result (AllByRecursion spec.HasItsParent states.now) }
{
    for state in states {
        print_state(out, state)?;
    }
    Ok(())
}

/// Appends the data under their count.
fn print_vars(out: &mut String, vars: &[Var]) -> Result<(), AllocError>
    ensures { OnOk result (string_bytes out.new
        ≡ string_bytes out.old ++ spec.text_of (spec.vars_part vars.now)) }
{
    print_count(out, "data ", vars.len())?;
    print_each_var(out, vars)
}

/// Appends the lines of data.
fn print_each_var(out: &mut String, vars: &[Var]) -> Result<(), AllocError>
    ensures { OnOk result (string_bytes out.new
        ≡ string_bytes out.old ++ spec.text_of (map var_line vars.now)) }
{
    for var in vars {
        print_var(out, var)?;
    }
    Ok(())
}

/// Appends the events under their count.
fn print_events(out: &mut String, events: &[EventDecl]) -> Result<(), AllocError>
    ensures { OnOk result (string_bytes out.new
        ≡ string_bytes out.old ++ spec.text_of (spec.events_part events.now)) }
{
    print_count(out, "events ", events.len())?;
    print_each_event(out, events)
}

/// Appends the lines of events.
fn print_each_event(out: &mut String, events: &[EventDecl]) -> Result<(), AllocError>
    ensures { OnOk result (string_bytes out.new
        ≡ string_bytes out.old ++ spec.text_of (map event_line events.now)) }
{
    for event in events {
        print_event(out, event)?;
    }
    Ok(())
}

/// Appends the procedures under their count.
fn print_procs(out: &mut String, raw: &RawCode) -> Result<(), AllocError>
    ensures text { OnOk result (string_bytes out.new
        ≡ string_bytes out.old ++ spec.text_of (spec.procs_part (written_of raw.now).procedures)) }
    ensures numbers { OnOk result
        (AllByRecursion (AllByRecursion HasNumbers) (written_of raw.now).procedures.procs) }
{
    print_head(out, raw)?;
    print_each_proc(out, raw.procs.items())
}

/// Appends the line of the procedures.
fn print_head(out: &mut String, raw: &RawCode) -> Result<(), AllocError>
    ensures { OnOk result (string_bytes out.new ≡ string_bytes out.old
        ++ (spec.procs_line (length (written_of raw.now).procedures.procs) raw.now.start raw.now.react
        ++ 10 ∷ [])) }
{
    print_number(out, "procs ", raw.procs.items().len() as u64)?;
    print_number(out, " ", u64::from(raw.start))?;
    print_number(out, " ", u64::from(raw.react))?;
    out.push_str("\n")?;
    Ok(())
}

/// Appends the lines of each procedure.
fn print_each_proc(out: &mut String, procs: &[List<Instr>]) -> Result<(), AllocError>
    ensures text { OnOk result (string_bytes out.new ≡ string_bytes out.old
        ++ spec.text_of (flat_map spec.proc_lines (map (λ is. instrs_of (items_of is)) procs.now))) }
    ensures numbers { OnOk result
        (AllByRecursion (AllByRecursion HasNumbers) (map (λ is. instrs_of (items_of is)) procs.now)) }
{
    for proc in procs {
        print_proc(out, proc.items())?;
    }
    Ok(())
}

/// Appends the lines of a procedure.
fn print_proc(out: &mut String, instrs: &[Instr]) -> Result<(), AllocError>
    ensures text { OnOk result (string_bytes out.new
        ≡ string_bytes out.old ++ spec.text_of (spec.proc_lines (instrs_of instrs.now))) }
    ensures numbers { OnOk result (AllByRecursion HasNumbers (instrs_of instrs.now)) }
{
    print_count(out, "p ", instrs.len())?;
    print_instrs(out, instrs)
}

/// Appends the lines of instructions.
fn print_instrs(out: &mut String, instrs: &[Instr]) -> Result<(), AllocError>
    ensures text { OnOk result (string_bytes out.new
        ≡ string_bytes out.old ++ spec.text_of (map instr_line (instrs_of instrs.now))) }
    ensures numbers { OnOk result (AllByRecursion HasNumbers (instrs_of instrs.now)) }
{
    for instr in instrs {
        print_instr(out, instr)?;
        out.push_str("\n")?;
    }
    Ok(())
}
