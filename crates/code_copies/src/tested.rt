//! Which events the instructions of code test for.
ghost use Rattle.std.specs.Prelude.{
  ◌≡◌,
  ◌≤◌,
  IfOk,
  false,
  length,
  map,
  replicate,
  slice_set,
  true,
};
ghost use Rattle.flow_base.specs.declared.chart_limits.TheConstants.{EVENT_LIMIT};
ghost use Rattle.code_language.specs.Code.{code_of, cond_of, instr_of, instrs_of};
ghost use Rattle.code_shrink.specs.Origins.{kept_from};
ghost use Rattle.code_copies.specs.Tested as spec;

use code_language::{Code, Cond, Instr, RawCode};
use flow_base::Memory;
use std::alloc::Global;

/// The event that has to be current for the condition, if it is such a one.
fn current_event(cond: &Cond) -> Option<u32>
    ensures { result ≡ spec.current_event (cond_of cond.now) }
{
    match cond {
        Cond::Current(event) => Some(*event),
        Cond::On(_)
        | Cond::Bare(_)
        | Cond::OnHome
        | Cond::BareHome
        | Cond::Result(_)
        | Cond::Test(_)
        | Cond::Last(_) => None,
    }
}

/// The event that an instruction tests for, if it does.
fn tested_event(instr: &Instr) -> Option<u32>
    ensures { result ≡ spec.tested_event (instr_of instr.now) }
{
    match instr {
        Instr::Unless(_, cond) => current_event(cond),
        Instr::Assign(_, _)
        | Instr::Emit(_)
        | Instr::Mark(_)
        | Instr::Clear(_)
        | Instr::Keep(_)
        | Instr::Skip(_)
        | Instr::Call(_, _)
        | Instr::Visit(_, _)
        | Instr::Send(_)
        | Instr::SendTo(_, _, _)
        | Instr::Play
        | Instr::Home(_)
        | Instr::Begin
        | Instr::Pass
        | Instr::Ret(_) => None,
    }
}

/// Sets the flag of the event, if it has one.
fn set(flags: &mut [bool], event: u32)
    ensures { flags.new ≡ slice_set flags.old event true }
{
    if (event as usize) < flags.len() {
        flags[event as usize] = true;
    }
}

/// Sets the flags of the events that the instructions test for.
fn set_tested(flags: &mut [bool], instrs: &[Instr])
    ensures { flags.new ≡ spec.set_all (map spec.tested_event (instrs_of instrs.now)) flags.old }
{
    for instr in instrs {
        if let Some(event) = tested_event(instr) {
            set(flags, event);
        }
    }
}

/// For each event whether some instruction tests for it.
fn tested_flags(alloc: Global, raw: &RawCode) -> Result<Vec<bool>, Memory>
    ensures { IfOk result (λ flags. flags.items
        ≡ spec.set_all (spec.tested_in (code_of raw.now).procedures.procs)
        (replicate (length (code_of raw.now).names.events) false)) }
{
    let mut flags = vec![in alloc; false; raw.events.items().len()]?;
    for instrs in raw.procs.items() {
        set_tested(&mut flags, instrs.items());
    }
    Ok(flags)
}

/// The numbers of the flags that are set, in ascending order.
fn numbers_of(alloc: Global, flags: &[bool]) -> Result<Vec<u32>, Memory>
    requires { length flags.now ≤ EVENT_LIMIT }
    ensures { IfOk result (λ numbers. numbers.items ≡ kept_from 0 flags.now) }
{
    let mut numbers = Vec::new(alloc);
    for (number, is_set) in flags.iter().enumerate() {
        if *is_set {
            numbers.push(number as u32)?;
        }
    }
    Ok(numbers)
}

/// The events that instructions of the code test for, each once, in ascending order. They can be
/// current, since the code is well formed.
///
/// Its time grows with the code. `Memory` only where memory was refused.
///
/// Source: this project's choice.
pub fn tested_events(alloc: Global, code: &Code) -> Result<Vec<u32>, Memory>
    ensures { IfOk result (λ events. spec.AreTested (code_of code.now) events.items) }
{
    let flags = tested_flags(alloc, code.raw())?;
    numbers_of(alloc, &flags)
}
