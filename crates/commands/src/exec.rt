//! The command `exec`.
ghost use Rattle.std.specs.Prelude.{◌∷◌, []};
ghost use Rattle.commands.specs.Call.{sources_of, call_of, OthersStay};
ghost use Rattle.commands.specs.Trace.{TraceEnds};
ghost use Rattle.code_language.specs.Code.{code_of};
ghost use Rattle.commands.specs.Exec.{by_code, ExecEnds};

use crate::code_file::read_code_file;
use crate::file::FileEnd;
use crate::traced::{TraceEnd, trace};
use code_language::Code;
use code_machine::Machine;
use code_text::CodeTextFault;
use flow_base::{Bounds, Inputs, Sink};
use std::alloc::Global;

/// How `exec` ends.
#[derive(Drop)]
pub enum ExecEnd {
    /// Nothing comes of the file of the code.
    NoCode(FileEnd<CodeTextFault>),
    /// The code ran.
    Ran(TraceEnd),
}

/// Runs the code of the first file on the machine over the events of the second, with these bounds,
/// and writes the trace. All memory is taken before the first byte of the trace is written.
pub fn exec_code<I: Inputs, O: Sink>(
    alloc: Global,
    code_file: &str,
    event_file: &str,
    bounds: Bounds,
    inputs: &mut I,
    out: &mut O,
) -> ExecEnd
    ensures ends { ExecEnds bounds (call_of I.Inputs O.Sink inputs.old inputs.new out.old out.new)
        code_file.now event_file.now result }
    ensures others { OthersStay (code_file.now ∷ event_file.now ∷ [])
        (sources_of I.Inputs inputs.old) (sources_of I.Inputs inputs.new) }
{
    let code = match read_code_file(alloc, inputs, code_file) {
        Ok(code) => code,
        Err(end) => return ExecEnd::NoCode(end),
    };
    ExecEnd::Ran(run_code(alloc, code, bounds, event_file, inputs, out))
}

/// Runs code on the machine, with these bounds, over the events of the file of that name, and
/// writes the trace.
pub fn run_code<I: Inputs, O: Sink>(
    alloc: Global,
    code: Code,
    bounds: Bounds,
    event_file: &str,
    inputs: &mut I,
    out: &mut O,
) -> TraceEnd
    ensures { TraceEnds (by_code (code_of code) bounds)
        (call_of I.Inputs O.Sink inputs.old inputs.new out.old out.new) event_file.now result }
{
    // Only the proof reads the code: it is well formed.
    let _ = code.raw();
    let Ok(mut machine) = Machine::make(alloc, code, bounds) else {
        return TraceEnd::Memory;
    };
    trace(alloc, &mut machine, event_file, inputs, out)
}
