//! Accepts code exactly where it is well formed, and keeps code that is known to be.
ghost use Rattle.std.specs.Prelude.{◌≡◌, None, false, true, IfOk, IfErr, IsOkUnless};
ghost use Rattle.code_language.specs.Code.{code_of};
ghost use Rattle.code_language.specs.Kept.{KeepsMeasures};
ghost use Rattle.code_language.specs.Tables.{IsTable};
ghost use Rattle.code_language.specs.WellFormed.{IsCause, IsCode};
ghost use Rattle.code_language.specs.WellFormed.{known_of, procs_fault, starts_known, too_many};

use crate::code::{Code, RawCode};
use crate::fault::{CodeEnd, CodeFault, CodeKind};
use crate::faults::{procs_fault, too_many};
use crate::heights::greatest_height;
use crate::naming::starts_known;
use crate::tables::{table_shape, tree_shape};
use crate::works::greatest_work;
use active_config::Shape;
use flow_base::Memory;
use std::alloc::Global;

/// The code as accepted, or its first fault. `Memory` only where memory was refused.
///
/// Its time and its memory grow with the code.
pub fn accept(alloc: Global, raw: RawCode) -> Result<Code, CodeEnd>
    ensures accepted { IfOk result (λ code. code ≡ raw) }
    ensures only { IsCode (code_of raw) → IsOkUnless result CodeEnd.Memory }
    ensures refused { IfErr result (λ end. IsCause (code_of raw) end) }
{
    match examine(alloc, &raw) {
        Ok(Examined { shape, measures }) => {
            Ok(Code::of(raw, shape, measures.height, measures.work))
        }
        Err(end) => Err(end),
    }
}

impl Code {
    /// Keeps code that is well formed, which isn't tested again. `Memory` only where memory was
    /// refused.
    ///
    /// Its time and its memory grow with the code.
    pub fn of_well_formed(alloc: Global, raw: RawCode) -> Result<Code, Memory>
        requires { IsCode (code_of raw) }
        ensures { IfOk result (λ code. code ≡ raw) }
    {
        let shape = tree_shape(alloc, raw.states.items())?;
        let measures = measures_of(alloc, &raw)?;
        Ok(Code::of(raw, shape, measures.height, measures.work))
    }
}

/// The greatest height and the greatest work of procedures.
#[derive(Clone, Copy)]
struct Measures {
    height: u32,
    work: u64,
}

/// What is kept of well-formed code.
#[derive(Drop)]
struct Examined {
    shape: Shape,
    measures: Measures,
}

/// What is kept of well-formed code, or why it isn't accepted.
fn examine(alloc: Global, raw: &RawCode) -> Result<Examined, CodeEnd>
    ensures kept { IfOk result (λ found.
        KeepsMeasures (code_of raw.now) found.shape found.measures.height found.measures.work) }
    ensures refused { IfErr result (λ end. IsCause (code_of raw.now) end) }
{
    if too_many(raw) {
        return Err(of_code(CodeKind::TooManyProcs));
    }
    match table_shape(alloc, raw) {
        Ok(Some(shape)) => match measured(alloc, raw) {
            Ok(measures) => Ok(Examined { shape, measures }),
            Err(end) => Err(end),
        },
        Ok(None) => Err(of_code(CodeKind::BadTable)),
        Err(Memory) => Err(CodeEnd::Memory),
    }
}

/// The measures of code whose table is right, or why it isn't accepted.
fn measured(alloc: Global, raw: &RawCode) -> Result<Measures, CodeEnd>
    requires few { too_many (code_of raw.now).procedures.procs ≡ false }
    requires table { IsTable (code_of raw.now).tree (code_of raw.now).names }
    ensures kept { IfOk result (λ most.
        KeepsMeasures (code_of raw.now) (code_of raw.now).tree most.height most.work) }
    ensures refused { IfErr result (λ end. IsCause (code_of raw.now) end) }
{
    if !starts_known(raw) {
        return Err(of_code(CodeKind::BadNumber));
    }
    if let Some(fault) = procs_fault(raw) {
        return Err(CodeEnd::Fault(fault));
    }
    limited(alloc, raw)
}

/// The measures of code that can only be too high or too much work, or why it isn't accepted.
fn limited(alloc: Global, raw: &RawCode) -> Result<Measures, CodeEnd>
    requires few { too_many (code_of raw.now).procedures.procs ≡ false }
    requires table { IsTable (code_of raw.now).tree (code_of raw.now).names }
    requires starts { starts_known (code_of raw.now).procedures ≡ true }
    requires procs { procs_fault (known_of (code_of raw.now)) 0 (code_of raw.now).procedures.procs
        ≡ None }
    ensures kept { IfOk result (λ most.
        KeepsMeasures (code_of raw.now) (code_of raw.now).tree most.height most.work) }
    ensures refused { IfErr result (λ end. IsCause (code_of raw.now) end) }
{
    let height = greatest_height(alloc, raw.procs.items())?;
    let work = greatest_work(alloc, raw.procs.items())?;
    Ok(Measures { height, work })
}

/// The measures of well-formed code.
fn measures_of(alloc: Global, raw: &RawCode) -> Result<Measures, Memory>
    requires { IsCode (code_of raw.now) }
    ensures { IfOk result (λ most.
        KeepsMeasures (code_of raw.now) (code_of raw.now).tree most.height most.work) }
{
    match limited(alloc, raw) {
        Ok(measures) => Ok(measures),
        Err(CodeEnd::Memory) => Err(Memory),
        // Well-formed code has no fault.
        Err(CodeEnd::Fault(_)) => unreachable!(),
    }
}

/// A fault of the code that is in no procedure.
fn of_code(kind: CodeKind) -> CodeEnd
    ensures { result ≡ CodeEnd.Fault (record { kind = kind; proc = 0; place = 0 }) }
{
    CodeEnd::Fault(CodeFault {
        kind,
        proc: 0,
        place: 0,
    })
}
