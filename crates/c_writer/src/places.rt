//! Where jumps lead among the instructions of a procedure.
ghost use Rattle.std.specs.Prelude.{◌≡◌, ◌≤◌, ◌<◌, ◌+◌, ◌-◌, ◌^◌, Some, drop, length};
ghost use Rattle.code_language.specs.Code.{instr_of, instrs_of};
ghost use Rattle.code_language.specs.declared.limits.TheConstants.{INSTR_LIMIT};
ghost use Rattle.c_functions.specs.Writer as spec;
ghost use Rattle.c_writer.specs.Parts.{StaysWithin, fork_end};

use code_language::Instr;

/// How many of the next instructions an instruction can pass over.
fn jump_of(instr: &Instr) -> u32
    ensures { result ≡ spec.jump_of (instr_of instr.now) }
{
    match instr {
        Instr::Unless(over, _) | Instr::Skip(over) => *over,
        Instr::Assign(_, _)
        | Instr::Emit(_)
        | Instr::Mark(_)
        | Instr::Clear(_)
        | Instr::Keep(_)
        | Instr::Call(_, _)
        | Instr::Visit(_, _)
        | Instr::Send(_)
        | Instr::SendTo(_, _, _)
        | Instr::Play
        | Instr::Home(_)
        | Instr::Begin
        | Instr::Pass
        | Instr::Ret(_) => 0,
    }
}

/// How far an instruction skips, 0 where it is no `Skip`.
fn skip_of(instr: &Instr) -> u32
    ensures { result ≡ spec.skip_of (Some (instr_of instr.now)) }
{
    match instr {
        Instr::Skip(over) => *over,
        Instr::Assign(_, _)
        | Instr::Emit(_)
        | Instr::Mark(_)
        | Instr::Clear(_)
        | Instr::Keep(_)
        | Instr::Unless(_, _)
        | Instr::Call(_, _)
        | Instr::Visit(_, _)
        | Instr::Send(_)
        | Instr::SendTo(_, _, _)
        | Instr::Play
        | Instr::Home(_)
        | Instr::Begin
        | Instr::Pass
        | Instr::Ret(_) => 0,
    }
}

/// Whether none of the instructions from `from` on and before `to` jumps past `to`.
fn stays_within(instrs: &[Instr], from: u32, to: u32) -> bool
    requires { to ≤ length instrs.now }
    ensures { result ≡ spec.stays_within (to - from) (drop from (instrs_of instrs.now)) }
{
    let mut place = from;
    while place < to {
        if jump_of(&instrs[place as usize]) > to - place - 1 {
            return false;
        }
        place += 1;
    }
    true
}

/// How many instructions there are from `rest` on, where the first part of an `Unless` over `over`
/// of them begins, up to where its parts come together.
fn join_of(instrs: &[Instr], rest: u32, over: u32) -> u32
    requires within { rest + over ≤ length instrs.now }
    requires short { length instrs.now ≤ INSTR_LIMIT }
    requires fits { spec.join_of over (drop rest (instrs_of instrs.now)) < 2 ^ 32 }
    ensures { result ≡ spec.join_of over (drop rest (instrs_of instrs.now)) }
{
    if over == 0 {
        return 0;
    }
    over + skip_of(&instrs[(rest + over - 1) as usize])
}

/// Where the two parts of an `Unless` end, of which the first one begins at `rest`.
pub(crate) fn end_of_fork(instrs: &[Instr], rest: u32, over: u32, to: u32) -> u32
    requires within { rest + over ≤ to }
    requires there { to ≤ length instrs.now }
    requires short { length instrs.now ≤ INSTR_LIMIT }
    requires stays { StaysWithin (instrs_of instrs.now) rest to }
    ensures { result ≡ fork_end (instrs_of instrs.now) rest over to }
{
    let join = rest + join_of(instrs, rest, over);
    if stays_within(instrs, rest, join) {
        join
    } else {
        to
    }
}
