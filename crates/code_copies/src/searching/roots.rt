//! What the search takes for known of the root.
use crate::root_code::{never_clears, starts_root};
use code_language::{Instr, RawCode};

/// What is known of the root of the code, where it sends events.
#[derive(Clone, Copy)]
pub(crate) struct Roots {
    /// Whether the root stays active once it is.
    pub keeps_root: bool,
    /// Whether the root is active wherever a reaction begins.
    pub is_rooted: bool,
}

/// Whether an instruction sends an event to the reaction.
fn sends(instr: &Instr) -> bool {
    match instr {
        Instr::Send(_) => true,
        Instr::Assign(_, _)
        | Instr::Emit(_)
        | Instr::Mark(_)
        | Instr::Clear(_)
        | Instr::Keep(_)
        | Instr::Unless(_, _)
        | Instr::Skip(_)
        | Instr::Call(_, _)
        | Instr::Visit(_, _)
        | Instr::SendTo(_, _, _)
        | Instr::Play
        | Instr::Home(_)
        | Instr::Begin
        | Instr::Pass
        | Instr::Ret(_) => false,
    }
}

/// Whether an instruction of the code sends an event to the reaction.
fn has_sends(code: &RawCode) -> bool {
    for instrs in code.procs.items() {
        for instr in instrs.items() {
            if sends(instr) {
                return true;
            }
        }
    }
    false
}

impl Roots {
    /// What is known of the root of the code; nothing where it sends nothing, since only a send
    /// looks at it.
    pub(crate) fn of(code: &RawCode) -> Roots {
        let keeps_root = has_sends(code) && never_clears(code);
        Roots {
            keeps_root,
            is_rooted: keeps_root && starts_root(code),
        }
    }
}
