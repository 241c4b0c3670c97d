//! Why code isn't accepted.
ghost use Rattle.std.specs.Prelude.{◌≡◌, ◌≤◌, length};
ghost use Rattle.code_language.specs.Form.{code_number, code_name, code_fault_text};

use arrayvec::ArrayString;
use itoa::Buffer;
use thiserror::Error;

/// What is wrong with code.
#[derive(Clone, Copy, Debug, PartialEq, Eq)]
pub enum CodeKind {
    /// `start` or `react` is no procedure, or an instruction names a procedure, a note, a state, a
    /// datum or an event that isn't there.
    BadNumber,
    /// An `Unless` or a `Skip` passes over the end of its procedure.
    SkipOut,
    /// A `Call` to a procedure whose number isn't lower than that of its own procedure.
    CallNotLower,
    /// An expression without a sort, with over 64 operators, or with a literal whose mantissa is
    /// negative or at least 2^99 or whose fraction is over 32; a `Test` that is no flag; an
    /// `Assign` to an input, of the other sort or too wide; an `Emit` of an event that is no output
    /// event, a `Send` or `SendTo` of one that is no local event, a `Current` of an output event.
    CodeTypes,
    /// A procedure has a height over `HEIGHT_LIMIT`.
    TooHigh,
    /// A procedure has a work over `WORK_LIMIT`.
    TooMuchWork,
    /// Over `PROC_LIMIT` procedures, or a procedure of over `INSTR_LIMIT` instructions.
    TooManyProcs,
    /// A procedure has no instruction, or its last one isn't a `Ret`.
    NoRet,
    /// What the code declares of states, data and events couldn't be a chart's.
    BadTable,
    /// A `Keep` or a `Last` names state 0, or a state whose parent isn't an OR.
    BadKeep,
}

impl CodeKind {
    /// The number that stands before the name in a refusal.
    pub fn number(self) -> u8
        ensures { result ≡ code_number self }
    {
        match self {
            CodeKind::BadNumber => 1,
            CodeKind::SkipOut => 2,
            CodeKind::CallNotLower => 3,
            CodeKind::CodeTypes => 4,
            CodeKind::TooHigh => 5,
            CodeKind::TooMuchWork => 6,
            CodeKind::TooManyProcs => 7,
            CodeKind::NoRet => 8,
            CodeKind::BadTable => 9,
            CodeKind::BadKeep => 10,
        }
    }

    /// The name, as a refusal prints it.
    pub fn name(self) -> &'static str
        ensures name { result.now ≡ code_name self }
        ensures short { length result.now ≤ 12 }
    {
        match self {
            CodeKind::BadNumber => "BadNumber",
            CodeKind::SkipOut => "SkipOut",
            CodeKind::CallNotLower => "CallNotLower",
            CodeKind::CodeTypes => "CodeTypes",
            CodeKind::TooHigh => "TooHigh",
            CodeKind::TooMuchWork => "TooMuchWork",
            CodeKind::TooManyProcs => "TooManyProcs",
            CodeKind::NoRet => "NoRet",
            CodeKind::BadTable => "BadTable",
            CodeKind::BadKeep => "BadKeep",
        }
    }
}

/// Room for the text of a fault: three numbers, the longest name and three bytes between them.
pub const CODE_FAULT_ROOM: usize = 3 * 40 + 12 + 3;

/// What is wrong with code, and where: a procedure and a place in it, both 0 where it is in none.
#[derive(Clone, Copy, Debug, PartialEq, Eq, Error)]
#[error("{}", self.text())]
pub struct CodeFault {
    /// What is wrong.
    pub kind: CodeKind,
    /// The procedure.
    pub proc: u32,
    /// The place in the procedure, counted from 0.
    pub place: u32,
}

impl CodeFault {
    /// The text of the fault, as standard error gets it. It takes no memory.
    pub fn text(&self) -> ArrayString<CODE_FAULT_ROOM>
        ensures { result.bytes ≡ code_fault_text self.now }
    {
        let mut text = ArrayString::new();
        let mut digits = Buffer::new();
        text.push_str(digits.format(self.kind.number()));
        text.push_str(" ");
        text.push_str(self.kind.name());
        text.push_str(" ");
        text.push_str(digits.format(self.proc));
        text.push_str(".");
        text.push_str(digits.format(self.place));
        text
    }
}

/// Why code isn't accepted.
#[derive(Clone, Copy, Debug, PartialEq, Eq, Error)]
pub enum CodeEnd {
    /// The code isn't well formed, and this is its first fault.
    #[error("{0}")]
    Fault(CodeFault),
    /// Memory ran out.
    #[error("out of memory")]
    Memory,
}
