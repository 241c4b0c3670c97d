//! What was read of a text so far, and how a line changes it.
ghost use Rattle.std.specs.Prelude.{◌≡◌, option_map, IfOk, OnOk};
ghost use Rattle.code_lines.specs.Fields.{state_at};
ghost use Rattle.code_text.specs.Reading as spec;
ghost use Rattle.code_text.specs.Views.{partial_of, GoesOn};
ghost use Rattle.code_text.specs.Written.{written_of};

use crate::counts::{format_of, procs_of};
use crate::expected::{Expected, event_next, head_next, root_next, state_next, var_next};
use actions::{EventDecl, Var};
use code_fields::{event_of, number_behind, var_of};
use code_language::{Instr, RawCode, RawState};
use code_lines::{Format, instr_in, state_at};
use flow_base::List;
use std::alloc::{AllocError, Global};
use std::mem;

/// What was read: whole procedures, the instructions of one that isn't whole, and the next line.
#[derive(Drop)]
pub struct Partial {
    format: Format,
    states: Vec<RawState>,
    vars: Vec<Var>,
    events: Vec<EventDecl>,
    start: u32,
    react: u32,
    procs: Vec<List<Instr>>,
    instrs: Vec<Instr>,
    expected: Expected,
}

impl Partial {
    /// Nothing was read.
    pub fn new(alloc: Global) -> Partial
        ensures { partial_of result ≡ spec.nothing_read }
    {
        Partial {
            format: Format::Two,
            states: Vec::new(alloc),
            vars: Vec::new(alloc),
            events: Vec::new(alloc),
            start: 0,
            react: 0,
            procs: Vec::new(alloc),
            instrs: Vec::new(alloc),
            expected: Expected::Version,
        }
    }

    /// The line that is next.
    pub fn expected(&self) -> Expected
        ensures { result ≡ (partial_of self.now).expected }
    {
        self.expected
    }

    /// The code, where all was read.
    pub fn into_raw(self) -> RawCode
        ensures { written_of result ≡ spec.all_read (partial_of self) }
    {
        RawCode {
            states: List::of(self.states),
            vars: List::of(self.vars),
            events: List::of(self.events),
            start: self.start,
            react: self.react,
            procs: List::of(self.procs),
        }
    }

    /// Reads one more line, and answers whether it can stand where it is.
    #[tactic(auto, unfolding(crate::specs::Reading::next))]
    pub fn read(&mut self, alloc: Global, line: &[u8]) -> Result<bool, AllocError>
        ensures { IfOk result (λ stands.
            GoesOn (spec.next (partial_of self.old) line.now) stands (partial_of self.new)) }
    {
        match self.expected {
            Expected::Version => Ok(self.read_version(line)),
            Expected::StateCount => Ok(self.read_state_count(line)),
            Expected::Root(more) => self.read_state(alloc, true, line, more),
            Expected::State(more) => self.read_state(alloc, false, line, more),
            Expected::VarCount => Ok(self.read_var_count(line)),
            Expected::Var(more) => self.read_var(alloc, line, more),
            Expected::EventCount => Ok(self.read_event_count(line)),
            Expected::Event(more) => self.read_event(alloc, line, more),
            Expected::ProcCount => Ok(self.read_procs(line)),
            Expected::Head(more) => self.read_head(alloc, line, more),
            Expected::Instr(more, procs) => self.read_instr(alloc, line, more, procs),
            Expected::End => Ok(self.read_end(line)),
            Expected::Nothing => Ok(false),
        }
    }

    /// The first line.
    fn read_version(&mut self, line: &[u8]) -> bool
        ensures { GoesOn (spec.next_at Expected.Version (partial_of self.old) line.now)
            result (partial_of self.new) }
    {
        let Some(format) = format_of(line) else {
            return false;
        };
        self.format = format;
        self.expected = Expected::StateCount;
        true
    }

    /// The last line.
    fn read_end(&mut self, line: &[u8]) -> bool
        ensures { GoesOn (spec.next_at Expected.End (partial_of self.old) line.now)
            result (partial_of self.new) }
    {
        if line != b"end".as_slice() {
            return false;
        }
        self.expected = Expected::Nothing;
        true
    }

    /// The count of states.
    fn read_state_count(&mut self, line: &[u8]) -> bool
        ensures { GoesOn (spec.next_at Expected.StateCount (partial_of self.old) line.now)
            result (partial_of self.new) }
    {
        let Some(count) = number_behind(b"states ", line) else {
            return false;
        };
        self.expected = root_next(count);
        true
    }

    /// A state, the first or one after others.
    fn read_state(
        &mut self,
        alloc: Global,
        first: bool,
        line: &[u8],
        more: u32,
    ) -> Result<bool, AllocError>
        ensures { IfOk result (λ stands.
            GoesOn (option_map (spec.with_state (partial_of self.old) more)
            (state_at first line.now)) stands (partial_of self.new)) }
    {
        let Some(state) = state_at(alloc, first, line)? else {
            return Ok(false);
        };
        self.states.push(state)?;
        self.expected = state_next(more);
        Ok(true)
    }

    /// The count of data.
    fn read_var_count(&mut self, line: &[u8]) -> bool
        ensures { GoesOn (spec.next_at Expected.VarCount (partial_of self.old) line.now)
            result (partial_of self.new) }
    {
        let Some(count) = number_behind(b"data ", line) else {
            return false;
        };
        self.expected = var_next(count);
        true
    }

    /// A datum.
    fn read_var(&mut self, alloc: Global, line: &[u8], more: u32) -> Result<bool, AllocError>
        ensures { IfOk result (λ stands.
            GoesOn (spec.next_at (Expected.Var more) (partial_of self.old) line.now)
            stands (partial_of self.new)) }
    {
        let Some(var) = var_of(alloc, line)? else {
            return Ok(false);
        };
        self.vars.push(var)?;
        self.expected = var_next(more);
        Ok(true)
    }

    /// The count of events.
    fn read_event_count(&mut self, line: &[u8]) -> bool
        ensures { GoesOn (spec.next_at Expected.EventCount (partial_of self.old) line.now)
            result (partial_of self.new) }
    {
        let Some(count) = number_behind(b"events ", line) else {
            return false;
        };
        self.expected = event_next(count);
        true
    }

    /// An event.
    fn read_event(&mut self, alloc: Global, line: &[u8], more: u32) -> Result<bool, AllocError>
        ensures { IfOk result (λ stands.
            GoesOn (spec.next_at (Expected.Event more) (partial_of self.old) line.now)
            stands (partial_of self.new)) }
    {
        let Some(event) = event_of(alloc, line)? else {
            return Ok(false);
        };
        self.events.push(event)?;
        self.expected = event_next(more);
        Ok(true)
    }

    /// The line of the procedures.
    fn read_procs(&mut self, line: &[u8]) -> bool
        ensures { GoesOn (spec.next_at Expected.ProcCount (partial_of self.old) line.now)
            result (partial_of self.new) }
    {
        let Some(procs) = procs_of(line) else {
            return false;
        };
        self.start = procs.start;
        self.react = procs.react;
        self.expected = head_next(procs.count);
        true
    }

    /// The head of a procedure.
    fn read_head(&mut self, alloc: Global, line: &[u8], more: u32) -> Result<bool, AllocError>
        ensures { IfOk result (λ stands.
            GoesOn (spec.next_at (Expected.Head more) (partial_of self.old) line.now)
            stands (partial_of self.new)) }
    {
        let Some(count) = number_behind(b"p ", line) else {
            return Ok(false);
        };
        self.expect_instrs(alloc, count, more)?;
        Ok(true)
    }

    /// An instruction.
    fn read_instr(
        &mut self,
        alloc: Global,
        line: &[u8],
        more: u32,
        procs: u32,
    ) -> Result<bool, AllocError>
        ensures { IfOk result (λ stands.
            GoesOn (spec.next_at (Expected.Instr more procs) (partial_of self.old) line.now)
            stands (partial_of self.new)) }
    {
        let Some(instr) = instr_in(alloc, self.format, line)? else {
            return Ok(false);
        };
        self.instrs.push(instr)?;
        self.expect_instrs(alloc, more, procs)?;
        Ok(true)
    }

    /// With `more` instructions to come in the procedure, and `procs` procedures after it.
    fn expect_instrs(&mut self, alloc: Global, more: u32, procs: u32) -> Result<(), AllocError>
        ensures { OnOk result
            (partial_of self.new ≡ spec.instr_next (partial_of self.old) more procs) }
    {
        match more.checked_sub(1) {
            Some(more) => self.expected = Expected::Instr(more, procs),
            None => {
                let instrs = mem::replace(&mut self.instrs, Vec::new(alloc));
                self.procs.push(List::of(instrs))?;
                self.expected = head_next(procs);
            }
        }
        Ok(())
    }
}
