//! Code as it is written, and code that was accepted.
use crate::instr::Instr;
use actions::{EventDecl, Var};
use active_config::{Comp, Shape};
use flow_base::{List, Text};
use std::marker::Model;

/// A state as code declares it.
#[derive(Drop)]
pub struct RawState {
    /// Its parent; none of the root.
    pub parent: Option<u32>,
    /// How it is composed.
    pub comp: Comp,
    /// Its name.
    pub name: Text,
}

/// Code as it is written. States, data, events and procedures are numbered from 0, each in its
/// list.
#[derive(Drop)]
pub struct RawCode {
    /// The states in pre-order, the root first.
    pub states: List<RawState>,
    /// The data.
    pub vars: List<Var>,
    /// The events.
    pub events: List<EventDecl>,
    /// The procedure of the start.
    pub start: u32,
    /// The procedure of a reaction.
    pub react: u32,
    /// The procedures.
    pub procs: List<List<Instr>>,
}

/// What was well-formed code, taken apart.
#[derive(Drop)]
pub struct CodeParts {
    /// The code as it is written.
    pub raw: RawCode,
    /// The tree of its states.
    pub shape: Shape,
}

/// Code that is well formed. A contract sees what is written; `accept` makes it of any code that is
/// well formed, and `of_well_formed` of code that is known to be.
#[derive(Drop)]
pub struct Code {
    raw: RawCode,
    shape: Shape,
    height: u32,
    work: u64,
}

impl Model for Code {
    ghost use Rattle.std.specs.Coded.{codes};
    ghost use Rattle.actions.specs.contracts.expr.Expr as e;
    ghost use Rattle.code_language.specs.declared.code.RawCode.{RawCode};
    ghost use Rattle.code_language.specs.Code.{code_of};
    ghost use Rattle.code_language.specs.Kept.{KeepsMeasures};

    ghost Value = { RawCode };

    ghost coded = { Prim.hlevel (codes, e.the_row.coded) };

    ghost view = { λ code. code.raw };

    ghost invariant = { λ code. KeepsMeasures (code_of code.raw) code.shape code.height code.work };
}

impl Code {
    ghost use Rattle.std.specs.Prelude.{◌≡◌};
    ghost use Rattle.code_language.specs.Code.{code_of};
    ghost use Rattle.code_language.specs.Kept.{KeepsMeasures};
    ghost use Rattle.code_language.specs.Measures.{greatest, heights, works};
    ghost use Rattle.code_language.specs.WellFormed.{IsCode};

    /// Keeps well-formed code with the tree of its states, its height and its work. It takes no
    /// memory.
    pub(crate) fn of(raw: RawCode, shape: Shape, height: u32, work: u64) -> Code
        requires { KeepsMeasures (code_of raw) shape height work }
        ensures { result ≡ raw }
    {
        Code {
            raw,
            shape,
            height,
            work,
        }
    }

    /// The code as it is written. It takes no memory.
    pub fn raw(&self) -> &RawCode
        ensures raw { result.now ≡ self.now }
        ensures well_formed { IsCode (code_of self.now) }
    {
        &self.raw
    }

    /// The tree of its states. It takes no memory.
    pub fn shape(&self) -> &Shape
        ensures { result.now ≡ (code_of self.now).tree }
    {
        &self.shape
    }

    /// The code as it was written, taken out. It takes no memory.
    pub fn into_raw(self) -> RawCode
        ensures raw { result ≡ self }
        ensures well_formed { IsCode (code_of self) }
    {
        self.raw
    }

    /// The code as it was written and the tree of its states, taken out. It takes no memory.
    pub fn into_parts(self) -> CodeParts
        ensures raw { result.raw ≡ self }
        ensures shape { result.shape ≡ (code_of self).tree }
        ensures well_formed { IsCode (code_of self) }
    {
        CodeParts {
            raw: self.raw,
            shape: self.shape,
        }
    }

    /// The greatest height of a procedure, at most 200.
    pub fn height(&self) -> u32
        ensures { result ≡ greatest (heights (code_of self.now).procedures.procs) }
    {
        self.height
    }

    /// The greatest work of a procedure, at most 10,000,000,000 instructions.
    pub fn work(&self) -> u64
        ensures { result ≡ greatest (works (code_of self.now).procedures.procs) }
    {
        self.work
    }
}
