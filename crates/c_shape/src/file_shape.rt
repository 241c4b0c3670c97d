//! What the C of a file is written for.
ghost use Rattle.std.specs.Prelude.{◌≡◌};
ghost use Rattle.c_functions.specs.Files as files;
ghost use Rattle.c_shape.specs.Parts.{AreParts, AreRanks};

use crate::fault_tests::Tests;
use crate::notes::noted_in;
use crate::ranks::{Ranks, ranks_of};
use actions::Names;
use active_config::Shape;
use c_functions::function_offsets::{INIT_OFFSET, REACT_OFFSET, START_OFFSET};
use code_language::Code;
use flow_base::{Bounds, List, Memory};
use std::alloc::Global;

/// How many entries `note[]` has where these procedures are noted: enough for a chain of calls of
/// that height for an event and for each of its steps, and one where none is noted.
fn note_room(noted: &[u32], height: u32, bounds: Bounds) -> u64
    ensures { result ≡ files.note_room noted.now height bounds.steps }
{
    if noted.is_empty() {
        1
    } else {
        (u64::from(bounds.steps) + 1) * (u64::from(height) + 1)
    }
}

/// What the C of a file is written for: the states and the names of code, bounds, which faults are
/// tested, how many entries `out[]` has, how many procedures there are, which of them are noted,
/// and how many entries `note[]` has.
#[derive(Drop)]
pub struct FileShape<'a> {
    /// The tree of states.
    pub tree: &'a Shape,
    /// What is declared.
    pub names: &'a Names,
    /// The bounds of a run.
    pub bounds: Bounds,
    /// Which faults are tested.
    pub tests: &'a Tests,
    /// How many entries `out[]` has.
    pub outputs: u32,
    /// How many procedures there are.
    pub procs: u32,
    /// The procedures that are noted, in ascending order.
    pub noted: List<u32>,
    /// How many entries `note[]` has: enough for a chain of calls of the height of the code for an
    /// event and for each of its steps, and one where nothing is noted.
    pub notes: u64,
    /// How many ORs there are.
    ors: u32,
    /// How many ORs have a number below that of each state.
    ranks: Vec<u32>,
    pub ghost parts: { AreParts tree.now names.now procs },
    ghost counted: { AreRanks tree.now ors ranks.items },
}

impl<'a> FileShape<'a> {
    ghost use Rattle.std.specs.Prelude.{◌≡◌, IfOk};
    ghost use Rattle.actions.specs.Names.{names_of};
    ghost use Rattle.code_language.specs.Code.{code_of};
    ghost use Rattle.c_functions.specs.Files.{shape_of};
    ghost use Rattle.c_shape.specs.FileShapes.{shape_seen, tests_seen};

    /// The shape of code with these tests, under these bounds, for so many outputs: its tree and
    /// its names are handed over beside it.
    pub fn make(
        alloc: Global,
        names: &'a Names,
        tree: &'a Shape,
        code: &Code,
        tests: &'a Tests,
        bounds: Bounds,
        outputs: u32,
    ) -> Result<FileShape<'a>, Memory>
        requires names { names_of names.now ≡ (code_of code.now).names }
        requires tree { tree.now ≡ (code_of code.now).tree }
        ensures shape { IfOk result (λ shape.
            shape_seen shape ≡ shape_of (code_of code.now) (tests_seen tests.now) bounds
            outputs) }
    {
        let procs = code.raw().procs.items();
        let noted = noted_in(alloc, procs)?;
        let notes = note_room(noted.items(), code.height(), bounds);
        let Ranks { ranks, ors } = ranks_of(alloc, tree)?;
        Ok(FileShape {
            tree,
            names,
            bounds,
            tests,
            outputs,
            procs: procs.len() as u32,
            noted,
            notes,
            ors,
            ranks,
        })
    }
}

impl FileShape<'_> {
    ghost use Rattle.std.specs.Prelude.{◌≡◌, ◌<◌, ◌≤◌};
    ghost use Rattle.flow_base.specs.declared.chart_limits.TheConstants.{STATE_LIMIT};
    ghost use Rattle.active_config.specs.Tree.{state_count};
    ghost use Rattle.c_functions.specs.Layout.{or_count};
    ghost use Rattle.c_functions.specs.Plans as plans;
    ghost use Rattle.c_shape.specs.FileShapes.{shape_seen};

    /// How many ORs there are, at most 1,024.
    pub fn ors(&self) -> u32
        ensures ors { result ≡ or_count (shape_seen self.now).tree }
        ensures few { result ≤ STATE_LIMIT }
    {
        self.ors
    }

    /// The field of the used steps.
    pub fn used_field(&self) -> u32
        ensures { result ≡ plans.used_field (shape_seen self.now) }
    {
        self.names.vars.items().len() as u32
    }

    /// The function that stores the first values.
    pub fn init_function(&self) -> u32
        ensures { result ≡ plans.init_function (shape_seen self.now) }
    {
        self.procs + INIT_OFFSET
    }

    /// The function of the start.
    pub fn start_function(&self) -> u32
        ensures { result ≡ plans.start_function (shape_seen self.now) }
    {
        self.procs + START_OFFSET
    }

    /// The function of a reaction.
    pub fn react_function(&self) -> u32
        ensures { result ≡ plans.react_function (shape_seen self.now) }
    {
        self.procs + REACT_OFFSET
    }

    /// The field of how many entries of `out[]` are in use.
    pub fn outs_field(&self) -> u32
        ensures { result ≡ plans.outs_field (shape_seen self.now) }
    {
        self.used_field() + 1
    }

    /// The field of how many entries of `note[]` are in use.
    pub fn noted_field(&self) -> u32
        ensures { result ≡ plans.noted_field (shape_seen self.now) }
    {
        self.used_field() + 2
    }

    /// The field of the fault.
    pub fn fault_field(&self) -> u32
        ensures { result ≡ plans.fault_field (shape_seen self.now) }
    {
        self.used_field() + 3
    }

    /// The field of the datum of the fault.
    pub fn fault_datum_field(&self) -> u32
        ensures { result ≡ plans.fault_datum_field (shape_seen self.now) }
    {
        self.used_field() + 4
    }

    /// The field that tells whether a run goes on.
    pub fn ready_field(&self) -> u32
        ensures { result ≡ plans.ready_field (shape_seen self.now) }
    {
        self.used_field() + 5
    }

    /// The field of the number of the active child of an OR.
    pub fn chosen_field(&self, state: u32) -> u32
        requires { state < state_count (shape_seen self.now).tree }
        ensures { result ≡ (plans.layout (shape_seen self.now)).chosen state }
    {
        self.used_field() + 6 + self.ranks[state as usize]
    }

    /// The field of the number of the child that an OR remembers.
    pub fn kept_field(&self, state: u32) -> u32
        requires { state < state_count (shape_seen self.now).tree }
        ensures { result ≡ (plans.layout (shape_seen self.now)).kept state }
    {
        self.used_field() + 6 + self.ors + self.ranks[state as usize]
    }

    /// The field of the word that has the bit of a state.
    pub fn word_field(&self, state: u32) -> u32
        requires { state < state_count (shape_seen self.now).tree }
        ensures { result ≡ (plans.layout (shape_seen self.now)).word state }
    {
        self.used_field() + 6 + self.ors + self.ors + state / 32
    }
}
