//! The numbers of names.
ghost use Rattle.std.specs.Prelude.{◌≡◌, ℕ, List, IfOk};
ghost use Rattle.std.specs.List.{position};
ghost use Rattle.std.specs.Str.{bytes_eq};
ghost use Rattle.actions.specs.declared.names.EventDecl.{EventDecl as DeclShown};
ghost use Rattle.actions.specs.declared.names.Var.{Var as VarShown};
ghost use Rattle.event_file.specs.NameTables.{number_in};

use actions::{EventDecl, Var};
use std::alloc::{AllocError, Global};
use std::collections::HashMap;
use std::marker::Model;

/// Names with their numbers. A look-up takes about as long among many names as among few.
#[derive(Drop)]
pub(crate) struct NameTable {
    numbers: HashMap<String, usize>,
}

impl Model for NameTable {
    ghost use Rattle.std.specs.Prelude.{List};
    ghost use Rattle.event_file.specs.NameTables.{Numbered, numbered, HasTexts};

    ghost Value = { List Numbered };

    ghost view = { λ t. numbered t.numbers.entries };

    ghost invariant = { λ t. HasTexts (numbered t.numbers.entries) };
}

impl NameTable {
    ghost use Rattle.std.specs.Prelude.{◌≡◌, ℕ, List, [], OnOk};
    ghost use Rattle.event_file.specs.NameTables.{number_in, number_after};

    /// No names.
    pub fn new(alloc: Global) -> NameTable
        ensures { result ≡ [] }
    {
        NameTable {
            numbers: HashMap::new(alloc),
        }
    }

    /// The number of a name. None where the table doesn't have it. It takes no memory.
    pub fn number(&self, name: &[u8]) -> Option<usize>
        ensures { result ≡ number_in self.now name.now }
    {
        match str::from_utf8(name) {
            Ok(name) => self.numbers.get(name).copied(),
            Err(_) => None,
        }
    }

    /// Keeps the number of a name, unless the table has the name already.
    pub fn keep(&mut self, alloc: Global, name: &str, number: usize) -> Result<(), AllocError>
        ensures { OnOk result ((q : List ℕ)
            → number_in self.new q ≡ number_after self.old name.now number q) }
    {
        if self.numbers.contains_key(name) {
            return Ok(());
        }
        let key = String::from_str(alloc, name)?;
        match self.numbers.insert(key, number) {
            Ok(_) => Ok(()),
            Err(_) => Err(AllocError),
        }
    }
}

/// The number of each event's name: that of the first event that has it.
pub(crate) fn number_events(alloc: Global, events: &[EventDecl]) -> Result<NameTable, AllocError>
    ensures { IfOk result (λ table. (name : List ℕ)
        → number_in table name ≡ position (λ (e : DeclShown). bytes_eq e.name name) events.now) }
{
    let mut table = NameTable::new(alloc);
    'events: for (number, event) in events.iter().enumerate() {
        table.keep(alloc, event.name.text(), number)?;
    }
    Ok(table)
}

/// The number of each datum's name: that of the first datum that has it.
pub(crate) fn number_data(alloc: Global, vars: &[Var]) -> Result<NameTable, AllocError>
    ensures { IfOk result (λ table. (name : List ℕ)
        → number_in table name ≡ position (λ (v : VarShown). bytes_eq v.name name) vars.now) }
{
    let mut table = NameTable::new(alloc);
    'data: for (number, var) in vars.iter().enumerate() {
        table.keep(alloc, var.name.text(), number)?;
    }
    Ok(table)
}
