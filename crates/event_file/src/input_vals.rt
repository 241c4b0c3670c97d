//! The values that one line names.
ghost use Rattle.std.specs.Prelude.{◌≡◌, ◌<◌, length};
ghost use Rattle.std.specs.List.{AllByRecursion};
ghost use Rattle.event_file.specs.LineValues.{without};

use crate::name_table::{NameTable, number_data, number_events};
use actions::{Names, Value};
use flow_base::Memory;
use std::alloc::Global;
use std::marker::Model;

/// The most data that a line names whose numbers are kept.
const NAMED_LIMIT: usize = 16;

/// The values that one line of an event file names, one for each datum that it names. Beside them
/// it keeps the numbers of the names of the chart that it was made for.
#[derive(Drop)]
pub struct InputVals {
    values: Vec<Option<Value>>,
    /// The first `count` of these are the numbers of the data that have a value, unless there are
    /// more.
    named: [usize; NAMED_LIMIT],
    count: usize,
    /// Whether a datum may have a value whose number isn't kept.
    more: bool,
    events: NameTable,
    vars: NameTable,
}

impl Model for InputVals {
    ghost use Rattle.std.specs.Prelude.{◌≤◌, take};
    ghost use Rattle.event_file.specs.LineValues.{LineValues, AreNamed};
    ghost use Rattle.event_file.specs.declared.input_vals.TheConstants.{NAMED_LIMIT};

    ghost Value = { LineValues };

    ghost view = { λ v. record { values = v.values.items; events = v.events; vars = v.vars } };

    ghost invariant = { λ v. (v.count ≤ NAMED_LIMIT)
        × AreNamed v.values.items (take v.count v.named) v.more };
}

impl InputVals {
    ghost use Rattle.std.specs.Prelude.{◌≡◌, ◌<◌, length, replicate, None, Some, IfOk, slice_index_or, slice_set, is_some};
    ghost use Rattle.actions.specs.Names.{names_of};
    ghost use Rattle.event_file.specs.InputValues.{no_inputs};
    ghost use Rattle.event_file.specs.LineValues.{IsMadeFor};
    ghost use Rattle.event_file.specs.NameTables.{number_in};

    /// No values, with room for one of each datum.
    pub fn make(alloc: Global, names: &Names) -> Result<InputVals, Memory>
        ensures none { IfOk result (λ vals. vals.values ≡ no_inputs (names_of names.now)) }
        ensures made { IfOk result (IsMadeFor (names_of names.now)) }
    {
        let events = number_events(alloc, names.events.items())?;
        let vars = number_data(alloc, names.vars.items())?;
        let values = vec![in alloc; None; names.vars.items().len()]?;
        Ok(InputVals {
            values,
            named: [0; NAMED_LIMIT],
            count: 0,
            more: false,
            events,
            vars,
        })
    }

    /// The value that the line gives the datum. None where it gives it none. It takes no memory.
    pub fn get(&self, v: u32) -> Option<Value>
        requires { v < length self.now.values }
        ensures { result ≡ slice_index_or self.now.values v None }
    {
        self.values[v as usize]
    }

    /// How many data there are.
    pub fn len(&self) -> usize
        ensures { result ≡ length self.now.values }
    {
        self.values.len()
    }

    /// The number of the event that has that name.
    pub(crate) fn event_number(&self, name: &[u8]) -> Option<usize>
        ensures { result ≡ number_in self.now.events name.now }
    {
        self.events.number(name)
    }

    /// The number of the datum that has that name.
    pub(crate) fn datum_number(&self, name: &[u8]) -> Option<usize>
        ensures { result ≡ number_in self.now.vars name.now }
    {
        self.vars.number(name)
    }

    /// Whether the datum has a value.
    pub(crate) fn is_named(&self, v: usize) -> bool
        requires { v < length self.now.values }
        ensures { result ≡ is_some (slice_index_or self.now.values v None) }
    {
        self.values[v].is_some()
    }

    /// Drops all values.
    pub(crate) fn clear(&mut self)
        ensures { self.new ≡ record self.old { values = replicate (length self.old.values) None } }
    {
        if self.more {
            self.values.fill(None);
        } else {
            drop_values(&mut self.values, &self.named[..self.count]);
        }
        self.count = 0;
        self.more = false;
    }

    /// Keeps a value.
    pub(crate) fn keep(&mut self, v: usize, value: Value)
        requires { v < length self.old.values }
        ensures { self.new ≡ record self.old { values = slice_set self.old.values v (Some value) } }
    {
        self.values[v] = Some(value);
        if self.count < NAMED_LIMIT {
            self.named[self.count] = v;
            self.count += 1;
        } else {
            self.more = true;
        }
    }
}

/// Drops the values of the data with those numbers.
fn drop_values(values: &mut [Option<Value>], named: &[usize])
    requires { AllByRecursion (λ v. v < length values.old) named.now }
    ensures { values.new ≡ without values.old named.now }
{
    for number in named {
        values[*number] = None;
    }
}
