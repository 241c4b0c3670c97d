//! Tables of names: the number of the first name with these bytes in that state.
ghost use Rattle.std.specs.Prelude.{◌≡◌, ◌<◌, ◌^◌, ℕ, List, Option, length, map, IfOk};
ghost use Rattle.indexmap.specs.IndexMap.{get_by};
ghost use Rattle.chart_places.specs.Tables as spec;

use chart_tree::{NameText, Span};
use flow_base::Memory;
use indexmap::IndexMap;
use std::alloc::{AllocError, Global};
use std::marker::Model;

/// A name of a chart text, and the state in which it stands, if it stands in one.
#[derive(Clone, Copy)]
pub struct Entry<'a> {
    /// The state.
    pub owner: Option<u32>,
    /// The name.
    pub name: &'a NameText,
}

/// The number of the first name of each key.
fn number_names<'a>(
    alloc: Global,
    names: &[Entry<'a>],
) -> Result<IndexMap<(Option<u32>, &'a str), u32>, AllocError>
    requires { length names.now < 2 ^ 32 }
    ensures { IfOk result (λ m. (owner : Option ℕ) (text : List ℕ) → get_by (spec.is_key owner text) m
        ≡ spec.declared_from 0 (map spec.declared_of names.now) owner text) }
{
    let mut numbers = IndexMap::new(alloc);
    for (i, entry) in names.iter().enumerate() {
        let key = (entry.owner, entry.name.text.text());
        if numbers.get(&key).is_none() {
            numbers.insert(key, i as u32)?;
        }
    }
    Ok(numbers)
}

/// Declared names by number, of which each may be looked up by its bytes and its state.
#[derive(Drop)]
pub struct DeclaredNames<'a> {
    names: Vec<Entry<'a>>,
    numbers: IndexMap<(Option<u32>, &'a str), u32>,
}

impl<'a> Model for DeclaredNames<'a> {
    ghost use Rattle.std.specs.Prelude.{◌≡◌, ◌<◌, ◌^◌, ℕ, List, Option, map, vec_len};
    ghost use Rattle.indexmap.specs.IndexMap.{get_by};
    ghost use Rattle.chart_places.specs.Tables as spec;

    ghost Value = { List spec.Declared };

    ghost view = { λ t. map spec.declared_of t.names.items };

    ghost invariant = { λ t. (owner : Option ℕ) (text : List ℕ) → get_by (spec.is_key owner text) t.numbers
        ≡ spec.declared_from 0 (map spec.declared_of t.names.items) owner text };
}

impl<'a> DeclaredNames<'a> {
    ghost use Rattle.std.specs.Prelude.{◌≡◌, ◌<◌, ◌^◌, vec_len, length, map, IfOk};
    ghost use Rattle.chart_places.specs.Scopes.{place_of};
    ghost use Rattle.chart_places.specs.Tables as spec;

    /// The table of names, which have their indices for numbers. On an error the names are dropped.
    /// 2^32 names or more count as out of memory.
    pub fn make(alloc: Global, names: Vec<Entry<'a>>) -> Result<DeclaredNames<'a>, Memory>
        ensures { IfOk result (λ t. t ≡ map spec.declared_of names.entry.items) }
    {
        if names.len() > u32::MAX as usize {
            return Err(Memory);
        }
        match number_names(alloc, &names) {
            Ok(numbers) => Ok(DeclaredNames { names, numbers }),
            Err(_) => Err(Memory),
        }
    }

    /// The number of the first name that has these bytes and stands in that state. It takes no
    /// memory.
    pub fn number(&self, owner: Option<u32>, text: &str) -> Option<u32>
        ensures { result ≡ spec.declared_from 0 self.now owner text.now }
    {
        self.numbers.get(&(owner, text)).copied()
    }

    /// Where the name of a number stands.
    pub fn place(&self, number: u32) -> Span
        requires { number < length self.now }
        ensures { result ≡ place_of (spec.names_in self.now) number }
    {
        self.names[number as usize].name.at
    }
}
