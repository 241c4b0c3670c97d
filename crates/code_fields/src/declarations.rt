//! The lines of data and events.
ghost use Rattle.std.specs.Prelude.{◌≡◌, ◌≤◌, ◌^◌, option_map, IfSome, IfOk, IsTrue};
ghost use Rattle.std.specs.Option.{option_copied};
ghost use Rattle.chart_lexer.specs.Words.{is_name};
ghost use Rattle.code_fields.specs.Fields as spec;
ghost use Rattle.code_fields.specs.Spelling.{is_init_of};
ghost use Rattle.code_fields.specs.Views as views;

use crate::cuts::cut_at;
use crate::kinds::{event_kind_of, mode_of, var_kind_of};
use crate::numbers::{behind, numeral};
use crate::scales::sort_of;
use actions::{EventDecl, EventKind, Sort, Var, VarKind};
use chart_lexer::{is_name, name_text};
use fixed_point::Mode;
use std::alloc::{AllocError, Global};

/// The first value beyond those that a line may have.
const INIT_END: u128 = (1 << 64) + 1;

/// A datum, whose name stands in its line.
#[derive(Clone, Copy)]
pub struct VarParts<'a> {
    /// Its name.
    pub name: &'a [u8],
    /// Who sets it.
    pub kind: VarKind,
    /// What values it has.
    pub sort: Sort,
    /// What is done with a number out of range.
    pub mode: Mode,
    /// Its first value.
    pub init: i128,
}

/// An event, whose name stands in its line.
#[derive(Clone, Copy)]
pub struct EventParts<'a> {
    /// Its name.
    pub name: &'a [u8],
    /// Who raises it.
    pub kind: EventKind,
}

/// The datum of a line, if it is one.
pub fn var_of(alloc: Global, line: &[u8]) -> Result<Option<Var>, AllocError>
    ensures { IfOk result (λ var. var ≡ spec.var_of line.now) }
{
    match var_parts(line) {
        Some(parts) => Ok(Some(Var {
            name: name_text(alloc, parts.name)?,
            kind: parts.kind,
            sort: parts.sort,
            mode: parts.mode,
            init: parts.init,
        })),
        None => Ok(None),
    }
}

/// The event of a line, if it is one.
pub fn event_of(alloc: Global, line: &[u8]) -> Result<Option<EventDecl>, AllocError>
    ensures { IfOk result (λ event. event ≡ spec.event_of line.now) }
{
    match event_parts(line) {
        Some(parts) => Ok(Some(EventDecl {
            name: name_text(alloc, parts.name)?,
            kind: parts.kind,
        })),
        None => Ok(None),
    }
}

/// The datum of a line.
#[tactic(auto, unfolding(crate::specs::Fields::var_of))]
fn var_parts(line: &[u8]) -> Option<VarParts<'_>>
    ensures parts { option_map views.var_of result ≡ spec.var_of line.now }
    ensures named { IfSome result (λ var. IsTrue (is_name var.name.now)) }
{
    let kind = cut_at(behind(b"d ", line)?, b' ')?;
    var_with_kind(var_kind_of(kind.front)?, kind.rest)
}

/// A datum, from its sort on.
fn var_with_kind(kind: VarKind, text: &[u8]) -> Option<VarParts<'_>>
    ensures parts { option_map views.var_of result ≡ spec.var_with_kind kind text.now }
    ensures named { IfSome result (λ var. IsTrue (is_name var.name.now)) }
{
    let sort = cut_at(text, b' ')?;
    var_with_sort(kind, sort_of(sort.front)?, sort.rest)
}

/// A datum, from its mode on.
fn var_with_sort(kind: VarKind, sort: Sort, text: &[u8]) -> Option<VarParts<'_>>
    ensures parts { option_map views.var_of result ≡ spec.var_with_sort kind sort text.now }
    ensures named { IfSome result (λ var. IsTrue (is_name var.name.now)) }
{
    let mode = cut_at(text, b' ')?;
    var_with_mode(kind, sort, mode_for(sort, mode.front)?, mode.rest)
}

/// A datum, from its first value on.
fn var_with_mode(kind: VarKind, sort: Sort, mode: Mode, text: &[u8]) -> Option<VarParts<'_>>
    ensures parts { option_map views.var_of result ≡ spec.var_with_mode kind sort mode text.now }
    ensures named { IfSome result (λ var. IsTrue (is_name var.name.now)) }
{
    let parts = cut_at(text, b' ')?;
    let init = init_for(sort, parts.front)?;
    let name = name_of(parts.rest)?;
    Some(VarParts {
        name,
        kind,
        sort,
        mode,
        init,
    })
}

/// The event of a line.
#[tactic(auto, unfolding(crate::specs::Fields::event_of))]
fn event_parts(line: &[u8]) -> Option<EventParts<'_>>
    ensures parts { option_map views.event_of result ≡ spec.event_of line.now }
    ensures named { IfSome result (λ event. IsTrue (is_name event.name.now)) }
{
    let parts = cut_at(behind(b"e ", line)?, b' ')?;
    let kind = event_kind_of(parts.front)?;
    let name = name_of(parts.rest)?;
    Some(EventParts { name, kind })
}

/// A text that is a name.
pub fn name_of(text: &[u8]) -> Option<&[u8]>
    ensures name { option_copied result ≡ spec.name_of text.now }
    ensures named { IfSome result (λ name. IsTrue (is_name name.now)) }
{
    if is_name(text) { Some(text) } else { None }
}

/// The mode of a datum of that sort, from its word.
fn mode_for(sort: Sort, word: &[u8]) -> Option<Mode>
    ensures { result ≡ spec.mode_for sort word.now }
{
    match sort {
        Sort::Flag => {
            if word == b"-".as_slice() {
                Some(Mode::Saturate)
            } else {
                None
            }
        }
        Sort::Number(_) => mode_of(word),
    }
}

/// The first value of a datum of that sort, from its word.
fn init_for(sort: Sort, token: &[u8]) -> Option<i128>
    ensures { result ≡ spec.init_for sort token.now }
{
    let init = signed_of(token)?;
    if is_init_of(sort, init) {
        Some(init)
    } else {
        None
    }
}

/// Whether a datum of that sort may have it at first.
fn is_init_of(sort: Sort, init: i128) -> bool
    ensures { result ≡ is_init_of sort init }
{
    match sort {
        Sort::Flag => 0 <= init && init <= 1,
        Sort::Number(_) => true,
    }
}

/// A whole number of at most 2^64 in magnitude.
#[tactic(auto, unfolding(crate::specs::Fields::signed_of))]
fn signed_of(token: &[u8]) -> Option<i128>
    ensures { result ≡ spec.signed_of token.now }
{
    match behind(b"-", token) {
        None => {
            let magnitude = magnitude_of(token)?;
            Some(magnitude as i128)
        }
        Some(rest) => negative(magnitude_of(rest)?),
    }
}

/// A magnitude of at most 2^64.
fn magnitude_of(token: &[u8]) -> Option<u128>
    ensures number { result ≡ spec.magnitude_of token.now }
    ensures small { IfSome result (λ n. n ≤ 2 ^ 64) }
{
    numeral(token, INIT_END)
}

/// The number with a minus sign, unless it is 0.
fn negative(magnitude: u128) -> Option<i128>
    requires { magnitude ≤ 2 ^ 64 }
    ensures { result ≡ spec.negative magnitude }
{
    let less = magnitude.checked_sub(1)?;
    Some(-1 - less as i128)
}
