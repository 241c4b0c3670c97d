//! The lines of states, and notes.
ghost use Rattle.std.specs.Prelude.{◌≡◌, option_map, IfSome, IfOk, IsTrue};
ghost use Rattle.chart_lexer.specs.Words.{is_name};
ghost use Rattle.code_lines.specs.Fields as spec;
ghost use Rattle.code_lines.specs.Views as views;

use active_config::Comp;
use chart_lexer::name_text;
use code_fields::{behind, comp_of, cut_at, name_of, number_of};
use code_language::RawState;
use std::alloc::{AllocError, Global};

/// A state, whose name stands in its line.
#[derive(Clone, Copy)]
pub struct StateLine<'a> {
    /// Its parent.
    pub parent: Option<u32>,
    /// How it is composed.
    pub comp: Comp,
    /// Its name.
    pub name: &'a [u8],
}

/// The state of a line, if it is one: the first has no parent, and the others have one.
#[tactic(auto, unfolding(crate::specs::Fields::state_at))]
pub fn state_at(alloc: Global, first: bool, line: &[u8]) -> Result<Option<RawState>, AllocError>
    ensures { IfOk result (λ state. state ≡ spec.state_at first line.now) }
{
    let Some(parts) = state_parts(line) else {
        return Ok(None);
    };
    if !stands_at(first, parts.parent) {
        return Ok(None);
    }
    Ok(Some(RawState {
        parent: parts.parent,
        comp: parts.comp,
        name: name_text(alloc, parts.name)?,
    }))
}

/// Whether a state with that parent may stand first, or after others.
fn stands_at(first: bool, parent: Option<u32>) -> bool
    ensures { result ≡ spec.parent_stands first parent }
{
    if first {
        parent.is_none()
    } else {
        parent.is_some()
    }
}

/// The state of a line.
#[tactic(auto, unfolding(crate::specs::Fields::state_of))]
fn state_parts(line: &[u8]) -> Option<StateLine<'_>>
    ensures parts { option_map views.state_of result ≡ spec.state_of line.now }
    ensures named { IfSome result (λ state. IsTrue (is_name state.name.now)) }
{
    let parts = cut_at(behind(b"s ", line)?, b' ')?;
    state_with_parent(note_of(parts.front)?, parts.rest)
}

/// A state, from its composition on.
fn state_with_parent(parent: Option<u32>, text: &[u8]) -> Option<StateLine<'_>>
    ensures parts { option_map views.state_of result ≡ spec.state_with_parent parent text.now }
    ensures named { IfSome result (λ state. IsTrue (is_name state.name.now)) }
{
    let parts = cut_at(text, b' ')?;
    let comp = comp_of(parts.front)?;
    let name = name_of(parts.rest)?;
    Some(StateLine { parent, comp, name })
}

/// A number, or `-` for none.
pub fn note_of(token: &[u8]) -> Option<Option<u32>>
    ensures { result ≡ spec.note_of token.now }
{
    if token == b"-".as_slice() {
        Some(None)
    } else {
        let number = number_of(token)?;
        Some(Some(number))
    }
}
