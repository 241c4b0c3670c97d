//! The names of states, printed.
ghost use Rattle.std.specs.Prelude.{◌≡◌, ◌<◌, ◌++◌, ◌∷◌, [], length, string_bytes, OnOk};
ghost use Rattle.active_config.specs.Tree.{IsTree, state_count};
ghost use Rattle.actions.specs.Names.{names_of};
ghost use Rattle.c_header.specs.Paths as spec;

use actions::Names;
use active_config::Shape;
use c_names::print_doubled;
use code_fields::print_number;
use std::alloc::{AllocError, Global};

/// How the path of a state is written.
#[derive(Clone, Copy, PartialEq, Eq)]
pub enum Form {
    /// In words: `/` stands between the names.
    Words,
    /// As a part of a name of C: `_` stands between the names, and two for each `_` of a name.
    Label,
}

/// Appends the path of a state: nothing for the root.
pub(crate) fn print_path(
    out: &mut String,
    form: Form,
    tree: &Shape,
    names: &Names,
    state: u32,
) -> Result<(), AllocError>
    requires tree { IsTree tree.now }
    requires state { state < state_count tree.now }
    requires named { length (names_of names.now).states ≡ state_count tree.now }
    ensures { OnOk result (string_bytes out.new ≡ string_bytes out.old
        ++ spec.path_text form tree.now (names_of names.now) state) }
{
    let Some(parent) = tree.parent(state) else {
        return Ok(());
    };
    if parent == 0 {
        print_part(out, form, name_of(names, state))
    } else {
        print_path(out, form, tree, names, parent)?;
        out.push_str(separator(form))?;
        print_part(out, form, name_of(names, state))
    }
}

/// How long the path of a state is at most in a name of C.
const LONGEST_PATH: usize = 200;

/// Appends a state in a name of C: its path, and where that is too long its number.
#[tactic(auto, unfolding(crate::specs::Paths::state_label))]
pub(crate) fn print_state_label(
    alloc: Global,
    out: &mut String,
    tree: &Shape,
    names: &Names,
    state: u32,
) -> Result<(), AllocError>
    requires tree { IsTree tree.now }
    requires state { state < state_count tree.now }
    requires named { length (names_of names.now).states ≡ state_count tree.now }
    ensures { OnOk result (string_bytes out.new ≡ string_bytes out.old
        ++ spec.state_label tree.now (names_of names.now) state) }
{
    let mut path = String::new(alloc);
    print_path(&mut path, Form::Label, tree, names, state)?;
    if path.len() > LONGEST_PATH {
        print_number(out, "", u64::from(state))
    } else {
        out.push_str(&path)
    }
}

/// The name of a state.
pub(crate) fn name_of(names: &Names, state: u32) -> &str
    requires { state < length (names_of names.now).states }
    ensures { result.now ≡ spec.state_name (names_of names.now) state }
{
    names.states.items()[state as usize].text()
}

/// What stands between the names of a path.
fn separator(form: Form) -> &'static str
    ensures { result.now ≡ spec.separator form ∷ [] }
{
    match form {
        Form::Words => "/",
        Form::Label => "_",
    }
}

/// Appends a name of a path.
fn print_part(out: &mut String, form: Form, name: &str) -> Result<(), AllocError>
    ensures { OnOk result
        (string_bytes out.new ≡ string_bytes out.old ++ spec.part_text form name.now) }
{
    match form {
        Form::Words => out.push_str(name),
        Form::Label => print_doubled(out, name),
    }
}

/// Appends a state in words: the root is the chart.
pub(crate) fn print_place(
    out: &mut String,
    chart: &str,
    tree: &Shape,
    names: &Names,
    state: u32,
) -> Result<(), AllocError>
    requires tree { IsTree tree.now }
    requires state { state < state_count tree.now }
    requires named { length (names_of names.now).states ≡ state_count tree.now }
    ensures { OnOk result (string_bytes out.new ≡ string_bytes out.old
        ++ spec.place_text chart.now tree.now (names_of names.now) state) }
{
    if state == 0 {
        out.push_str(chart)
    } else {
        print_path(out, Form::Words, tree, names, state)
    }
}
