//! What is written about each state.
ghost use Rattle.std.specs.Prelude.{◌≡◌, ◌<◌, ◌++◌, string_bytes, OnOk};
ghost use Rattle.active_config.specs.Tree.{IsTree, state_count};
ghost use Rattle.active_config.specs.Tree as trees;
ghost use Rattle.c_shape.specs.FileShapes.{shape_seen};
ghost use Rattle.c_functions.specs.Layout.{on_c};
ghost use Rattle.c_functions.specs.Plans.{layout};
ghost use Rattle.c_text.specs.declared.kinds.Kind.TheVariants.{Outside};
ghost use Rattle.c_text.specs.Expressions.{bare};
ghost use Rattle.c_text.specs.Labels.{labels_of};
ghost use Rattle.c_header.specs.Fields as fields;
ghost use Rattle.c_header.specs.Header as spec;

use crate::fields::{print_commented, print_field};
use crate::paths::{Form, name_of, print_path, print_place, print_state_label};
use crate::words::print_named;
use active_config::Shape;
use c_shape::FileShape;
use c_text::{Labels, print_test};
use code_fields::print_number;
use std::alloc::{AllocError, Global};

/// What is written about each state.
#[derive(Clone, Copy, PartialEq, Eq)]
pub enum About {
    /// The field of the active child of an OR.
    Active,
    /// The field of the child that an OR remembers.
    Remembered,
    /// The word of bits that begins with the state.
    Bits,
    /// The test whether the state is active.
    Test,
}

/// Appends what is written about all states.
#[tactic(auto, unfolding(crate::specs::Header::states_text))]
pub(crate) fn print_states(
    alloc: Global,
    out: &mut String,
    chart: &str,
    labels: &Labels<'_>,
    shape: &FileShape<'_>,
    about: About,
) -> Result<(), AllocError>
    ensures { OnOk result (string_bytes out.new ≡ string_bytes out.old
        ++ spec.states_text chart.now (labels_of labels.now) (shape_seen shape.now) about) }
{
    for state in 0..shape.tree.len() {
        print_state(alloc, out, chart, labels, shape, about, state)?;
    }
    Ok(())
}

/// Appends what is written about a state.
fn print_state(
    alloc: Global,
    out: &mut String,
    chart: &str,
    labels: &Labels<'_>,
    shape: &FileShape<'_>,
    about: About,
    state: u32,
) -> Result<(), AllocError>
    requires tree { IsTree (shape_seen shape.now).tree }
    requires state { state < state_count (shape_seen shape.now).tree }
    ensures { OnOk result (string_bytes out.new ≡ string_bytes out.old
        ++ spec.state_text chart.now (labels_of labels.now) (shape_seen shape.now) about state) }
{
    match about {
        About::Active => {
            if shape.tree.comp(state).is_or() {
                print_active(out, chart, labels, shape, state)
            } else {
                Ok(())
            }
        }
        About::Remembered => {
            if shape.tree.comp(state).is_or() {
                print_last(out, chart, labels, shape, state)
            } else {
                Ok(())
            }
        }
        About::Bits => print_bits(out, labels, shape, state),
        About::Test => {
            if state == 0 {
                Ok(())
            } else {
                print_test_of(alloc, out, chart, labels, shape, state)
            }
        }
    }
}

/// Appends the field of the active child of an OR.
#[tactic(auto, unfolding(crate::specs::Fields::active_field))]
fn print_active(
    out: &mut String,
    chart: &str,
    labels: &Labels<'_>,
    shape: &FileShape<'_>,
    state: u32,
) -> Result<(), AllocError>
    requires tree { IsTree (shape_seen shape.now).tree }
    requires state { state < state_count (shape_seen shape.now).tree }
    ensures { OnOk result (string_bytes out.new ≡ string_bytes out.old
        ++ fields.active_field chart.now (labels_of labels.now) (shape_seen shape.now) state) }
{
    print_field(out, labels, shape.chosen_field(state))?;
    out.push_str("the active child of ")?;
    print_place(out, chart, shape.tree, shape.names, state)?;
    print_children(out, shape, state)?;
    out.push_str(" */\n")
}

/// Appends the children of a state, with their numbers as children.
#[tactic(auto, unfolding(crate::specs::Fields::children_text))]
fn print_children(out: &mut String, shape: &FileShape<'_>, parent: u32) -> Result<(), AllocError>
    ensures { OnOk result (string_bytes out.new
        ≡ string_bytes out.old ++ fields.children_text (shape_seen shape.now) parent) }
{
    for state in 0..shape.tree.len() {
        print_child(out, shape, parent, state)?;
    }
    Ok(())
}

/// Appends a state, where it is a child of the other.
fn print_child(
    out: &mut String,
    shape: &FileShape<'_>,
    parent: u32,
    state: u32,
) -> Result<(), AllocError>
    requires { state < state_count (shape_seen shape.now).tree }
    ensures { OnOk result (string_bytes out.new
        ≡ string_bytes out.old ++ fields.child_text (shape_seen shape.now) parent state) }
{
    if is_child(shape.tree, parent, state) {
        print_number(out, child_lead(parent, state), u64::from(state) + 1)?;
        out.push_str(" ")?;
        out.push_str(name_of(shape.names, state))
    } else {
        Ok(())
    }
}

/// Whether a state is a child of the other.
#[tactic(auto, unfolding(active_config::specs::Tree::is_child))]
fn is_child(tree: &Shape, parent: u32, state: u32) -> bool
    requires { state < state_count tree.now }
    ensures { result ≡ trees.is_child tree.now parent state }
{
    match tree.parent(state) {
        Some(above) => above == parent,
        None => false,
    }
}

/// What stands before a child, which has a line of its own: the first one stands next to its
/// parent.
fn child_lead(parent: u32, state: u32) -> &'static str
    ensures { result.now ≡ fields.child_lead parent state }
{
    if u64::from(state) == u64::from(parent) + 1 {
        ":\n        "
    } else {
        ",\n        "
    }
}

/// Appends the field of the child that an OR remembers.
#[tactic(auto, unfolding(crate::specs::Fields::last_field))]
fn print_last(
    out: &mut String,
    chart: &str,
    labels: &Labels<'_>,
    shape: &FileShape<'_>,
    state: u32,
) -> Result<(), AllocError>
    requires tree { IsTree (shape_seen shape.now).tree }
    requires state { state < state_count (shape_seen shape.now).tree }
    ensures { OnOk result (string_bytes out.new ≡ string_bytes out.old
        ++ fields.last_field chart.now (labels_of labels.now) (shape_seen shape.now) state) }
{
    print_field(out, labels, shape.kept_field(state))?;
    out.push_str("the child that ")?;
    print_place(out, chart, shape.tree, shape.names, state)?;
    out.push_str(" remembers */\n")
}

/// Appends a word of bits, with the first of its states.
#[tactic(auto, unfolding(crate::specs::Fields::bits_line))]
fn print_bits(
    out: &mut String,
    labels: &Labels<'_>,
    shape: &FileShape<'_>,
    state: u32,
) -> Result<(), AllocError>
    requires { state < state_count (shape_seen shape.now).tree }
    ensures { OnOk result (string_bytes out.new ≡ string_bytes out.old
        ++ fields.bits_line (labels_of labels.now) (shape_seen shape.now) state) }
{
    if state % 32 == 0 {
        print_commented(
            out,
            labels,
            shape.word_field(state),
            "bits of the other states",
        )
    } else {
        Ok(())
    }
}

/// Appends the test whether a state is active.
#[tactic(auto, unfolding(crate::specs::Header::test_text))]
fn print_test_of(
    alloc: Global,
    out: &mut String,
    chart: &str,
    labels: &Labels<'_>,
    shape: &FileShape<'_>,
    state: u32,
) -> Result<(), AllocError>
    requires tree { IsTree (shape_seen shape.now).tree }
    requires state { state < state_count (shape_seen shape.now).tree }
    ensures { OnOk result (string_bytes out.new ≡ string_bytes out.old
        ++ spec.test_text chart.now (labels_of labels.now) (shape_seen shape.now) state) }
{
    print_test_comment(out, shape, state)?;
    print_test_head(alloc, out, chart, shape, state)?;
    print_test_body(alloc, out, labels, shape, state)
}

/// Appends what the test is for.
#[tactic(auto, unfolding(crate::specs::Header::test_comment))]
fn print_test_comment(out: &mut String, shape: &FileShape<'_>, state: u32) -> Result<(), AllocError>
    requires tree { IsTree (shape_seen shape.now).tree }
    requires state { state < state_count (shape_seen shape.now).tree }
    ensures { OnOk result (string_bytes out.new
        ≡ string_bytes out.old ++ spec.test_comment (shape_seen shape.now) state) }
{
    out.push_str("/* Whether ")?;
    print_path(out, Form::Words, shape.tree, shape.names, state)?;
    out.push_str(" is active. */\n")
}

/// Appends the head of the test.
#[tactic(auto, unfolding(crate::specs::Header::test_head))]
fn print_test_head(
    alloc: Global,
    out: &mut String,
    chart: &str,
    shape: &FileShape<'_>,
    state: u32,
) -> Result<(), AllocError>
    requires tree { IsTree (shape_seen shape.now).tree }
    requires state { state < state_count (shape_seen shape.now).tree }
    ensures { OnOk result (string_bytes out.new
        ≡ string_bytes out.old ++ spec.test_head chart.now (shape_seen shape.now) state) }
{
    print_named(out, "static inline bool ", chart, "in_")?;
    print_state_label(alloc, out, shape.tree, shape.names, state)?;
    print_named(out, "(const ", chart, "chart *m)\n")
}

/// Appends the body of the test.
#[tactic(auto, unfolding(crate::specs::Header::test_body))]
fn print_test_body(
    alloc: Global,
    out: &mut String,
    labels: &Labels<'_>,
    shape: &FileShape<'_>,
    state: u32,
) -> Result<(), AllocError>
    requires { state < state_count (shape_seen shape.now).tree }
    ensures { OnOk result (string_bytes out.new ≡ string_bytes out.old
        ++ spec.test_body (labels_of labels.now) (shape_seen shape.now) state) }
{
    out.push_str("{\n    return ")?;
    print_on(alloc, out, labels, shape, state)?;
    out.push_str(";\n}\n\n")
}

/// Appends the expression that a state is active.
fn print_on(
    alloc: Global,
    out: &mut String,
    labels: &Labels<'_>,
    shape: &FileShape<'_>,
    state: u32,
) -> Result<(), AllocError>
    requires { state < state_count (shape_seen shape.now).tree }
    ensures { OnOk result (string_bytes out.new ≡ string_bytes out.old
        ++ bare (labels_of labels.now) Outside (on_c (shape_seen shape.now).tree
        (layout (shape_seen shape.now)) (shape_seen shape.now).numbers state)) }
{
    match shape.on_test(alloc, state) {
        Ok(test) => print_test(out, labels, &test),
        Err(_) => Err(AllocError),
    }
}
