//! What is asked of a configuration, and how it changes.
ghost use Rattle.std.specs.Prelude.{◌≡◌, ◌<◌, ◌≤◌, ◌++◌, ◌∷◌, [], IfOk, OnOk, OnErr};
ghost use Rattle.std.specs.List.{list_any};
ghost use Rattle.active_config.specs.Marks as marks;
ghost use Rattle.active_config.specs.Marks.{is_on, is_bare};
ghost use Rattle.active_config.specs.Tree.{state_count, children_of};
ghost use Rattle.checked_chart.specs.Chart as charts;
ghost use Rattle.range_worlds.specs.Leads.{chart_in};
ghost use Rattle.range_worlds.specs.Splits as spec;

use crate::setting::{Lack, Setting};
use active_config::Comp;
use range_spans::Config;

/// What is asked of a configuration.
#[derive(Clone, Copy)]
pub enum Test {
    /// Whether a state is active.
    On(u32),
    /// Whether it is active and none of its children is.
    Bare(u32),
    /// Whether it can become active.
    CanMark(u32),
    /// Whether its parent remembers it.
    Last(u32),
}

/// How a configuration changes.
#[derive(Clone, Copy)]
pub enum Change {
    /// A state becomes inactive.
    Clear(u32),
    /// A state becomes active, and its parent remembers it where that has history.
    Enter(u32),
}

/// Goes on where a number is that of a state. For any other number the answer is `Unknown`.
pub fn is_state(setting: &Setting<'_>, state: u32) -> Result<(), Lack>
    ensures state { OnOk result (state < state_count (chart_in setting.now).tree) }
    ensures other { OnErr result (state_count (chart_in setting.now).tree ≤ state) }
{
    if state >= setting.chart.shape().len() {
        return Err(Lack::Unknown);
    }
    Ok(())
}

/// Puts a state behind a list.
fn pushed(states: Vec<u32>, state: u32) -> Result<Vec<u32>, Lack>
    ensures { IfOk result (λ xs. xs.items ≡ states.items ++ state ∷ []) }
{
    let mut all = states;
    match all.push(state) {
        Ok(()) => Ok(all),
        Err(_) => Err(Lack::Memory),
    }
}

/// The children of a state, in the order of the chart. It lacks `Unknown` where the number is that
/// of no state, and else at most memory.
pub fn children(setting: &Setting<'_>, state: u32) -> Result<Vec<u32>, Lack>
    ensures { IfOk result (λ xs. xs.items ≡ children_of (chart_in setting.now).tree state) }
{
    is_state(setting, state)?;
    let mut all = Vec::new(setting.alloc);
    let mut next = setting.chart.first_child(state);
    while let Some(child) = next {
        all = pushed(all, child)?;
        next = setting.chart.next_sibling(child);
    }
    Ok(all)
}

/// Whether one of the states is active.
fn any_on(config: &Config, states: &[u32]) -> bool
    ensures { result ≡ list_any (λ x. is_on x config.now) states.now }
{
    match states.split_first() {
        None => false,
        Some((first, rest)) => config.on(*first) || any_on(config, rest),
    }
}

/// Whether a state is active and none of its children is. `Unknown` where the number is that of no
/// state.
#[tactic(auto, unfolding(active_config::specs::Marks::is_bare))]
fn bare(setting: &Setting<'_>, config: &Config, state: u32) -> Result<bool, Lack>
    ensures { IfOk result (λ b. b ≡ is_bare (chart_in setting.now).tree state config.now) }
{
    let inner = children(setting, state)?;
    Ok(config.on(state) && !any_on(config, &inner))
}

/// Whether one more child of a state's parent may become active: of an OR it must be the only one,
/// and else the parent must be active. Where there is no parent it may.
fn parent_takes(setting: &Setting<'_>, config: &Config, parent: Option<u32>) -> Result<bool, Lack>
    ensures { IfOk result (λ b. b ≡ marks.parent_takes_child (chart_in setting.now).tree parent
        config.now) }
{
    match parent {
        None => Ok(true),
        Some(parent) => {
            is_state(setting, parent)?;
            match setting.chart.comp(parent) {
                Comp::Or => bare(setting, config, parent),
                Comp::And => Ok(config.on(parent)),
                Comp::Leaf => Ok(config.on(parent)),
            }
        }
    }
}

/// Whether a state can become active: it isn't, and its parent may get one more active child.
/// `Unknown` where the number is that of no state.
#[tactic(auto, unfolding(active_config::specs::Marks::can_mark))]
fn can_mark(setting: &Setting<'_>, config: &Config, state: u32) -> Result<bool, Lack>
    ensures { IfOk result (λ b. b ≡ marks.can_mark (chart_in setting.now).tree state config.now) }
{
    is_state(setting, state)?;
    let parent = setting.chart.parent(state);
    let takes = parent_takes(setting, config, parent)?;
    Ok(!config.on(state) && takes)
}

/// Whether the child that is remembered, if there is one, is a state.
fn is_this(child: Option<u32>, state: u32) -> bool
    ensures { result ≡ marks.is_this child state }
{
    match child {
        None => false,
        Some(child) => child == state,
    }
}

/// Whether the parent of a state remembers it. `Unknown` where the number is that of no state.
#[tactic(auto, unfolding(active_config::specs::Marks::is_last))]
fn is_last(setting: &Setting<'_>, config: &Config, state: u32) -> Result<bool, Lack>
    ensures { IfOk result (λ b. b ≡ marks.is_last (chart_in setting.now).tree state config.now) }
{
    is_state(setting, state)?;
    match setting.chart.parent(state) {
        None => Ok(false),
        Some(parent) => Ok(is_this(config.last(parent), state)),
    }
}

/// Whether a configuration passes a test. `Unknown` where the test is of a number that is no state,
/// but for `On`, which no such number passes.
pub fn passes(setting: &Setting<'_>, config: &Config, test: Test) -> Result<bool, Lack>
    ensures { IfOk result (λ b. b ≡ spec.passes (chart_in setting.now).tree test config.now) }
{
    match test {
        Test::On(state) => Ok(config.on(state)),
        Test::Bare(state) => bare(setting, config, state),
        Test::CanMark(state) => can_mark(setting, config, state),
        Test::Last(state) => is_last(setting, config, state),
    }
}

/// Whether the parent of a state has history. `Unknown` where the number is that of no state.
#[tactic(auto, unfolding(checked_chart::specs::Chart::is_remembered, checked_chart::specs::Chart::has_history))]
fn is_remembered(setting: &Setting<'_>, state: u32) -> Result<bool, Lack>
    ensures { IfOk result (λ b. b ≡ charts.is_remembered (chart_in setting.now) state) }
{
    is_state(setting, state)?;
    match setting.chart.parent(state) {
        None => Ok(false),
        Some(parent) => {
            is_state(setting, parent)?;
            match setting.chart.comp(parent) {
                Comp::Or => Ok(setting.chart.history(parent)),
                Comp::And => Ok(false),
                Comp::Leaf => Ok(false),
            }
        }
    }
}

/// The configuration after a state became active. Its parent remembers it where that has history.
/// `Unknown` where the number is that of no state.
#[tactic(auto, unfolding(active_config::specs::Marks::with_last))]
fn entered(setting: &Setting<'_>, config: Config, state: u32) -> Result<Config, Lack>
    ensures { IfOk result (λ c. c ≡ spec.entered_marks (chart_in setting.now) state config) }
{
    is_state(setting, state)?;
    let parent = setting.chart.parent(state);
    let remembered = is_remembered(setting, state)?;
    let mut changed = config;
    changed.set(state, true);
    if remembered {
        changed.keep(parent, state);
    }
    Ok(changed)
}

/// The configuration after a change. `Unknown` where a number that is no state is entered; where
/// one becomes inactive nothing changes.
pub fn turned(setting: &Setting<'_>, config: Config, change: Change) -> Result<Config, Lack>
    ensures { IfOk result (λ c. c ≡ spec.turned (chart_in setting.now) change config) }
{
    match change {
        Change::Clear(state) => {
            let mut changed = config;
            changed.set(state, false);
            Ok(changed)
        }
        Change::Enter(state) => entered(setting, config, state),
    }
}
