//! Taking a firing.
ghost use Rattle.std.specs.Prelude.{map, IfOk};
ghost use Rattle.checked_chart.specs.Views.{block_seen};
ghost use Rattle.sos_rules.specs.Moves as rules;
ghost use Rattle.range_blocks.specs.Ends.{rules_in};
ghost use Rattle.range_worlds.specs.Leads.{Among, Leads, chart_in, now_at};

use crate::entries::enter_toward;
use crate::exits::exit_active;
use actions::{Event, Stmt};
use range_blocks::{Ran, play};
use range_rules::Around;
use range_worlds::{Lack, Parted, Setting, Test, split, union};

/// Takes a firing with that home, in each world of some sets: the active child of the home is left,
/// the actions run, and the destination is entered. Answers: those of `exit` and `enter`.
pub fn take(
    setting: &Setting<'_>,
    xs: Vec<Around>,
    home: u32,
    target: u32,
    actions: &[&[Stmt]],
    now: Event,
    deep: u32,
) -> Result<Vec<Around>, Lack>
    ensures { IfOk result (λ ys. Leads setting.now (Among setting.now xs.items)
        (λ b n depth. (rules_in setting.now b n).take home target
        (map (λ a. block_seen a.now) actions.now) (now_at now depth))
        (λ _ w. Among setting.now ys.items w)) }
{
    let left = exit_active(setting, xs, home, now, deep)?;
    let parts = split(setting, left, Test::Bare(home))?;
    let Parted { yes, no } = parts;
    let ran = play(setting, yes, home, actions, now)?;
    let Ran { done, cut } = ran;
    let inner = enter_bare(setting, done, home, target, now, deep)?;
    let early = union(setting, cut, no)?;
    let all = union(setting, inner, early)?;
    Ok(all)
}

/// Enters what is inside a home on the path to `target`, where the home is bare.
fn enter_bare(
    setting: &Setting<'_>,
    xs: Vec<Around>,
    home: u32,
    target: u32,
    now: Event,
    deep: u32,
) -> Result<Vec<Around>, Lack>
    ensures { IfOk result (λ ys. Leads setting.now (Among setting.now xs.items)
        (λ b n depth. rules.if_bare (chart_in setting.now).tree home
        (rules.enter_toward (chart_in setting.now) (rules_in setting.now b n) home target
        (now_at now depth))) (λ _ w. Among setting.now ys.items w)) }
{
    let parts = split(setting, xs, Test::Bare(home))?;
    let Parted { yes, no } = parts;
    let inner = enter_toward(setting, yes, home, target, now, deep)?;
    let all = union(setting, inner, no)?;
    Ok(all)
}
