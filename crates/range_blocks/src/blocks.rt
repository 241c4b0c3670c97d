//! What an action makes of sets of worlds: its statements in order.
ghost use Rattle.std.specs.Prelude.{◌≡◌, [], map, IfOk};
ghost use Rattle.actions.specs.Trees.{stmt_of};
ghost use Rattle.checked_chart.specs.Views.{block_seen};
ghost use Rattle.sos_rules.specs.Searches as rules;
ghost use Rattle.range_worlds.specs.Leads.{Among, Leads, chart_in, now_at};
ghost use Rattle.range_blocks.specs.Ends.{life_of, ran_ends, rules_in};

use crate::life::{Life, life_test};
use crate::sends::send;
use actions::{Event, Stmt};
use range_rules::Around;
use range_worlds::{Lack, Parted, Setting, assign, split, union};

/// Where a block may end.
#[derive(Drop)]
pub struct Ran {
    /// Where all of it was run.
    pub done: Vec<Around>,
    /// Where it was cut, since its life was over.
    pub cut: Vec<Around>,
}

/// A block that was run in all worlds of some sets.
fn done(setting: &Setting<'_>, xs: Vec<Around>) -> Ran
    ensures done { result.done.items ≡ xs.items }
    ensures cut { result.cut.items ≡ [] }
{
    Ran {
        done: xs,
        cut: Vec::new(setting.alloc),
    }
}

/// Cuts a block in the worlds in which its life is over.
fn alive(setting: &Setting<'_>, xs: Vec<Around>, life: Life) -> Result<Ran, Lack>
    ensures { IfOk result (λ r. Leads setting.now (Among setting.now xs.items)
        (λ b n depth. rules.while_alive (chart_in setting.now).tree (life_of life))
        (ran_ends setting.now r)) }
{
    let test = life_test(life);
    let parts = split(setting, xs, test)?;
    let Parted { yes, no } = parts;
    Ok(Ran { done: yes, cut: no })
}

/// Runs one statement. Directly after a send the life is tested.
fn statement(
    setting: &Setting<'_>,
    xs: Vec<Around>,
    life: Life,
    stmt: &Stmt,
    now: Event,
) -> Result<Ran, Lack>
    ensures { IfOk result (λ r. Leads setting.now (Among setting.now xs.items)
        (λ b n depth. rules.statement (chart_in setting.now) b (rules_in setting.now b n)
        (life_of life) (stmt_of stmt.now) (now_at now depth)) (ran_ends setting.now r)) }
{
    // Only the contract reads the current event.
    let _ = now;
    match stmt {
        Stmt::Assign(datum, expr) => {
            let ends = assign(setting, xs, *datum, expr)?;
            Ok(done(setting, ends))
        }
        Stmt::Emit(_) => Ok(done(setting, xs)),
        Stmt::Send(event) => {
            let ends = send(setting, xs, *event, None)?;
            let ran = alive(setting, ends, life)?;
            Ok(ran)
        }
        Stmt::SendTo(event, state) => {
            let ends = send(setting, xs, *event, Some(*state))?;
            let ran = alive(setting, ends, life)?;
            Ok(ran)
        }
    }
}

/// Runs statements in order, until one is cut, in each world of some sets. Answers: those of
/// `assign`, `Sent` where an event is sent from worlds for which the certificate has no cell, and
/// `Unknown` where the life is that of a number that is no state.
pub fn block(
    setting: &Setting<'_>,
    xs: Vec<Around>,
    life: Life,
    stmts: &[Stmt],
    now: Event,
) -> Result<Ran, Lack>
    ensures { IfOk result (λ r. Leads setting.now (Among setting.now xs.items)
        (λ b n depth. (rules_in setting.now b n).block (life_of life) (block_seen stmts.now)
        (now_at now depth)) (ran_ends setting.now r)) }
{
    match stmts.split_first() {
        None => Ok(done(setting, xs)),
        Some((first, rest)) => {
            let ran = statement(setting, xs, life, first, now)?;
            let Ran { done, cut } = ran;
            let after = block(setting, done, life, rest, now)?;
            let Ran { done, cut: later } = after;
            let cut = union(setting, later, cut)?;
            Ok(Ran { done, cut })
        }
    }
}

/// Runs the transition actions of a firing with that home, in each world of some sets. Answers:
/// those of `block`.
pub fn play(
    setting: &Setting<'_>,
    xs: Vec<Around>,
    home: u32,
    actions: &[&[Stmt]],
    now: Event,
) -> Result<Ran, Lack>
    ensures { IfOk result (λ r. Leads setting.now (Among setting.now xs.items)
        (λ b n depth. (rules_in setting.now b n).play home
        (map (λ a. block_seen a.now) actions.now) (now_at now depth)) (ran_ends setting.now r)) }
{
    match actions.split_first() {
        None => Ok(done(setting, xs)),
        Some((first, rest)) => {
            let ran = block(setting, xs, Life::Bare(home), first, now)?;
            let Ran { done, cut } = ran;
            let after = play(setting, done, home, rest, now)?;
            let Ran { done, cut: later } = after;
            let cut = union(setting, later, cut)?;
            Ok(Ran { done, cut })
        }
    }
}
