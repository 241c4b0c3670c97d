//! What an action does: its statements in order, and the events that they send.
ghost use Rattle.std.specs.Prelude.{◌≡◌, IfSome};
ghost use Rattle.actions.specs.Trees.{stmt_of};
ghost use Rattle.checked_chart.specs.Kept.{chart_of};
ghost use Rattle.checked_chart.specs.Valid.{IsStmt, AreStmts};
ghost use Rattle.checked_chart.specs.Views.{block_seen};
ghost use Rattle.actions.specs.Work as work;
ghost use Rattle.sos_rules.specs.Searches as searches;
ghost use Rattle.sos_interpreter.specs.Charts.{IsState, IsLife, FitsChart};
ghost use Rattle.sos_interpreter.specs.Gives.{Gives};
ghost use Rattle.sos_interpreter.specs.Views.{chart_in, rules_in, life_seen, now_of, end_of};

use crate::processing::process;
use crate::setting::Setting;
use crate::world::{Life, LiveWorld};
use actions::{Event, Halt, Stmt};
use checked_chart::Chart;
use flow_base::Fault;

/// How a block ends.
#[derive(Clone, Copy)]
pub enum End {
    /// All of it was done.
    Done,
    /// It returned early, since its life was over.
    Cut,
}

/// The current event, and how deep it was sent.
#[derive(Clone, Copy)]
pub struct Now {
    /// The event.
    pub event: Event,
    /// How deep it was sent.
    pub depth: u32,
}

/// Runs statements in order, until one is cut.
#[cycle(rules)]
pub(crate) fn run_block(
    setting: &Setting<'_>,
    world: &mut LiveWorld,
    life: Life,
    stmts: &[Stmt],
    now: Now,
) -> Result<End, Halt>
    requires fits { FitsChart (chart_in setting.now) world.old }
    requires life { IsLife (chart_in setting.now) (life_seen life) }
    requires stmts { AreStmts (chart_in setting.now) (block_seen stmts.now) }
    ensures gives { Gives (λ e. end_of e)
        (λ n. (rules_in setting.now n).block (life_seen life) (block_seen stmts.now)
        (now_of now) world.old)
        result world.new }
    ensures fits { FitsChart (chart_in setting.now) world.new }
{
    for stmt in stmts {
        match statement(setting, world, life, stmt, now)? {
            End::Cut => return Ok(End::Cut),
            End::Done => {}
        }
    }
    Ok(End::Done)
}

/// Runs one statement. Directly after a send the life is tested.
#[cycle(rules)]
fn statement(
    setting: &Setting<'_>,
    world: &mut LiveWorld,
    life: Life,
    stmt: &Stmt,
    now: Now,
) -> Result<End, Halt>
    requires fits { FitsChart (chart_in setting.now) world.old }
    requires life { IsLife (chart_in setting.now) (life_seen life) }
    requires stmt { IsStmt (chart_in setting.now) (stmt_of stmt.now) }
    ensures gives { Gives (λ e. end_of e)
        (λ n. searches.statement (chart_in setting.now) setting.now.bounds (rules_in setting.now n)
        (life_seen life) (stmt_of stmt.now) (now_of now) world.old)
        result world.new }
    ensures fits { FitsChart (chart_in setting.now) world.new }
{
    match stmt {
        Stmt::Assign(datum, expr) => {
            world.assign(setting.chart, *datum, expr)?;
            Ok(End::Done)
        }
        Stmt::Emit(event) => {
            world.pay(setting.chart, setting.bounds)?;
            world.emit(setting.chart, *event)?;
            Ok(End::Done)
        }
        Stmt::Send(event) => {
            send(setting, world, *event, None, now)?;
            Ok(alive(setting.chart, world, life))
        }
        Stmt::SendTo(event, state) => {
            send(setting, world, *event, Some(*state), now)?;
            Ok(alive(setting.chart, world, life))
        }
    }
}

/// Cuts a block where its life is over.
fn alive(chart: &Chart, world: &LiveWorld, life: Life) -> End
    requires fits { FitsChart (chart_of chart.now) world.now }
    requires life { IsLife (chart_of chart.now) (life_seen life) }
    ensures { searches.while_alive (chart_of chart.now).tree (life_seen life) world.now
        ≡ work.Ended (end_of result) world.now }
{
    if world.lives(chart, life) {
        End::Done
    } else {
        End::Cut
    }
}

/// Sends an event to the chart or to a state, one level deeper.
#[cycle(rules)]
fn send(
    setting: &Setting<'_>,
    world: &mut LiveWorld,
    event: u32,
    to: Option<u32>,
    now: Now,
) -> Result<(), Halt>
    requires fits { FitsChart (chart_in setting.now) world.old }
    requires to { IfSome to (λ s. IsState (chart_in setting.now) s) }
    ensures gives { Gives (λ _. tt)
        (λ n. (rules_in setting.now n).send event to (now_of now) world.old)
        result world.new }
    ensures fits { FitsChart (chart_in setting.now) world.new }
{
    if now.depth >= setting.bounds.depth {
        return Err(Halt::Fault(Fault::Depth));
    }
    world.pay(setting.chart, setting.bounds)?;
    let deeper = Now {
        event: Event::Named(event),
        depth: now.depth + 1,
    };
    match to {
        None => {
            process(setting, world, setting.chart.root(), deeper)?;
            Ok(())
        }
        Some(state) => {
            if !world.on(setting.chart, state) {
                return Ok(());
            }
            process(setting, world, state, deeper)?;
            Ok(())
        }
    }
}
