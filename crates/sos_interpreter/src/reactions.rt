//! What a chart does at its start and at each event.
ghost use Rattle.std.specs.Prelude.{◌≡◌};
ghost use Rattle.actions.specs.Engines.{AnswersBy, fault_of, IsFaultOf};
ghost use Rattle.sos_interpreter.specs.Charts.{FitsChart};
ghost use Rattle.sos_interpreter.specs.Engine.{first_world, Starts, Reacts};
ghost use Rattle.sos_interpreter.specs.Views.{chart_in};

use crate::blocks::Now;
use crate::entries::enter;
use crate::processing::process;
use crate::setting::Setting;
use crate::world::LiveWorld;
use actions::{Event, Halt};

/// Enters the root.
pub(crate) fn start(setting: &Setting<'_>, world: &mut LiveWorld) -> Result<(), Halt>
    requires first { world.old ≡ first_world (chart_in setting.now) }
    requires fits { FitsChart (chart_in setting.now) world.old }
    ensures defined { AnswersBy
        (Starts (record { chart = chart_in setting.now; bounds = setting.now.bounds })
        world.new) result }
    ensures fits { FitsChart (chart_in setting.now) world.new }
    ensures fault { IsFaultOf (chart_in setting.now).names (fault_of result) }
{
    let root = setting.chart.root();
    let now = Now {
        event: Event::Start,
        depth: 0,
    };
    enter(setting, world, root, root, now)
}

/// Processes the root.
pub(crate) fn react(setting: &Setting<'_>, world: &mut LiveWorld, event: Event) -> Result<(), Halt>
    requires fits { FitsChart (chart_in setting.now) world.old }
    ensures defined { AnswersBy
        (Reacts (record { chart = chart_in setting.now; bounds = setting.now.bounds })
        world.old event world.new) result }
    ensures fits { FitsChart (chart_in setting.now) world.new }
    ensures fault { IsFaultOf (chart_in setting.now).names (fault_of result) }
{
    world.begin(setting.chart);
    let root = setting.chart.root();
    match process(setting, world, root, Now { event, depth: 0 }) {
        Ok(_) => Ok(()),
        Err(halt) => Err(halt),
    }
}
