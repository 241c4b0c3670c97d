//! Times in steps of the clock.
ghost use Rattle.std.specs.Prelude.{◌≡◌, ◌<◌, ◌≤◌, ◌*◌, ◌^◌, Option};
ghost use Rattle.std.specs.Option.{option_map};
ghost use Rattle.statechart_meaning.specs.Times as spec;
ghost use Rattle.statechart_values.specs.Views.{timer_seen};

use crate::events::{Clock, clock_of, is_event};
use crate::numbers::{exact_quotient, whole_of};
use chart_tree::LitText;
use statechart_tree::{SourceEvent, Unit};

/// A unit, and the clock in whose steps it is counted.
#[derive(Clone, Copy)]
pub struct Timer<'a> {
    /// The unit.
    pub unit: Unit,
    /// The clock.
    pub clock: Clock<'a>,
}

/// How many millionths of a second a unit is.
fn unit_size(unit: Unit) -> u128
    ensures size { result ≡ spec.unit_size unit }
    ensures bound { result ≤ 3600000000 }
{
    match unit {
        Unit::Usec => 1,
        Unit::Msec => 1_000,
        Unit::Sec => 1_000_000,
        Unit::Min => 60_000_000,
        Unit::Hour => 3_600_000_000,
    }
}

/// The unit of the word.
fn unit_named(name: &str) -> Option<Unit>
    ensures { result ≡ spec.unit_named name.now }
{
    if name == "usec" {
        Some(Unit::Usec)
    } else if name == "msec" {
        Some(Unit::Msec)
    } else if name == "sec" {
        Some(Unit::Sec)
    } else if name == "min" {
        Some(Unit::Min)
    } else if name == "hour" {
        Some(Unit::Hour)
    } else {
        None
    }
}

/// The unit that a name is, with the clock: where no event has the name.
pub fn timer_of<'a>(events: &'a [SourceEvent], name: &str) -> Option<Timer<'a>>
    ensures { option_map timer_seen result ≡ spec.timer_of events.now name.now }
{
    if is_event(events, name) {
        return None;
    }
    match unit_named(name) {
        None => None,
        Some(unit) => match clock_of(events) {
            None => None,
            Some(clock) => Some(Timer { unit, clock }),
        },
    }
}

/// Whether a number has few digits.
fn is_short(units: u128, places: u8) -> bool
    ensures { result ≡ spec.is_short units places }
{
    units < 1_000_000_000_000 && places <= 12
}

/// A power of ten.
fn power_of_ten(places: u8) -> u128
    requires { places ≤ 12 }
    ensures power { result ≡ 10 ^ places }
    ensures bound { result ≤ 1000000000000 }
{
    10u128.pow(u32::from(places))
}

/// A number of few digits times a size of a unit and a power of ten.
fn product(units: u128, size: u128, ten: u128) -> u128
    requires short { units < 1000000000000 }
    requires unit { size ≤ 3600000000 }
    requires power { ten ≤ 1000000000000 }
    ensures { result ≡ units * size * ten }
{
    units * size * ten
}

/// So many units, in steps of the clock.
fn steps_in(timer: Timer<'_>, count: u128, places: u8) -> Option<u128>
    ensures { result ≡ spec.steps_in (timer_seen timer.entry) count places }
{
    let period = timer.clock.period;
    if !is_short(count, places) || !is_short(period.lit.units, period.lit.places) {
        return None;
    }
    let long = product(
        count,
        unit_size(timer.unit),
        power_of_ten(period.lit.places),
    );
    let step = product(
        period.lit.units,
        unit_size(period.unit),
        power_of_ten(places),
    );
    exact_quotient(long, step)
}

/// The number of a literal of a count, in steps of the clock where it has a unit.
pub fn literal_count(timer: Option<Timer<'_>>, lit: LitText) -> Option<u128>
    ensures { result ≡ spec.literal_count (option_map timer_seen timer.entry) lit }
{
    match timer {
        None => whole_of(lit),
        Some(timer) => {
            if lit.q.is_some() {
                None
            } else {
                steps_in(timer, lit.units, lit.places)
            }
        }
    }
}

/// One unit in steps of the clock.
pub fn unit_steps(timer: Timer<'_>) -> Option<u128>
    ensures { result ≡ spec.steps_in (timer_seen timer.entry) 1 0 }
{
    steps_in(timer, 1, 0)
}
