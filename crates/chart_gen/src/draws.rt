//! The numbers of a case, drawn one after another.
ghost use Rattle.std.specs.Prelude.{◌≡◌, ◌<◌};
ghost use Rattle.chart_gen.specs.Draws as spec;

/// How large the chart of a case is.
#[derive(Clone, Copy)]
pub(crate) struct Sizes {
    /// The number of regions.
    pub(crate) regions: u32,
    /// The number of states of each region.
    pub(crate) states: u32,
}

/// What is drawn for a region before its states.
#[derive(Clone, Copy)]
pub(crate) struct RegionDraws {
    /// The junction leads to the destination where `x` is greater than this.
    pub(crate) over: u32,
    /// The number of a state.
    pub(crate) destination: u32,
    /// Else it leads to the other one where `x` is smaller than this.
    pub(crate) under: u32,
}

/// What is drawn for a state.
#[derive(Clone, Copy)]
pub(crate) struct StateDraws {
    /// The event that leads to the junction.
    pub(crate) event: u32,
    /// The state to which the event after that one leads.
    pub(crate) destination: u32,
    /// What the entry adds.
    pub(crate) added: u32,
    /// The state to which the local event leads.
    pub(crate) local_destination: u32,
}

/// What is drawn for an event line.
#[derive(Clone, Copy)]
pub(crate) struct EventDraws {
    /// The number of an event, 4 for a tick.
    pub(crate) event: u32,
    /// The value of `x` plus 100.
    pub(crate) input: u32,
}

/// How many seeds there are.
const SEEDS: u32 = 2_147_483_648;

/// A seed is multiplied by this number at each draw, as in the example of `rand` in the C standard
/// (ISO/IEC 9899:2011, 7.22.2.2), whose divisor below is used too.
const MULTIPLIER: u64 = 1_103_515_245;

/// This number is then added.
const INCREMENT: u64 = 12_345;

/// A seed divided by this number gives the number that is drawn.
const DIVISOR: u32 = 65_536;

/// The draws of a case, from a seed that each draw changes.
#[derive(Drop)]
pub(crate) struct Draws {
    seed: u32,
}

impl Draws {
    /// The draws of case `n`.
    #[tactic(auto, unfolding(crate::specs::Draws::first_seed))]
    pub(crate) fn new(n: u32) -> Draws
        ensures { result.seed ≡ spec.first_seed n }
    {
        Draws { seed: n % SEEDS }
    }

    /// Draws a number below `k`.
    #[tactic(auto, unfolding(crate::specs::Draws::next, crate::specs::Draws::drawn))]
    fn draw(&mut self, k: u32) -> u32
        requires { 0 < k }
        ensures number { result ≡ spec.drawn k self.old.seed }
        ensures below { result < k }
        ensures seed { self.new.seed ≡ spec.next self.old.seed }
    {
        let next = u64::from(self.seed) * MULTIPLIER + INCREMENT;
        self.seed = (next % u64::from(SEEDS)) as u32;
        self.seed / DIVISOR % k
    }

    /// Draws the sizes of a chart.
    pub(crate) fn sizes(&mut self) -> Sizes
        ensures sizes { result ≡ spec.sizes self.old.seed }
        ensures states { 0 < result.states }
        ensures seed { self.new.seed ≡ spec.after_sizes self.old.seed }
    {
        Sizes {
            regions: 2 + self.draw(4),
            states: 3 + self.draw(60),
        }
    }

    /// Draws what a region of so many states needs before its states.
    pub(crate) fn region(&mut self, states: u32) -> RegionDraws
        requires { 0 < states }
        ensures region { result ≡ spec.region_draws states self.old.seed }
        ensures seed { self.new.seed ≡ spec.after_region self.old.seed }
    {
        RegionDraws {
            over: self.draw(200),
            destination: self.draw(states),
            under: self.draw(200),
        }
    }

    /// Draws what a state of a region of so many states needs.
    pub(crate) fn state(&mut self, states: u32) -> StateDraws
        requires { 0 < states }
        ensures state { result ≡ spec.state_draws states self.old.seed }
        ensures below { result.event < 4 }
        ensures seed { self.new.seed ≡ spec.after_state self.old.seed }
    {
        StateDraws {
            event: self.draw(4),
            destination: self.draw(states),
            added: self.draw(9),
            local_destination: self.draw(states),
        }
    }

    /// Draws what an event line needs.
    pub(crate) fn event(&mut self) -> EventDraws
        ensures event { result ≡ spec.event_draws self.old.seed }
        ensures below { result.input < 200 }
        ensures seed { self.new.seed ≡ spec.after_event self.old.seed }
    {
        EventDraws {
            event: self.draw(5),
            input: self.draw(200),
        }
    }
}
