//! What was read of a net text so far, and how a line changes it.
ghost use Rattle.std.specs.Prelude.{◌≡◌, codes, option_map, IfOk};
ghost use Rattle.net_text.specs.Fields as fields;
ghost use Rattle.net_text.specs.NetTexts.{net_text_of};
ghost use Rattle.net_text.specs.Reading as spec;
ghost use Rattle.net_text.specs.Views.{partial_of, GoesOn};

use crate::copies::{chart_of_line, route_of_line};
use crate::expected::{Expected, chart_next, route_next};
use crate::fields::count_behind;
use crate::limits::{CHART_LIMIT, ROUTE_LIMIT};
use crate::net::{NetChart, NetText, RouteText};
use flow_base::List;
use std::alloc::{AllocError, Global};

/// What was read: charts and routes, and the next line.
#[derive(Drop)]
pub struct Partial {
    charts: Vec<NetChart>,
    routes: Vec<RouteText>,
    expected: Expected,
}

impl Partial {
    /// Nothing was read.
    pub fn new(alloc: Global) -> Partial
        ensures { partial_of result ≡ spec.nothing_read }
    {
        Partial {
            charts: Vec::new(alloc),
            routes: Vec::new(alloc),
            expected: Expected::Version,
        }
    }

    /// The line that is next.
    pub fn expected(&self) -> Expected
        ensures { result ≡ (partial_of self.now).expected }
    {
        self.expected
    }

    /// The net, where all was read.
    pub fn into_net(self) -> NetText
        ensures { net_text_of result ≡ spec.all_read (partial_of self) }
    {
        NetText {
            charts: List::of(self.charts),
            routes: List::of(self.routes),
        }
    }

    /// Reads the line of that number, and answers whether it can stand where it is.
    #[tactic(auto, unfolding(crate::specs::Reading::next))]
    pub fn read(&mut self, alloc: Global, number: u32, line: &[u8]) -> Result<bool, AllocError>
        ensures { IfOk result (λ stands.
            GoesOn (spec.next (partial_of self.old) number line.now) stands (partial_of self.new)) }
    {
        match self.expected {
            Expected::Version => Ok(self.read_words(b"flownet 1", Expected::ChartCount, line)),
            Expected::ChartCount => Ok(self.read_chart_count(line)),
            Expected::Chart(more) => self.read_chart(alloc, line, more),
            Expected::RouteCount => Ok(self.read_route_count(line)),
            Expected::Route(more) => self.read_route(alloc, number, line, more),
            Expected::End => Ok(self.read_words(b"end", Expected::Nothing, line)),
            Expected::Nothing => Ok(false),
        }
    }

    /// A line of those words, after which another line is expected.
    fn read_words(&mut self, words: &[u8], expected: Expected, line: &[u8]) -> bool
        ensures { GoesOn (spec.with_words words.now expected (partial_of self.old) line.now)
            result (partial_of self.new) }
    {
        if line != words {
            return false;
        }
        self.expected = expected;
        true
    }

    /// The count of charts.
    fn read_chart_count(&mut self, line: &[u8]) -> bool
        ensures { GoesOn (option_map (spec.with_chart_count (partial_of self.old))
            (fields.count_behind (codes "charts ") 1 CHART_LIMIT line.now))
            result (partial_of self.new) }
    {
        let Some(count) = count_behind(b"charts ", line, 1, CHART_LIMIT) else {
            return false;
        };
        self.expected = chart_next(count);
        true
    }

    /// A chart.
    fn read_chart(&mut self, alloc: Global, line: &[u8], more: u32) -> Result<bool, AllocError>
        ensures { IfOk result (λ stands.
            GoesOn (option_map (spec.with_chart (partial_of self.old) more)
            (fields.chart_of_line line.now)) stands (partial_of self.new)) }
    {
        let Some(chart) = chart_of_line(alloc, line)? else {
            return Ok(false);
        };
        self.charts.push(chart)?;
        self.expected = chart_next(more);
        Ok(true)
    }

    /// The count of routes.
    fn read_route_count(&mut self, line: &[u8]) -> bool
        ensures { GoesOn (option_map (spec.with_route_count (partial_of self.old))
            (fields.count_behind (codes "routes ") 0 ROUTE_LIMIT line.now))
            result (partial_of self.new) }
    {
        let Some(count) = count_behind(b"routes ", line, 0, ROUTE_LIMIT) else {
            return false;
        };
        self.expected = route_next(count);
        true
    }

    /// A route.
    fn read_route(
        &mut self,
        alloc: Global,
        number: u32,
        line: &[u8],
        more: u32,
    ) -> Result<bool, AllocError>
        ensures { IfOk result (λ stands.
            GoesOn (spec.next_at (Expected.Route more) (partial_of self.old) number line.now)
            stands (partial_of self.new)) }
    {
        let Some(route) = route_of_line(alloc, self.charts.len(), number, line)? else {
            return Ok(false);
        };
        self.routes.push(route)?;
        self.expected = route_next(more);
        Ok(true)
    }
}
