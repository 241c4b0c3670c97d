//! Names that stand twice.
ghost use Rattle.std.specs.Prelude.{◌≡◌, ◌<◌, ◌≤◌, [], length, IfSome};
ghost use Rattle.std.specs.List.{list_any};
ghost use Rattle.std.specs.Str.{bytes_eq};
ghost use Rattle.net_text.specs.declared.net.NetChart.{NetChart as ChartShown};
ghost use Rattle.net_text.specs.NetTexts.{names_of, first_repeat};

use crate::limits::CHART_LIMIT;
use crate::net::NetChart;

/// The number of the first chart that has the name of an earlier one.
pub fn first_repeat(charts: &[NetChart]) -> Option<u32>
    requires { length charts.now ≤ CHART_LIMIT }
    ensures repeat { result ≡ first_repeat [] (names_of charts.now) }
    ensures within { IfSome result (λ number. number < CHART_LIMIT) }
{
    for number in 0..charts.len() {
        if has_name(&charts[..number], charts[number].name.text()) {
            return Some(number as u32);
        }
    }
    None
}

/// Whether one of the charts has that name.
fn has_name(charts: &[NetChart], name: &str) -> bool
    ensures { result ≡ list_any (λ (chart : ChartShown). bytes_eq name.now chart.name) charts.now }
{
    charts.iter().any(|chart| name == chart.name.text())
}
