//! Whether a set has all worlds of another.
ghost use Rattle.std.specs.Bool.{OnTrue};
ghost use Rattle.range_worlds.specs.Inside.{IsWithin, HasAll};

use crate::setting::Setting;
use range_rules::Around;
use range_spans::Span;

/// Whether there are as many spans in both lists, each inside of the one at its place in the other.
pub fn is_within(a: &[Span], b: &[Span]) -> bool
    ensures { OnTrue result (IsWithin a.now b.now) }
{
    if a.len() != b.len() {
        return false;
    }
    for i in 0..a.len() {
        if !a[i].is_inside(b[i]) {
            return false;
        }
    }
    true
}

/// Whether the first set has all worlds of the second, by its configuration, which is the same, and
/// its spans, of which each has that of the second inside. Where that isn't so, the first set may
/// have them all the same, since the second may be empty.
pub fn has_all(setting: &Setting<'_>, x: &Around, y: &Around) -> bool
    ensures { OnTrue result (HasAll setting.now x.now y.now) }
{
    // Only the contract reads the setting.
    let _ = setting;
    if !y.config.same(&x.config) {
        return false;
    }
    is_within(&y.spans, &x.spans)
}
