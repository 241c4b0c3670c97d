//! What the names in a file are made of.
ghost use Rattle.std.specs.Prelude.{◌≡◌};
ghost use Rattle.actions.specs.Names.{names_of};
ghost use Rattle.c_functions.specs.Layout.{or_count};
ghost use Rattle.c_text.specs.Labels as spec;

use actions::Names;
use active_config::Shape;

/// What the names in a file are made of.
#[derive(Clone, Copy)]
pub struct Labels<'a> {
    /// The name of the chart.
    pub(crate) chart: &'a str,
    /// What it declares.
    pub(crate) names: &'a Names,
    /// How many ORs it has.
    pub(crate) ors: u32,
    /// How many words have a bit for each state.
    pub(crate) words: u32,
    /// How many procedures there are.
    pub(crate) procs: u32,
}

impl<'a> Labels<'a> {
    /// What names are made of, for a chart of that name with that many procedures.
    pub fn make(chart: &'a str, names: &'a Names, tree: &Shape, procs: u32) -> Labels<'a>
        ensures { spec.labels_of result
            ≡ spec.labels_for chart.now (names_of names.now) tree.now procs }
    {
        Labels {
            chart,
            names,
            ors: count_ors(tree),
            words: ((u64::from(tree.len()) + 31) / 32) as u32,
            procs,
        }
    }
}

/// How many ORs there are.
fn count_ors(tree: &Shape) -> u32
    ensures { result ≡ or_count tree.now }
{
    let mut ors: u32 = 0;
    for state in 0..tree.len() {
        if tree.comp(state).is_or() {
            ors += 1;
        }
    }
    ors
}
