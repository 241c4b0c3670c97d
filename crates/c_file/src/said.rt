//! What the procedures of a file do.
use chart_parts::{Part, chart_parts};
use checked_chart::Chart;
use code_passes::Tag;
use flow_base::{List, Memory};
use std::alloc::Global;

/// What the procedures of a file do.
#[derive(Drop)]
pub(crate) struct Said<'a> {
    /// The chart.
    pub chart: &'a Chart,
    /// The parts that the procedures of its code are of.
    pub parts: List<Part>,
    /// The number in that code of each procedure of the smaller code.
    pub origins: &'a [u32],
    /// For what each procedure of the file is, by a procedure of the smaller code.
    pub tags: &'a [Tag],
}

impl<'a> Said<'a> {
    ghost use Rattle.std.specs.Prelude.{◌≡◌, IfOk};
    ghost use Rattle.std.specs.List.{All};
    ghost use Rattle.checked_chart.specs.Kept.{chart_of};
    ghost use Rattle.chart_parts.specs.Parts.{parts_of};
    ghost use Rattle.c_file.specs.Comments.{AreOfChart, IsTagOf, comments_for, said_of};

    /// What the procedures with these tags do, where those of the smaller code of a chart had these
    /// numbers in its code.
    pub fn make(
        alloc: Global,
        chart: &'a Chart,
        origins: &'a [u32],
        tags: &'a [Tag],
    ) -> Result<Said<'a>, Memory>
        requires { All (IsTagOf (chart_of chart.now)) tags.now }
        ensures parts { IfOk result (λ said. AreOfChart said) }
        ensures said { IfOk result (λ said. said_of said ≡ comments_for (chart_of chart.now).tree
            (chart_of chart.now).names (parts_of (chart_of chart.now)) origins.now tags.now) }
    {
        let parts = chart_parts(alloc, chart)?;
        Ok(Said {
            chart,
            parts,
            origins,
            tags,
        })
    }
}
