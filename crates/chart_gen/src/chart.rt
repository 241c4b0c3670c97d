//! The chart of a case.
ghost use Rattle.std.specs.Prelude.{◌≡◌, ◌++◌, ◌∷◌, [], ◌<◌, string_bytes, OnOk};
ghost use Rattle.chart_gen.specs.Draws.{after_states, after_region, after_regions, after_chart};
ghost use Rattle.chart_gen.specs.Draws.{sizes as sizes_of, after_sizes};
ghost use Rattle.chart_gen.specs.Cases as spec;

use crate::draws::{Draws, RegionDraws, Sizes, StateDraws};
use std::alloc::AllocError;

/// Appends the chart of a case.
pub(crate) fn print_chart(out: &mut String, draws: &mut Draws) -> Result<(), AllocError>
    ensures text { OnOk result (string_bytes out.new ≡ string_bytes out.old
        ++ spec.text_of (spec.chart_lines (sizes_of draws.old.seed) (after_sizes draws.old.seed))) }
    ensures seed { OnOk result (draws.new.seed ≡ after_chart draws.old.seed) }
{
    let sizes = draws.sizes();
    print_head(out)?;
    print_local_events(out, sizes.regions)?;
    writeln!(out, "input x : int16;")?;
    print_data(out, sizes.regions)?;
    print_regions(out, draws, sizes)?;
    writeln!(out, "}}")
}

/// The first lines of a chart.
const HEAD: &str = "chart G and {
event input e0;
event input e1;
event input e2;
event input e3;
";

/// Appends the first lines of a chart.
fn print_head(out: &mut String) -> Result<(), AllocError>
    ensures { OnOk result
        (string_bytes out.new ≡ string_bytes out.old ++ spec.text_of spec.chart_head) }
{
    out.push_str(HEAD)
}

/// Appends the local event of each region.
fn print_local_events(out: &mut String, regions: u32) -> Result<(), AllocError>
    ensures { OnOk result (string_bytes out.new ≡ string_bytes out.old
        ++ spec.text_of (spec.numbered spec.event_declaration regions)) }
{
    for region in 0..regions {
        writeln!(out, "event local l{region};")?;
    }
    Ok(())
}

/// Appends the datum of each region.
fn print_data(out: &mut String, regions: u32) -> Result<(), AllocError>
    ensures { OnOk result (string_bytes out.new ≡ string_bytes out.old
        ++ spec.text_of (spec.numbered spec.datum_declaration regions)) }
{
    for region in 0..regions {
        writeln!(out, "local n{region} : int32 wrap;")?;
    }
    Ok(())
}

/// Appends the regions.
fn print_regions(out: &mut String, draws: &mut Draws, sizes: Sizes) -> Result<(), AllocError>
    requires { 0 < sizes.states }
    ensures text { OnOk result (string_bytes out.new ≡ string_bytes out.old
        ++ spec.text_of (spec.regions_lines sizes sizes.regions draws.old.seed)) }
    ensures seed { OnOk result
        (draws.new.seed ≡ after_regions sizes.states sizes.regions draws.old.seed) }
{
    for region in 0..sizes.regions {
        print_region(out, draws, sizes, region)?;
    }
    Ok(())
}

/// Appends a region.
fn print_region(
    out: &mut String,
    draws: &mut Draws,
    sizes: Sizes,
    region: u32,
) -> Result<(), AllocError>
    requires region { region < sizes.regions }
    requires states { 0 < sizes.states }
    ensures text { OnOk result (string_bytes out.new ≡ string_bytes out.old
        ++ spec.text_of (spec.region_lines sizes region draws.old.seed)) }
    ensures seed { OnOk result
        (draws.new.seed ≡ after_states sizes.states (after_region draws.old.seed)) }
{
    print_region_head(out, region, draws.region(sizes.states))?;
    print_states(out, draws, sizes, region)?;
    writeln!(out, "}}")
}

/// Appends the first lines of a region.
fn print_region_head(out: &mut String, region: u32, drawn: RegionDraws) -> Result<(), AllocError>
    ensures { OnOk result (string_bytes out.new ≡ string_bytes out.old
        ++ spec.text_of (spec.region_head region drawn)) }
{
    let RegionDraws {
        over,
        destination,
        under,
    } = drawn;
    writeln!(out, "state r{region} or {{")?;
    writeln!(out, "default -> s0;")?;
    writeln!(
        out,
        "junction j {{ [x > {over}] -> s{destination}; [x < {under}] -> @z; }}"
    )?;
    writeln!(out, "junction z {{ }}")
}

/// Appends the states of a region.
fn print_states(
    out: &mut String,
    draws: &mut Draws,
    sizes: Sizes,
    region: u32,
) -> Result<(), AllocError>
    requires region { region < sizes.regions }
    requires states { 0 < sizes.states }
    ensures text { OnOk result (string_bytes out.new ≡ string_bytes out.old
        ++ spec.text_of (spec.states_lines sizes region sizes.states draws.old.seed)) }
    ensures seed { OnOk result (draws.new.seed ≡ after_states sizes.states draws.old.seed) }
{
    for number in 0..sizes.states {
        let drawn = draws.state(sizes.states);
        print_state(out, sizes.regions, region, number, drawn)?;
    }
    Ok(())
}

/// Appends a state of a region.
fn print_state(
    out: &mut String,
    regions: u32,
    region: u32,
    number: u32,
    drawn: StateDraws,
) -> Result<(), AllocError>
    requires region { region < regions }
    requires event { drawn.event < 4 }
    ensures { OnOk result (string_bytes out.new ≡ string_bytes out.old
        ++ spec.text_of (spec.state_lines regions region number drawn)) }
{
    let StateDraws {
        event,
        destination,
        added,
        local_destination,
    } = drawn;
    writeln!(out, "state s{number} {{")?;
    print_entry(out, region, added)?;
    print_leading(out, region, event)?;
    print_sending(out, regions, region, (event + 1) % 4, destination)?;
    print_local(out, region, local_destination)?;
    writeln!(out, "}}")
}

/// Appends the entry of a state, which adds to the datum of the region.
fn print_entry(out: &mut String, region: u32, added: u32) -> Result<(), AllocError>
    ensures { OnOk result (string_bytes out.new ≡ string_bytes out.old
        ++ (spec.entry_line region added ++ 10 ∷ [])) }
{
    writeln!(out, "entry {{ n{region} = n{region} + {added}; }}")
}

/// Appends the transition that leads to the junction.
fn print_leading(out: &mut String, region: u32, event: u32) -> Result<(), AllocError>
    ensures { OnOk result (string_bytes out.new ≡ string_bytes out.old
        ++ (spec.junction_line region event ++ 10 ∷ [])) }
{
    writeln!(
        out,
        "outer e{event} {{ n{region} = n{region} + 1; }} -> @j;"
    )
}

/// Appends the transition on the local event of the region.
fn print_local(out: &mut String, region: u32, destination: u32) -> Result<(), AllocError>
    ensures { OnOk result (string_bytes out.new ≡ string_bytes out.old
        ++ (spec.local_line region destination ++ 10 ∷ [])) }
{
    writeln!(
        out,
        "outer l{region} / {{ n{region} = n{region} * 3; }} -> s{destination};"
    )
}

/// Appends the transition that sends the local event of the next region, where there is one.
fn print_sending(
    out: &mut String,
    regions: u32,
    region: u32,
    event: u32,
    destination: u32,
) -> Result<(), AllocError>
    requires { region < regions }
    ensures { OnOk result (string_bytes out.new ≡ string_bytes out.old
        ++ (spec.sending_line regions region event destination ++ 10 ∷ [])) }
{
    let next = region + 1;
    if next == regions {
        writeln!(out, "outer e{event} -> s{destination};")
    } else {
        writeln!(out, "outer e{event} {{ send l{next}; }} -> s{destination};")
    }
}
