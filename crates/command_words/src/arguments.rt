//! The arguments of a command, as a parse found them.
ghost use Rattle.std.specs.Prelude.{◌≡◌, option_map};
ghost use Rattle.clap.specs.Words.{first_of, found_of, rows_of};
ghost use Rattle.command_words.specs.Asked.{bounds_found, files_found, net_bounds_found, number_at};
ghost use Rattle.command_words.specs.Seen.{bounds_seen};

use crate::words::NET_STEP_LIMIT;
use clap::ArgMatches;
use flow_base::Bounds;

/// The two files of a run.
pub(crate) fn files_in<'a>(given: &ArgMatches<'a>) -> Option<(&'a str, &'a str)>
    ensures { option_map (λ files. (files.0.now, files.1.now)) result
        ≡ files_found (rows_of (found_of given.now)) }
{
    Some((text_in(given, "first")?, text_in(given, "second")?))
}

/// The bounds of a run, the default ones where no option sets them. The parser has refused numbers
/// out of their range.
pub fn bounds_in(given: &ArgMatches<'_>) -> Option<Bounds>
    ensures { option_map bounds_seen result ≡ bounds_found (rows_of (found_of given.now)) }
{
    let usual = Bounds::usual();
    let depth = number_in(given, "depth").unwrap_or(usual.depth);
    let steps = number_in(given, "steps").unwrap_or(usual.steps);
    Bounds::make(depth, steps)
}

/// The bounds of a net, the default ones of nets where no option sets them; none where the steps
/// are more than `NET_STEP_LIMIT`.
pub(crate) fn net_bounds_in(given: &ArgMatches<'_>) -> Option<Bounds>
    ensures { option_map bounds_seen result ≡ net_bounds_found (rows_of (found_of given.now)) }
{
    let depth = number_in(given, "depth").unwrap_or(Bounds::usual().depth);
    let steps = number_in(given, "steps").unwrap_or(NET_STEP_LIMIT);
    if steps > NET_STEP_LIMIT {
        return None;
    }
    Bounds::make(depth, steps)
}

/// The text of an argument.
pub fn text_in<'a>(given: &ArgMatches<'a>, id: &str) -> Option<&'a str>
    ensures { option_map (λ text. text.now) result
        ≡ first_of id.now (rows_of (found_of given.now)) }
{
    given.get_str(id)
}

/// The number of 32 bits of an argument.
pub fn number_in(given: &ArgMatches<'_>, id: &str) -> Option<u32>
    ensures { result ≡ number_at id.now (rows_of (found_of given.now)) }
{
    given.get_one::<u32>(id)
}
