//! What the header says of the functions of the source.
ghost use Rattle.std.specs.Prelude.{◌≡◌, IfOk};
ghost use Rattle.c_text.specs.Labels.{labels_of};
ghost use Rattle.c_file.specs.Facts.{AreFacts};
ghost use Rattle.c_file.specs.Made.{AreUses, IsMade, functions_of};

use crate::heights::most_open;
use crate::known::Uses;
use crate::made::Made;
use crate::printing::any_wide;
use c_header::SourceFacts;
use flow_base::Memory;
use std::alloc::Global;

/// What the header says of the functions of the source. `Memory` only where memory was refused.
pub(crate) fn facts_of(alloc: Global, made: &Made<'_>, uses: &Uses) -> Result<SourceFacts, Memory>
    requires is { IsMade made.now }
    requires uses { AreUses (labels_of made.now.labels) (functions_of made.now) uses.now }
    ensures { IfOk result (AreFacts (labels_of made.now.labels) (functions_of made.now)
        uses.now.reached.items) }
{
    let calls = most_open(alloc, made, uses)?;
    Ok(SourceFacts {
        calls,
        wide: any_wide(made, uses),
    })
}
