//! Pure copies of procedures, and those by depth.
ghost use Rattle.std.specs.Prelude.{◌≡◌, ℕ, IfOk, IfSome, List, length};
ghost use Rattle.code_copies.specs.SameRuns.{HasSameRuns};
ghost use Rattle.code_language.specs.Code as form;
ghost use Rattle.code_language.specs.Code.{code_of};
ghost use Rattle.code_passes.specs.Passed.{IsPassed};
ghost use Rattle.code_pure_copies.specs.PureCopies.{ArePureCopies};

use crate::made::Faster;
use crate::tagging::tags_at;
use code_pure_copies::{Copies, copy_by_depth};
use flow_base::Memory;
use std::alloc::Global;

/// Code that is made of copies, each with the tag of its procedure; none where there are none.
pub(crate) fn tagged(
    alloc: Global,
    before: &Faster,
    found: Option<Copies>,
) -> Result<Option<Faster>, Memory>
    requires size { length before.now.tags.items
        ≡ length (code_of before.now.code).procedures.procs }
    requires copies { IfSome found (λ made.
        ArePureCopies (code_of before.now.code) (code_of made.code) made.origins.items) }
    requires same { IfSome found (λ made.
        HasSameRuns (code_of before.now.code) (code_of made.code)) }
    ensures size { IfOk result (λ found. IfSome found
        (λ made. length made.tags.items ≡ length (code_of made.code).procedures.procs)) }
    ensures passed { (k : form.Code)
        → IsPassed k (code_of before.now.code) before.now.tags.items
        → IfOk result (λ found. IfSome found
        (λ made. IsPassed k (code_of made.code) made.tags.items)) }
{
    let Some(copies) = found else {
        return Ok(None);
    };
    let tags = tags_at(alloc, &before.tags, &copies.origins)?;
    Ok(Some(Faster {
        code: copies.code,
        tags,
    }))
}

/// Copies of procedures by depth, up to the given one, each with the tag of its procedure; none
/// where they aren't found, or aren't needed.
fn depth_copied(alloc: Global, before: &Faster, depth: u32) -> Result<Option<Faster>, Memory>
    requires { length before.now.tags.items ≡ length (code_of before.now.code).procedures.procs }
    ensures { (k : form.Code) → IsPassed k (code_of before.now.code) before.now.tags.items
        → IfOk result (λ found. IfSome found
        (λ made. IsPassed k (code_of made.code) made.tags.items)) }
{
    let found = copy_by_depth(alloc, &before.code, depth)?;
    tagged(alloc, before, found)
}

/// Code with copies of procedures by depth, up to the given one; the code as it was where there are
/// none.
pub(crate) fn by_depth(alloc: Global, before: Faster, depth: u32) -> Result<Faster, Memory>
    requires { length before.tags.items ≡ length (code_of before.code).procedures.procs }
    ensures { (k : form.Code) → IsPassed k (code_of before.code) before.tags.items
        → IfOk result (λ made. IsPassed k (code_of made.code) made.tags.items) }
{
    match depth_copied(alloc, &before, depth)? {
        Some(made) => Ok(made),
        None => Ok(before),
    }
}
