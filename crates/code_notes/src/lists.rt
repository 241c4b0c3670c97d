//! Lists of notes that are compared.
ghost use Rattle.std.specs.Prelude.{◌≡◌, ◌++◌, [], IsTrue};
ghost use Rattle.code_language.specs.Reach.{with_note};

/// Whether both lists are the same.
pub(crate) fn is_same(first: &[u32], second: &[u32]) -> bool
    ensures { IsTrue result → first.now ≡ second.now }
{
    if first.len() != second.len() {
        return false;
    }
    for (place, note) in first.iter().enumerate() {
        if *note != second[place] {
            return false;
        }
    }
    true
}

/// Whether the second list is the first one with one more note at its end, if there is one.
pub(crate) fn is_with_note(list: &[u32], note: Option<u32>, longer: &[u32]) -> bool
    ensures { IsTrue result → longer.now ≡ list.now ++ with_note note [] }
{
    match note {
        Some(proc) => match longer.split_last() {
            Some((last, rest)) => *last == proc && is_same(rest, list),
            None => false,
        },
        None => is_same(longer, list),
    }
}
