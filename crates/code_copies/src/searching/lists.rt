//! Lists of numbers, each under a number of its own.
use flow_base::Memory;
use std::alloc::Global;

/// An index as a number; one that is too great gives the greatest number.
///
/// Source: this project's choice.
pub fn number_of(index: usize) -> u32 {
    if index < u32::MAX as usize {
        index as u32
    } else {
        u32::MAX
    }
}

/// So many empty lists.
pub(crate) fn empty_lists(alloc: Global, count: usize) -> Result<Vec<Vec<u32>>, Memory> {
    let mut lists = Vec::new(alloc);
    for _ in 0..count {
        lists.push(Vec::new(alloc))?;
    }
    Ok(lists)
}

/// The list of that number; one that isn't there is empty.
pub(crate) fn list_at(lists: &[Vec<u32>], list: u32) -> &[u32] {
    match lists.get(list as usize) {
        Some(items) => items,
        None => &[],
    }
}

/// Appends an item to the list of that number, if the list is there and doesn't end in that item.
pub(crate) fn append_to(lists: &mut [Vec<u32>], list: u32, item: u32) -> Result<(), Memory> {
    let Some(items) = lists.get_mut(list as usize) else {
        return Ok(());
    };
    if items.last().copied() == Some(item) {
        return Ok(());
    }
    items.push(item)?;
    Ok(())
}
