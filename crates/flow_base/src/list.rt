//! A list whose contracts speak of its items.
use crate::memory::Memory;

/// A list. Its contracts speak of its items, by `items_of`.
#[derive(Debug, Drop)]
pub struct List<T> {
    items: Vec<T>,
}

impl<T> List<T> {
    ghost use Rattle.std.specs.Prelude.{◌≡◌};
    ghost use Rattle.flow_base.specs.Lists.{items_of};

    /// Keeps the items that it is given. It takes no memory.
    pub fn of(items: Vec<T>) -> List<T>
        ensures { items_of result ≡ items.items }
    {
        List { items }
    }

    /// The items. It takes no memory.
    pub fn items(&self) -> &[T]
        ensures { result.now ≡ items_of self.now }
    {
        &self.items
    }

    /// The items, by value. It takes no memory.
    pub fn into_items(self) -> Vec<T>
        ensures { result.items ≡ items_of self }
    {
        self.items
    }
}

impl<T: Drop> List<T> {
    ghost use Rattle.std.specs.Prelude.{◌≡◌, ◌++◌, ◌∷◌, [], OnOk, OnErr};
    ghost use Rattle.flow_base.specs.Lists.{items_of};

    /// Appends the item. On an error the list is unchanged and the item is dropped.
    pub fn push(&mut self, item: T) -> Result<(), Memory>
        ensures ok { OnOk result (items_of self.new ≡ items_of self.old ++ item ∷ []) }
        ensures err { OnErr result (items_of self.new ≡ items_of self.old) }
    {
        self.items.push(item)?;
        Ok(())
    }
}
