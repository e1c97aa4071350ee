//! Lists of items that wait for a class.

ghost use Rattle.std.specs.Prelude.{◌≡◌, ◌+◌, ◌∷◌, ◌++◌, ℕ, [], length, IfNone, IfSome, OnOk};

use std::alloc::{AllocError, Global};
use std::collections::BTreeMap;

/// For each class the items that wait for it, in the order in which they were added.
#[derive(Drop)]
pub struct WaitingLists<T> {
    alloc: Global,
    lists: BTreeMap<u64, Vec<T>>,
}

impl<T> WaitingLists<T> {
    ghost use Rattle.hprof_layouts.specs.WaitingLists.{number_in, put, waiting_for};

    /// Returns empty lists. Allocates nothing.
    pub fn new(alloc: Global) -> WaitingLists<T>
        ensures { (class : ℕ) → waiting_for result class ≡ [] }
    {
        WaitingLists {
            alloc,
            lists: BTreeMap::new(alloc),
        }
    }

    /// Appends an item to the list of a class. If memory runs out, the answer is `AllocError` and the lists are unspecified.
    pub fn add(&mut self, class: u64, item: T) -> Result<(), AllocError>
    where
        T: Drop,
        ensures { OnOk result (waiting_for self.new ≡ put (waiting_for self.old) class (waiting_for self.old class ++ item ∷ [])) }
    {
        let mut list = match self.lists.remove(&class) {
            None => Vec::new(self.alloc),
            Some(list) => list,
        };
        list.push(item)?;
        self.lists.insert(class, list)?;
        Ok(())
    }

    /// Removes the list of a class, and returns it, or `None` if nothing waits for the class.
    pub fn take(&mut self, class: u64) -> Option<Vec<T>>
        ensures some { IfSome result (λ list. list.items ≡ waiting_for self.old class) }
        ensures none { IfNone result (waiting_for self.old class ≡ []) }
        ensures taken { waiting_for self.new ≡ put (waiting_for self.old) class [] }
        ensures counted { number_in self.new + length (waiting_for self.old class) ≡ number_in self.old }
    {
        self.lists.remove(&class)
    }
}
