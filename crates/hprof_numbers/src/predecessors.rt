//! The sources of each node: the nodes with an edge to it.

ghost use Rattle.std.specs.Prelude.{◌≡◌, ◌<◌, ◌≤◌, ◌+◌, ℕ, IfNone, IfSome, MatchOption, length, slice_index};
ghost use Rattle.hprof_numbers.specs.Numbered.{nodes_in};
ghost use Rattle.hprof_numbers.specs.Numbers.{items_in};

use crate::lists::Lists;
use crate::numbered::Numbered;

/// For each node the nodes with an edge to it. Identifiers that are no nodes share one list, so a caller checks the edges of each of its
/// nodes.
#[derive(Drop)]
pub struct Predecessors {
    pub(crate) nodes: Numbered,
    pub(crate) lists: Lists,
    ghost as_many: { length (items_in lists.ends) ≡ length (nodes_in nodes) + 1 },
    ghost within: { (number : ℕ) → number < length (items_in lists.ends)
        → slice_index (items_in lists.ends) number ≤ length (items_in lists.items) },
}

impl Predecessors {
    ghost use Rattle.hprof_numbers.specs.Predecessors.{end_of, nodes_of, number_at, start_of};

    /// Returns the place where the sources of a node begin.
    pub fn start(&self, node: u64) -> usize
        ensures { result ≡ start_of self.now node }
    {
        let list = self.nodes.number_of(node).unwrap_or(self.nodes.len());
        match list.checked_sub(1) {
            Some(before) => self.lists.ends.get(before),
            None => 0,
        }
    }

    /// Returns the place where the sources of a node end.
    pub fn end(&self, node: u64) -> usize
        ensures { result ≡ end_of self.now node }
    {
        let list = self.nodes.number_of(node).unwrap_or(self.nodes.len());
        self.lists.ends.get(list)
    }

    /// Returns the node at a place, or `None` if the places end before it.
    pub fn node_at(&self, place: usize) -> Option<u64>
        ensures listed { (from to : ℕ) → place < end_of self.now to → number_at self.now place < length (nodes_of self.now)
            → slice_index (nodes_of self.now) (number_at self.now place) ≡ from → MatchOption result ⊥ (λ node. node ≡ from) }
        ensures stands { IfSome result (λ node. place < length (items_in self.now.lists.items)
            × (number_at self.now place < length (nodes_of self.now))
            × (node ≡ slice_index (nodes_of self.now) (number_at self.now place))) }
        ensures none { IfNone result (place < length (items_in self.now.lists.items)
            → number_at self.now place < length (nodes_of self.now) → ⊥) }
    {
        if self.lists.items.len() <= place {
            return None;
        }
        let number = self.lists.items.get(place);
        if self.nodes.len() <= number {
            return None;
        }
        Some(self.nodes.node(number))
    }
}
