//! The result of a search.

use crate::walks::WalksOf;
use hprof_numbers::{Numbers, find};
use std::alloc::{AllocError, Global};

/// The result of a search by levels: the distance of each node from the starts, and a shortest path to it.
#[derive(Drop)]
pub struct Search {
    /// All nodes, in ascending order. The number of a node is its place here.
    pub(crate) nodes: Vec<u64>,
    /// For each number, whether its node was found.
    pub(crate) found: Vec<bool>,
    /// For each number that was found, the number it was found from: its own for a start.
    pub(crate) before: Numbers,
    /// The numbers that were found, in the order in which they were found, which is that of their distances.
    pub(crate) order: Vec<u32>,
    /// The number of levels.
    pub(crate) levels: usize,
    ghost whole: { IsKept nodes.items found.items (items_in before) order.items },
}

ghost use Rattle.hprof_search.specs.Kept.{IsKept};
ghost use Rattle.hprof_numbers.specs.Numbers.{items_in};

impl Search {
    ghost use Rattle.std.specs.Prelude.{◌≡◌, ◌<◌, ◌↔◌, ℕ, IfOk, IfSome, IsTrue, Some, length, map};
    ghost use Rattle.std.specs.Option.{option_map};
    ghost use Rattle.hprof_search.specs.Search.{IsSearch, node_at};
    ghost use Rattle.hprof_search.specs.WayBack.{found_in, way_in};
    ghost use Rattle.hprof_search.specs.Walks.{HasDistance, IsPath};

    // The number of a node, if it was found.
    fn found_number(&self, node: u64) -> Option<usize>
        ensures number { result ≡ found_in self.now node }
        ensures within { IfSome result (λ number. number < length self.now.nodes.items) }
    {
        let number = find(&self.nodes, node)?;
        if self.found[number] {
            Some(number)
        } else {
            None
        }
    }

    // The nodes from a number back to a start.
    fn way_back(&self, alloc: Global, found: usize) -> Result<Vec<u64>, AllocError>
        requires { found < length self.now.nodes.items }
        ensures { IfOk result (λ nodes. nodes.items ≡ map (node_at self.now) (way_in self.now found)) }
    {
        let mut number = found;
        let mut nodes = Vec::new(alloc);
        nodes.push(self.nodes[number])?;
        for _ in 0..self.levels {
            let before = self.before.get(number);
            if before == number {
                return Ok(nodes);
            }
            number = before;
            nodes.push(self.nodes[number])?;
        }
        Ok(nodes)
    }

    /// Returns whether a start leads to a node. Allocates nothing, and does not go along the path.
    pub fn is_found<W: WalksOf>(&self, node: u64) -> bool
        ensures { (told : W.Told) → IsSearch (W.starts told) (W.steps told) self.now
            → IsTrue result ↔ ((steps : ℕ) × HasDistance (W.starts told) (W.steps told) node (Some steps)) }
    {
        self.found_number(node).is_some()
    }

    /// Returns the least number of steps from a start to a node, or `None` if no start leads to it or it is no node. Allocates nothing.
    pub fn distance<W: WalksOf>(&self, node: u64) -> Option<u64>
        ensures { (told : W.Told) → IsSearch (W.starts told) (W.steps told) self.now
            → HasDistance (W.starts told) (W.steps told) node result }
    {
        let mut number = self.found_number(node)?;
        for steps in 0..self.levels {
            let before = self.before.get(number);
            if before == number {
                return Some(steps as u64);
            }
            number = before;
        }
        Some(self.levels as u64)
    }

    /// Returns a shortest path from a start to a node, or `None` if no start leads to it or it is no node.
    ///
    /// Of several shortest paths it is the one that has, from its end back, the least node each time. If memory runs out, the answer is
    /// `AllocError`.
    pub fn path<W: WalksOf>(&self, alloc: Global, node: u64) -> Result<Option<Vec<u64>>, AllocError>
        ensures { IfOk result (λ path. (told : W.Told) → IsSearch (W.starts told) (W.steps told) self.now
            → IsPath (W.starts told) (W.steps told) node (option_map (λ nodes. nodes.items) path)) }
    {
        let Some(found) = self.found_number(node) else {
            return Ok(None);
        };
        let mut nodes = self.way_back(alloc, found)?;
        nodes.reverse();
        Ok(Some(nodes))
    }
}
