//! A tree of contests for the least key.

ghost use Rattle.std.specs.Prelude.{◌≡◌, ◌<◌, ◌≤◌, ◌+◌, ◌*◌, ◌/◌, ℕ, List, length, vec_len, IfOk, slice_set, Option, None, Some};
ghost use Rattle.hprof_merge.specs.Tree.{IsTree, IsDecided, IsDecidedBut, lesser_of, node_at, keys_from};

use std::alloc::{AllocError, Global};

/// The keys of places, as the leaves of a tree; a place may have none. Each other node has the lesser of the two below it: node n has the
/// nodes 2n and 2n + 1 below it, and the leaf of a place is the node with the number of places plus the place.
#[derive(Drop)]
pub(crate) struct ContestTree {
    nodes: Vec<Option<(u64, usize)>>,
    count: usize,
    ghost tree: { IsTree nodes.items count },
}

/// Returns the one with the lesser key, or the first if both have the same.
#[inline(always)]
pub(crate) fn lesser(one: Option<(u64, usize)>, other: Option<(u64, usize)>) -> Option<(u64, usize)>
    ensures { result ≡ lesser_of one other }
{
    match (one, other) {
        (Some(first), Some(second)) => if second.0 < first.0 {
            Some(second)
        } else {
            Some(first)
        },
        (Some(first), None) => Some(first),
        (None, last) => last,
    }
}

/// Decides all nodes above a node that was changed. It goes up until a node keeps its key: above that all are decided already.
fn settle(nodes: &mut [Option<(u64, usize)>], count: usize, changed: usize)
    requires sized { length nodes.old ≡ 2 * count }
    requires changed { changed < length nodes.old }
    requires decided { IsDecidedBut (changed / 2) nodes.old count }
    ensures sized { length nodes.new ≡ length nodes.old }
    ensures decided { IsDecided nodes.new count }
    ensures leaves { (node : ℕ) → count ≤ node → node_at nodes.new node ≡ node_at nodes.old node }
{
    let mut node = changed;
    while node > 1 {
        node /= 2;
        let best = lesser(nodes[2 * node], nodes[2 * node + 1]);
        if nodes[node] == best {
            return;
        }
        nodes[node] = best;
    }
}

/// Puts a key at a place of a tree, or takes the one there out of it.
fn enter(nodes: &mut [Option<(u64, usize)>], count: usize, place: usize, head: Option<u64>)
    requires tree { IsTree nodes.old count }
    requires place { place < count }
    ensures tree { IsTree nodes.new count }
    ensures keys { keys_from count nodes.new ≡ slice_set (keys_from count nodes.old) place head }
{
    nodes[count + place] = match head {
        Some(key) => Some((key, place)),
        None => None,
    };
    settle(nodes, count, count + place);
}

impl ContestTree {
    ghost use Rattle.hprof_merge.specs.Heads.{keys_in};
    ghost use Rattle.hprof_merge.specs.Tree.{head_at};
    ghost use Rattle.hprof_merge.specs.Contest.{IsLeastHead};

    /// Returns a tree of so many places, none of which has a key yet.
    pub(crate) fn new(alloc: Global, count: usize) -> Result<Self, AllocError>
        ensures count { IfOk result (λ tree. length (keys_in tree) ≡ count) }
        ensures empty { IfOk result (λ tree. (place : ℕ) → head_at (keys_in tree) place ≡ None) }
    {
        let mut nodes = Vec::new(alloc);
        for _ in 0..count {
            nodes.push(None)?;
            nodes.push(None)?;
        }
        Ok(ContestTree { nodes, count })
    }

    /// Puts a key at a place, or takes the one there out.
    pub(crate) fn set(&mut self, place: usize, head: Option<u64>)
        requires { place < length (keys_in self.old) }
        ensures { keys_in self.new ≡ slice_set (keys_in self.old) place head }
    {
        enter(&mut self.nodes, self.count, place, head);
    }

    /// Returns a least key with its place.
    #[inline(always)]
    pub(crate) fn first(&self) -> Option<(u64, usize)>
        ensures { IsLeastHead (keys_in self.now) result }
    {
        if self.count == 0 {
            return None;
        }
        self.nodes[1]
    }
}
