//! A contest of cursors for the least key.

ghost use Rattle.std.specs.Prelude.{◌≡◌, ◌≢◌, ◌<◌, ◌≤◌, ℕ, length, IfOk, slice_set, None, Some};
ghost use Rattle.hprof_merge.specs.Heads.{keys_in};
ghost use Rattle.hprof_merge.specs.Tree.{head_at};

use crate::contest_tree::{ContestTree, lesser};
use std::alloc::{AllocError, Global};

/// The keys that cursors show, with the places of the cursors. A cursor at its end, or one that is held out, has none.
///
/// The key of the place that was held out last stands beside the tree of the others. So each row of a cursor that goes on to show the least
/// key costs one comparison.
#[derive(Drop)]
pub(crate) struct Contest {
    tree: ContestTree,
    /// The place that was held out last. It has no key in the tree.
    apart: usize,
    /// The key that is at this place.
    key: Option<u64>,
    ghost within: { 0 < length (keys_in tree) → apart < length (keys_in tree) },
    ghost some: { key ≢ None → 0 < length (keys_in tree) },
    ghost out: { head_at (keys_in tree) apart ≡ None },
}

impl Contest {
    ghost use Rattle.hprof_merge.specs.Contest.{IsLeastHead, IsPlaceOfHead, heads_of};

    /// Returns a contest of so many cursors, none of which is in it yet.
    pub(crate) fn new(alloc: Global, count: usize) -> Result<Self, AllocError>
        ensures count { IfOk result (λ contest. length (heads_of contest) ≡ count) }
        ensures empty { IfOk result (λ contest. (place : ℕ) → head_at (heads_of contest) place ≡ None) }
    {
        let tree = ContestTree::new(alloc, count)?;
        Ok(Contest {
            tree,
            apart: 0,
            key: None,
        })
    }

    /// Puts a key at a place, or takes the one there out of the contest.
    #[inline(always)]
    pub(crate) fn set(&mut self, place: usize, head: Option<u64>)
        requires { place < length (heads_of self.old) }
        ensures { heads_of self.new ≡ slice_set (heads_of self.old) place head }
    {
        if place == self.apart {
            self.key = head;
        } else if head.is_some() {
            self.tree.set(place, head);
        } else {
            self.hold_out(place);
        }
    }

    /// Takes the key at another place than the one that is held out, out of the contest.
    fn hold_out(&mut self, place: usize)
        requires place { place < length (heads_of self.old) }
        requires other { place ≢ self.old.apart }
        ensures { heads_of self.new ≡ slice_set (heads_of self.old) place None }
    {
        self.tree.set(place, None);
        let (before, key) = (self.apart, self.key);
        self.apart = place;
        self.key = None;
        self.tree.set(before, key);
    }

    /// Returns a least key with its place.
    #[inline(always)]
    pub(crate) fn first(&self) -> Option<(u64, usize)>
        ensures { IsLeastHead (heads_of self.now) result }
    {
        let own = match self.key {
            Some(key) => Some((key, self.apart)),
            None => None,
        };
        lesser(own, self.tree.first())
    }

    /// Returns a place of a key to which none is lower.
    #[inline(always)]
    pub(crate) fn place_of(&self, key: u64) -> Option<usize>
        requires { (place other : ℕ) → head_at (heads_of self.now) place ≡ Some other → key ≤ other }
        ensures { IsPlaceOfHead (heads_of self.now) key result }
    {
        match self.first() {
            Some((least, place)) if least == key => Some(place),
            _ => None,
        }
    }
}
