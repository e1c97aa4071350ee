//! Hints at the page of a key.

ghost use Rattle.std.specs.Prelude.{◌≡◌, vec_capacity};

use crate::hinted_map::{HINTS, slot_of};
use std::alloc::Global;

/// The number of pages from which there are hints.
const MANY: usize = 64;

/// For each slot the number of a page: that of the last key that was stored in the slot. It is a guess, and its user tests it. There are no
/// slots while there are few pages.
#[derive(Drop)]
pub(crate) struct PageHints {
    pub(crate) numbers: Vec<usize>,
    /// Keys that differ only in their lowest `shift` bits share a slot.
    shift: u32,
    /// The number of pages that the slots were spread for.
    count: usize,
}

impl PageHints {
    /// Returns no hints. Allocates nothing.
    pub(crate) fn new(alloc: Global) -> Self
        ensures { vec_capacity result.numbers ≡ 0 }
    {
        PageHints {
            numbers: Vec::new(alloc),
            shift: 0,
            count: 0,
        }
    }

    /// Returns the slot of a key. Several keys may share a slot.
    #[inline(always)]
    fn slot(&self, key: u64) -> usize {
        slot_of(key.wrapping_shr(self.shift))
    }

    /// Returns the number of the page that may have a key.
    #[inline(always)]
    pub(crate) fn get(&self, key: u64) -> Option<usize> {
        self.numbers.get(self.slot(key)).copied()
    }

    /// Stores the number of the page that has a key.
    #[inline(always)]
    pub(crate) fn leave(&mut self, key: u64, number: usize) {
        let slot = self.slot(key);
        if let Some(hint) = self.numbers.get_mut(slot) {
            *hint = number;
        }
    }

    /// Returns whether the slots suit this number of pages, or there are too few pages for hints.
    #[inline(always)]
    pub(crate) fn suit(&self, count: usize) -> bool {
        count < MANY || count / 2 < self.count
    }

    /// Makes slots if there are none, and spreads them over a range of keys in this many pages, about two slots a page. If memory is
    /// refused, there are no slots.
    #[inline(never)]
    pub(crate) fn spread(&mut self, keys: u64, count: usize) {
        self.count = count;
        let each = keys / (count as u64).max(1);
        self.shift = each.max(1).ilog2().saturating_sub(1);
        if self.numbers.is_empty() {
            // A search finds what no hint tells.
            let _ = self.numbers.resize(HINTS, 0);
        }
    }
}
