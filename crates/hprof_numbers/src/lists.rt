//! Lists of numbers.

ghost use Rattle.std.specs.Prelude.{◌≡◌, ◌↔◌, ◌<◌, ◌≤◌, ◌+◌, ℕ, IfOk, length, slice_index};
ghost use Rattle.hprof_numbers.specs.Ends.{start_at};
ghost use Rattle.hprof_numbers.specs.Numbers.{items_in};

use crate::numbers::Numbers;
use std::alloc::{AllocError, Global};

/// A list of numbers for each number from 0 on. The lists are in one vector, one after the other.
#[derive(Drop)]
pub struct Lists {
    /// The end of each list, where the next one begins.
    pub(crate) ends: Numbers,
    pub(crate) items: Numbers,
    ghost within: { (number : ℕ) → number < length (items_in ends) → slice_index (items_in ends) number ≤ length (items_in items) },
    ghost ascend: { (number : ℕ) → number < length (items_in ends)
        → start_at (items_in ends) number ≤ slice_index (items_in ends) number },
    ghost whole: { start_at (items_in ends) (length (items_in ends)) ≡ length (items_in items) },
}

impl Lists {
    ghost use Rattle.hprof_numbers.specs.Lists.{IsListed, bound_in, count_in, end_in, start_in};

    /// Returns no lists, with room for `most` lists of numbers below `most`. If memory runs out, the answer is `AllocError`.
    pub fn with_room(alloc: Global, most: usize) -> Result<Lists, AllocError>
        ensures none { IfOk result (λ lists. count_in lists ≡ 0) }
        ensures bound { IfOk result (λ lists. most ≤ bound_in lists) }
    {
        let ends = Numbers::with_capacity(alloc, most, 0)?;
        let items = Numbers::empty(alloc, most);
        Ok(Lists { ends, items })
    }

    /// Returns the lists with one more, empty one. If memory runs out, the answer is `AllocError`.
    pub(crate) fn with_empty_list(self, alloc: Global) -> Result<Lists, AllocError>
        ensures as_many { IfOk result (λ lists. count_in lists ≡ count_in self + 1) }
        ensures same { IfOk result (λ lists. (number one : ℕ) → IsListed lists number one ↔ IsListed self number one) }
    {
        let Lists { mut ends, items } = self;
        ends.push_or_widen(alloc, items.len())?;
        Ok(Lists { ends, items })
    }

    /// Returns the number of lists.
    pub fn len(&self) -> usize
        ensures { result ≡ count_in self.now }
    {
        self.ends.len()
    }

    /// Returns the number of places: how many numbers the lists have together.
    pub fn places(&self) -> usize
        ensures { result ≡ length (items_in self.now.items) }
    {
        self.items.len()
    }

    /// Returns the place where the list of a number begins.
    #[inline(always)]
    pub fn start(&self, number: usize) -> usize
        requires { number < count_in self.now }
        ensures { result ≡ start_in self.now number }
    {
        match number.checked_sub(1) {
            Some(before) => self.ends.get(before),
            None => 0,
        }
    }

    /// Returns the place where the list of a number ends.
    #[inline(always)]
    pub fn end(&self, number: usize) -> usize
        requires { number < count_in self.now }
        ensures is { result ≡ end_in self.now number }
        ensures within { result ≤ length (items_in self.now.items) }
    {
        self.ends.get(number)
    }

    /// Returns the number at a place.
    #[inline(always)]
    pub fn get(&self, place: usize) -> usize
        requires { place < length (items_in self.now.items) }
        ensures { result ≡ slice_index (items_in self.now.items) place }
    {
        self.items.get(place)
    }
}
