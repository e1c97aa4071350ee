//! The nodes that were found, by number.

ghost use Rattle.std.specs.Prelude.{◌≡◌, ◌≤◌, length, nat_eq};
ghost use Rattle.std.specs.List.{IsDistinct, IsDistinct-prop};
ghost use Rattle.hprof_numbers.specs.Numbers.{items_in, bound_of};
ghost use Rattle.hprof_search.specs.Kept.{LeadsBack, OrdersFound};

use hprof_numbers::Numbers;
use std::alloc::{AllocError, Global};

/// The nodes that were found so far.
#[derive(Drop)]
pub(crate) struct Trail {
    /// For each number, whether its node was found. An edge to a found node costs no look-up.
    pub(crate) found: Vec<bool>,
    /// For each number that was found, the number it was found from: its own for a start.
    pub(crate) before: Numbers,
    /// The numbers that were found, in that order.
    pub(crate) order: Vec<u32>,
    /// The place in the order where the next level begins.
    next: usize,
    ghost paired: { length (items_in before) ≡ length found.items },
    ghost back: { LeadsBack (items_in before) },
    ghost fits: { length found.items ≤ bound_of before },
    ghost ordered: { OrdersFound found.items order.items },
    ghost once: { IsDistinct nat_eq order.items } by { IsDistinct-prop nat_eq order.items },
    ghost begins: { next ≤ length order.items },
}

impl Trail {
    ghost use Rattle.std.specs.Prelude.{◌≡◌, ◌<◌, ◌↔◌, ℕ, [], false, IfOk, OnOk, Contains, length, replicate};
    ghost use Rattle.std.specs.List.Sorted.{IsNonDecreasing};
    ghost use Rattle.hprof_search.specs.Finds.{Arrives, Follows, finds_of, next_in};

    /// Returns a trail of `count` nodes, none of which is found. It has room for all of them in the order.
    ///
    /// If memory runs out, the answer is `AllocError`.
    pub(crate) fn new(alloc: Global, count: usize) -> Result<Trail, AllocError>
        ensures found { IfOk result (λ trail. trail.found.items ≡ replicate count false) }
        ensures order { IfOk result (λ trail. trail.order.items ≡ []) }
    {
        Ok(Trail {
            found: vec![in alloc; false; count]?,
            before: Numbers::zeros(alloc, count, count)?,
            order: Vec::with_capacity(alloc, count)?,
            next: 0,
        })
    }

    /// Finds a number from another, unless it was found before, and appends it to the order.
    ///
    /// If memory runs out, or the number does not fit four bytes, the answer is `AllocError` and the trail is unspecified.
    #[inline(always)]
    pub(crate) fn arrive(&mut self, number: usize, from: usize) -> Result<(), AllocError>
        requires within { number < length self.old.found.items }
        requires from_within { from < length self.old.found.items }
        ensures { OnOk result (Follows (Arrives from number) (finds_of self.old) (finds_of self.new)) }
    {
        if !self.found[number] {
            let Ok(key) = u32::try_from(number) else {
                return Err(AllocError);
            };
            self.order.push(key)?;
            self.found[number] = true;
            self.before.set(number, from);
        }
        Ok(())
    }

    /// Sets `level` to the sorted numbers of the next level, and begins a new, empty level. If memory runs out, the answer is `AllocError`
    /// and the contents of `level` are unspecified.
    pub(crate) fn take_next(&mut self, level: &mut Vec<u32>) -> Result<(), AllocError>
        ensures ascend { OnOk result (IsNonDecreasing level.new.items) }
        ensures same { OnOk result ((number : ℕ) → Contains level.new.items number ↔ Contains (next_in self.old) number) }
        ensures as_many { OnOk result (length level.new.items ≡ length (next_in self.old)) }
        ensures none { OnOk result (next_in self.new ≡ []) }
        ensures found { self.new.found ≡ self.old.found }
        ensures before { self.new.before ≡ self.old.before }
        ensures order { self.new.order ≡ self.old.order }
    {
        level.clear();
        level.extend_from_slice(&self.order[self.next..])?;
        level.sort_unstable();
        self.next = self.order.len();
        Ok(())
    }
}
