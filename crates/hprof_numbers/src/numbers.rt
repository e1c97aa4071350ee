//! Lists of numbers, of four or eight bytes each.

ghost use Rattle.std.specs.Prelude.{◌≡◌, ◌<◌, ◌≤◌, ◌↔◌, ◌++◌, ◌∷◌, [], IfOk, IsTrue, OnOk, length, replicate, slice_index, slice_set};
ghost use Rattle.hprof_numbers.specs.Numbers.{items_in, bound_of};

use std::alloc::{AllocError, Global};

// How many numbers fit four bytes.
const NARROW: usize = 1 << 32;

/// A list of numbers, of four bytes each if that is enough.
#[derive(Drop)]
pub enum Numbers {
    /// Of four bytes each.
    Narrow(Vec<u32>),
    /// Of eight bytes each.
    Wide(Vec<u64>),
}

// The same numbers, of eight bytes each.
fn widened(alloc: Global, items: &[u32]) -> Result<Vec<u64>, AllocError>
    ensures { IfOk result (λ wide. wide.items ≡ items.now) }
{
    let mut wide = Vec::with_capacity(alloc, items.len())?;
    for item in items {
        wide.push(u64::from(*item))?;
    }
    Ok(wide)
}

impl Numbers {
    /// Returns a list of `count` zeros that can hold numbers below `bound`. If memory runs out, the answer is `AllocError`.
    pub fn zeros(alloc: Global, count: usize, bound: usize) -> Result<Numbers, AllocError>
        ensures items { IfOk result (λ numbers. items_in numbers ≡ replicate count 0) }
        ensures bound { IfOk result (λ numbers. bound ≤ bound_of numbers) }
    {
        if bound <= NARROW {
            Ok(Numbers::Narrow(vec![in alloc; 0; count]?))
        } else {
            Ok(Numbers::Wide(vec![in alloc; 0; count]?))
        }
    }

    /// Returns an empty list that can hold numbers below `bound`. Allocates nothing.
    pub fn empty(alloc: Global, bound: usize) -> Numbers
        ensures items { items_in result ≡ [] }
        ensures bound { bound ≤ bound_of result }
    {
        if bound <= NARROW {
            Numbers::Narrow(Vec::new(alloc))
        } else {
            Numbers::Wide(Vec::new(alloc))
        }
    }

    /// Returns an empty list with room for `count` numbers below `bound`. If memory runs out, the answer is `AllocError`.
    pub fn with_capacity(alloc: Global, count: usize, bound: usize) -> Result<Numbers, AllocError>
        ensures items { IfOk result (λ numbers. items_in numbers ≡ []) }
        ensures bound { IfOk result (λ numbers. bound ≤ bound_of numbers) }
    {
        if bound <= NARROW {
            Ok(Numbers::Narrow(Vec::with_capacity(alloc, count)?))
        } else {
            Ok(Numbers::Wide(Vec::with_capacity(alloc, count)?))
        }
    }

    /// Returns the number of numbers.
    pub fn len(&self) -> usize
        ensures { result ≡ length (items_in self.now) }
    {
        match self {
            Numbers::Narrow(items) => items.len(),
            Numbers::Wide(items) => items.len(),
        }
    }

    /// Returns whether there is no number.
    pub fn is_empty(&self) -> bool
        ensures { IsTrue result ↔ (items_in self.now ≡ []) }
    {
        self.len() == 0
    }

    /// Appends a number. If memory runs out, the answer is `AllocError` and the list is unspecified.
    pub fn push(&mut self, number: usize) -> Result<(), AllocError>
        requires fits { number < bound_of self.old }
        ensures items { OnOk result (items_in self.new ≡ items_in self.old ++ number ∷ []) }
        ensures bound { OnOk result (bound_of self.new ≡ bound_of self.old) }
    {
        match self {
            Numbers::Narrow(items) => items.push(number as u32)?,
            Numbers::Wide(items) => items.push(number as u64)?,
        }
        Ok(())
    }

    /// Appends a number. If it does not fit four bytes, all numbers get eight first. If memory runs out, the answer is `AllocError` and the
    /// list is unspecified.
    pub(crate) fn push_or_widen(&mut self, alloc: Global, number: usize) -> Result<(), AllocError>
        ensures { OnOk result (items_in self.new ≡ items_in self.old ++ number ∷ []) }
    {
        match self {
            Numbers::Narrow(items) => match u32::try_from(number) {
                Ok(narrow) => items.push(narrow)?,
                Err(_) => {
                    let mut wide = widened(alloc, items)?;
                    wide.push(number as u64)?;
                    *self = Numbers::Wide(wide);
                }
            },
            Numbers::Wide(items) => items.push(number as u64)?,
        }
        Ok(())
    }

    /// Returns the number at a place.
    #[inline(always)]
    pub fn get(&self, place: usize) -> usize
        requires { place < length (items_in self.now) }
        ensures { result ≡ slice_index (items_in self.now) place }
    {
        match self {
            Numbers::Narrow(items) => items[place] as usize,
            Numbers::Wide(items) => items[place] as usize,
        }
    }

    /// Sets the number at a place.
    #[inline(always)]
    pub fn set(&mut self, place: usize, number: usize)
        requires within { place < length (items_in self.old) }
        requires fits { number < bound_of self.old }
        ensures items { items_in self.new ≡ slice_set (items_in self.old) place number }
        ensures bound { bound_of self.new ≡ bound_of self.old }
    {
        match self {
            Numbers::Narrow(items) => items[place] = number as u32,
            Numbers::Wide(items) => items[place] = number as u64,
        }
    }
}
