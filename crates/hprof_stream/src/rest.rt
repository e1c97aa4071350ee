//! The beginning of an incomplete item.

ghost use Rattle.std.specs.Prelude.{◌≡◌, ◌==◌, ◌+◌, ◌^◌, ◌<◌, ◌≤◌, ℕ, List, [], length, vec_capacity, Some, None};
ghost use Rattle.hprof_stream.specs.declared.rest.Passing.{Passing};
ghost use Rattle.hprof_stream.specs.Progress.{place_of, IsCounted};
ghost use Rattle.hprof_values.specs.Ids.{IsBytes};
ghost use Rattle.hprof_items.specs.declared.walk.Walk.{Walk};
ghost use Rattle.hprof_stream.specs.Rest.{IsRest, IsSound, PassesOver, rest_len};

use crate::item::Item;
use crate::progress::Progress;
use hprof_items::Walk;
use std::alloc::Global;

/// The progress within a record that is skipped. None of its bytes are held.
#[derive(Clone, Copy)]
pub(crate) struct Passing {
    /// The number of its bytes that have come, with its head.
    pub(crate) seen: u64,
    /// The number of its bytes that are still to come.
    pub(crate) left: u32,
}

/// The beginning of an incomplete item: its bytes, or the number of bytes that have come of a record that is skipped.
#[derive(Drop)]
pub(crate) struct Rest {
    pub(crate) held: Vec<u8>,
    /// The point that the walk over a sub-record has reached.
    pub(crate) walk: Walk,
    pub(crate) passing: Option<Passing>,
}

impl Rest {
    /// Returns an empty rest.
    pub(crate) fn new(alloc: Global) -> Self
        ensures held { result.held.items ≡ [] }
        ensures walk { result.walk ≡ Walk.Front }
        ensures no_memory { vec_capacity result.held ≡ 0 }
        ensures passing { result.passing ≡ None }
    {
        Rest {
            held: Vec::new(alloc),
            walk: Walk::Front,
            passing: None,
        }
    }

    /// Returns the number of bytes of the part that are in the rest.
    pub(crate) fn len(&self) -> u64
        requires { rest_len self.now < 2 ^ 64 }
        ensures { result ≡ rest_len self.now }
    {
        let passed = self.passing.map_or(0, |passing| passing.seen);
        passed + self.held.len() as u64
    }

    /// Returns whether the rest is empty.
    pub(crate) fn is_empty(&self) -> bool
        requires { IsSound self.now }
        ensures { result ≡ (rest_len self.now == 0) }
    {
        self.passing.is_none() && self.held.is_empty()
    }

    /// Drops the held bytes.
    pub(crate) fn clear(&mut self)
        ensures held { self.new.held.items ≡ [] }
        ensures walk { self.new.walk ≡ Walk.Front }
        ensures passing { self.new.passing ≡ self.old.passing }
        ensures room { vec_capacity self.new.held ≡ vec_capacity self.old.held }
    {
        self.held.clear();
        self.walk = Walk::Front;
    }
}

/// Skips the bytes that belong to the skipped record, and returns the bytes after them.
pub(crate) fn pass_over<'a>(progress: &mut Progress, rest: &mut Rest, bytes: &'a [u8]) -> &'a [u8]
    requires counted { IsCounted progress.old (rest_len rest.old + length bytes.now) }
    requires sound { IsSound rest.old }
    ensures passed { (front : List ℕ) (p : Passing) → rest.old.passing ≡ Some p
        → IsRest progress.old.limits.max_item (place_of progress.old) front rest.old
        → PassesOver progress.old front bytes.now progress.new result.now rest.new }
    ensures none { rest.old.passing ≡ None → (progress.new ≡ progress.old) × (rest.new ≡ rest.old) × (result.now ≡ bytes.now) }
    ensures sound { IsSound rest.new }
    ensures held { rest.new.held ≡ rest.old.held }
    ensures header { progress.new.header ≡ progress.old.header }
    ensures bytes { IsBytes bytes.now }
    ensures shorter { length result.now ≤ length bytes.now }
    ensures counted { IsCounted progress.new (rest_len rest.new + length result.now) }
{
    let Some(Passing { seen, left }) = rest.passing else {
        return bytes;
    };
    let count = bytes.len().min(left as usize);
    let (_, behind) = bytes.split_at(count);
    let seen = seen + count as u64;
    if count == left as usize {
        rest.passing = None;
        progress.advance(&Item::Skipped, seen as usize);
    } else {
        let left = left - count as u32;
        rest.passing = Some(Passing { seen, left });
    }
    behind
}
