//! Counting the facts of a part.

ghost use Rattle.std.specs.Prelude.{◌≡◌, ◌<◌, List, [], None};
ghost use Rattle.hprof_items.specs.FactValue.{value_of};
ghost use Rattle.hprof_stream.specs.Tally.{form_of};

use crate::sink::{Sink, SinkFault};
use hprof_items::{Fact, Header, IdSize};

/// A sink that counts the facts of each kind. It never fails and never allocates.
#[derive(Clone, Copy, Debug, PartialEq, Eq)]
pub struct Tally {
    counts: [u64; 12],
    begun: Option<IdSize>,
}

/// Returns the index of a fact's kind: names, loads, unloads, frames, stack traces, thread starts, thread ends, roots, classes, instances,
/// object arrays, primitive arrays.
fn form_of(fact: &Fact<'_>) -> usize
    ensures form { result ≡ form_of (value_of fact.now) }
    ensures below { result < 12 }
{
    match *fact {
        Fact::Name { .. } => 0,
        Fact::Load { .. } => 1,
        Fact::Unload { .. } => 2,
        Fact::Frame { .. } => 3,
        Fact::Trace { .. } => 4,
        Fact::Start { .. } => 5,
        Fact::End { .. } => 6,
        Fact::Root(_) => 7,
        Fact::Class { .. } => 8,
        Fact::Instance { .. } => 9,
        Fact::ObjArray { .. } => 10,
        Fact::PrimArray { .. } => 11,
    }
}

impl Tally {
    ghost use Rattle.std.specs.Prelude.{None};
    ghost use Rattle.hprof_items.specs.FactValue.{FactValue};
    ghost use Rattle.hprof_stream.specs.Tally.{Counts, HasCounted, begun_with};

    /// Returns a tally of no facts.
    pub fn new() -> Self
        ensures counts { HasCounted result [] }
        ensures begun { begun_with result ≡ None }
    {
        Tally {
            counts: [0; 12],
            begun: None,
        }
    }

    /// Returns the number of facts of each kind, in this order: names, loads, unloads, frames, stack traces, thread starts, thread ends,
    /// roots, classes, instances, object arrays, primitive arrays. A count saturates at `u64::MAX`.
    pub fn counts(&self) -> [u64; 12]
        ensures { (facts : List FactValue) → HasCounted self.now facts → Counts facts result }
    {
        self.counts
    }
}

impl Sink for Tally {
    ghost use Rattle.std.specs.Prelude.{◌≡◌, false};
    ghost use Rattle.hprof_stream.specs.Tally.{CountsOne, HasCounted, begun_with};

    // A header counts nothing.
    ghost begins = { λ old header new. new.counts ≡ old.counts };

    ghost steps = { CountsOne };

    ghost begun = { begun_with };

    ghost failed = { λ _. false };

    ghost refuses = { λ _ _ _ _. ⊥ };

    fn begin_part(&mut self, header: Header) -> Result<(), SinkFault> {
        self.begun = Some(header.ids);
        Ok(())
    }

    fn take(&mut self, fact: &Fact<'_>, _spelled: &[u8]) -> Result<(), SinkFault> {
        let form = form_of(fact);
        self.counts[form] = self.counts[form].saturating_add(1);
        Ok(())
    }
}
