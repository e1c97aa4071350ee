//! Sinks, which take the header and the facts of a part.

ghost use Rattle.std.specs.Prelude.{◌≡◌, [], ◌∷◌, List, Bool, true, false, Option, Some, Err, OnOk, IfErr};
ghost use Rattle.hprof_items.specs.FactValue.{FactValue, value_of};

use hprof_items::{Fact, Header, IdSize};
use thiserror::Error;

/// The reason why a sink refused a header or a fact.
#[derive(Clone, Copy, Debug, PartialEq, Eq, Error)]
pub enum SinkFault {
    /// Memory ran out in the sink.
    #[error("out of memory")]
    OutOfMemory,
    /// The sink failed, now or before.
    #[error("sink failed")]
    Failed,
}

/// Takes the header of a part, and then its facts, in order. After a fault, each later call returns `Failed`.
pub trait Sink {
    ghost use Rattle.hprof_items.specs.declared.header.Header.{Header};
    ghost use Rattle.hprof_values.specs.declared.ids.IdSize.{IdSize};
    ghost use Rattle.hprof_stream.specs.declared.sink.SinkFault.{SinkFault};
    ghost use Rattle.hprof_stream.specs.Run.{FitsBegun, ListsHaveBegun, SpellsBegun};

    // What an Ok of `begin_part` means.
    ghost begins: { Self → Header → Self → Type 0 };

    // What an Ok of `take` means.
    ghost steps: { Self → FactValue → Self → Type 0 };

    // The size of identifiers that was begun last, if a part was begun.
    ghost begun: { Self → Option IdSize };

    // A call answered a fault.
    ghost failed: { Self → Bool };

    // What a fault tells of the sink as it stood before the call, of the fact that was given, if one was, and of the sink as
    // the call left it: nothing is called behind a fault.
    ghost refuses: { Self → List FactValue → SinkFault → Self → Type 0 };

    /// Begins a part. The only fault is `Failed`.
    fn begin_part(&mut self, header: Header) -> Result<(), SinkFault>
        ensures begins { OnOk result (begins self.old header self.new) }
        ensures begun { OnOk result (begun self.new ≡ Some header.ids) }
        ensures well { OnOk result ((failed self.old ≡ false) × (failed self.new ≡ false)) }
        ensures err { IfErr result (λ fault. refuses self.old [] fault self.new × (failed self.new ≡ true) × (fault ≡ SinkFault.Failed)) };

    /// Takes a fact of the part that was begun last. Its identifiers have the size of that part.
    ///
    /// `spelled` has the bytes of the sub-record that states the fact, so that they need not be encoded again. It is empty for the fact of
    /// a record.
    fn take(&mut self, fact: &Fact<'_>, spelled: &[u8]) -> Result<(), SinkFault>
        requires fits { FitsBegun (begun self.old) (value_of fact.now) }
        requires lists { ListsHaveBegun (begun self.old) fact.now }
        requires spelled { SpellsBegun (begun self.old) (value_of fact.now) spelled.now }
        ensures steps { OnOk result (steps self.old (value_of fact.now) self.new) }
        ensures begun { begun self.new ≡ begun self.old }
        ensures well { OnOk result ((failed self.old ≡ false) × (failed self.new ≡ false)) }
        ensures err { IfErr result (λ fault. refuses self.old (value_of fact.now ∷ []) fault self.new × (failed self.new ≡ true)) }
        ensures failed { failed self.old ≡ true → result ≡ Err SinkFault.Failed };
}
