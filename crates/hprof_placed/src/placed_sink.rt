//! Sinks that are told places of a part.

ghost use Rattle.std.specs.Prelude.{◌≡◌, ◌++◌, ◌∷◌, [], ℕ, List, Option, Some, None};
ghost use Rattle.hprof_items.specs.FactValue.{FactValue};

use hprof_stream::{PartPlace, Sink};

/// A sink that is told places of the part that it is given. Reading can begin again at each of them.
pub trait PlacedSink: Sink {
    ghost use Rattle.hprof_items.specs.declared.header.Header.{Header};
    ghost use Rattle.hprof_stream.specs.declared.limits.Limits.{Limits};
    ghost use Rattle.hprof_stream.specs.PartPlaces.{IsPlaceBehind};

    // What a sink may have been given before the part. It is the same all through the part.
    ghost Earlier: { Type 0 };

    // Of a part that is read within these limits, these bytes came before the piece that is being read, and the sink was given this
    // header, if one came, and these facts, behind what it was given earlier.
    ghost holds: { Self → Limits → Earlier → Option Header → List ℕ → List FactValue → Type 0 };

    /// Is told the place behind all that it was given of the part, before the next piece is read.
    ///
    /// It cannot refuse. A sink that runs out of memory here refuses the next fact.
    fn note(&mut self, place: PartPlace)
        ensures holds { (limits : Limits) (earlier : Earlier) (header : Option Header) (bytes more front rest : List ℕ)
            (facts : List FactValue) → holds self.old limits earlier header bytes facts → bytes ++ more ≡ front ++ rest
            → IsPlaceBehind limits front facts place → holds self.new limits earlier header (bytes ++ more) facts }
        ensures begun { Self.begun self.new ≡ Self.begun self.old }
        ensures failed { Self.failed self.new ≡ Self.failed self.old };

    // A header comes before all facts, and each fact is one more.
    ghost begins_part: { (old : Self) (header : Header) (new : Self) → Self.begins old header new
        → (limits : Limits) (earlier : Earlier) (bytes : List ℕ) → holds old limits earlier None bytes []
        → holds new limits earlier (Some header) bytes [] };

    ghost takes_fact: { (old : Self) (fact : FactValue) (new : Self) → Self.steps old fact new
        → (limits : Limits) (earlier : Earlier) (header : Header) (bytes : List ℕ) (facts : List FactValue)
        → holds old limits earlier (Some header) bytes facts → holds new limits earlier (Some header) bytes (facts ++ fact ∷ []) };
}
