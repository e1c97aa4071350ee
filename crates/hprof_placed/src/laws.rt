//! Laws of the definitions. The contract of each function is a theorem; its body is empty.

ghost use Rattle.std.specs.Prelude.{◌≡◌, ◌+◌, ◌++◌, ◌∷◌, [], ℕ, true, List, take, Option, Some, Result, Ok, Err};
ghost use Rattle.std.specs.Io.KnownBytes.{Consumes};
ghost use Rattle.hprof_items.specs.declared.header.Header.{Header};
ghost use Rattle.hprof_items.specs.FactValue.{FactValue};
ghost use Rattle.hprof_stream.specs.declared.limits.Limits.{Limits};
ghost use Rattle.hprof_stream.specs.declared.part_fault.PartFault.{PartFault};
ghost use Rattle.hprof_stream.specs.declared.part_fault.PartFault.TheVariants.{Sink};
ghost use Rattle.hprof_stream.specs.declared.part_place.PartPlace.{PartPlace};
ghost use Rattle.hprof_stream.specs.declared.sink.SinkFault.{SinkFault};
ghost use Rattle.hprof_stream.specs.declared.summary.PartSummary.{PartSummary};
ghost use Rattle.hprof_stream.specs.Fault.{StatesSoFar};
ghost use Rattle.hprof_stream.specs.Part.{IsPart};
ghost use Rattle.hprof_stream.specs.PartPlaces.{IsPlaceBehind};
ghost use Rattle.hprof_facts.specs.FactReader.{EndsFrom, Origin};
ghost use Rattle.hprof_facts.specs.OfBytes.{IsOfBytes};
ghost use Rattle.hprof_placed.specs.Handed.{Handed, IsUpTo, handed_so, is_of_input};
ghost use Rattle.hprof_placed.specs.LastPlaces.{IsLast};
ghost use Rattle.hprof_placed.specs.Reading.{ListsPart};

use hprof_devices::Source;

/// A sink was handed the header and all facts of a part that is read to its end; all that the bytes state before a fault of the bytes, the
/// source or the limits; or all before the item that it refused.
pub fn what_a_sink_is_handed<R: Source>()
    ensures whole { (limits : Limits) (was is : R) (came : List ℕ) (summary : PartSummary) (handed : Handed)
        → ListsPart R.left R.health R.pulls limits was came is (Ok summary) handed
        → (facts : List FactValue) × (handed ≡ handed_so (Some summary.header) facts)
        × IsPart came summary.header.ids summary.header.millis facts }
    ensures fault { (limits : Limits) (was is : R) (came : List ℕ) (fault : PartFault) (handed : Handed)
        → ListsPart R.left R.health R.pulls limits was came is (Err fault) handed → is_of_input fault ≡ true
        → (header : Option Header) × ((facts : List FactValue) × (handed ≡ handed_so header facts)
        × StatesSoFar limits.max_item (take limits.max_bytes came) header facts) }
    ensures refused { (limits : Limits) (was is : R) (came : List ℕ) (fault : SinkFault) (handed : Handed)
        → (reads : ListsPart R.left R.health R.pulls limits was came is (Err (Sink fault)) handed)
        → IsUpTo reads.0.1.whole handed }
{}

/// A place that a sink is told is behind all facts that it was given, and each further fact is one more since. So a sink that keeps the
/// last place and counts the facts has a `FactPlace` behind each of them.
pub fn a_place_goes_on_with_the_facts()
    ensures noted { (limits : Limits) (bytes more front rest : List ℕ) (facts : List FactValue) (part : PartPlace)
        → bytes ++ more ≡ front ++ rest → IsPlaceBehind limits front facts part → IsLast limits (bytes ++ more) facts (Some part) 0 }
    ensures taken { (limits : Limits) (bytes : List ℕ) (facts : List FactValue) (fact : FactValue) (last : Option PartPlace) (since : ℕ)
        → IsLast limits bytes facts last since → IsLast limits bytes (facts ++ fact ∷ []) last (since + 1) }
{}

/// A `FactReader` that reads the same part again, from a place on, agrees with the sink, if the bytes decide both results: the results are
/// equal, and the facts before the place and those that the reader gave are the facts that the sink was handed.
pub fn reading_again_agrees<R: Source + Drop, Q: Source>()
    ensures { (origin : Origin) (rest : List ℕ) (was is : R) (result : Result PartSummary PartFault) (given : List FactValue)
        (pushed behind : Q) (came : List ℕ) (other : Result PartSummary PartFault) (handed : Handed)
        → R.left was ≡ Some rest → Q.left pushed ≡ Some (origin.front ++ rest)
        → EndsFrom R.left R.health R.pulls origin was is result given → Consumes (Q.left pushed) (Q.left behind) came
        → ListsPart Q.left Q.health Q.pulls origin.limits pushed came behind other handed → IsOfBytes result → IsOfBytes other
        → (result ≡ other) × (handed.facts ≡ origin.told ++ given) }
{}
