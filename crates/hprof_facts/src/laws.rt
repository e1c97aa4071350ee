//! Laws of the definitions. The contract of each function is a theorem; its body is empty.

ghost use Rattle.std.specs.Prelude.{◌≡◌, ◌≤◌, ◌++◌, ◌∷◌, [], ℕ, List, length, take, Option, Some, Result, Ok, Err, false};
ghost use Rattle.std.specs.Io.KnownBytes.{Consumes};
ghost use Rattle.hprof_values.specs.declared.ids.IdSize.{IdSize};
ghost use Rattle.hprof_items.specs.declared.header.Header.{Header};
ghost use Rattle.hprof_items.specs.FactValue.{FactValue};
ghost use Rattle.hprof_stream.specs.declared.limits.Limits.{Limits};
ghost use Rattle.hprof_stream.specs.declared.part_fault.PartFault.{PartFault};
ghost use Rattle.hprof_stream.specs.declared.summary.PartSummary.{PartSummary};
ghost use Rattle.hprof_stream.specs.Part.{IsPart, IsSummary};
ghost use Rattle.hprof_stream.specs.Fault.{HasNoFault, StatesSoFar};
ghost use Rattle.hprof_stream.specs.Reader.{ReadsPart};
ghost use Rattle.hprof_facts.specs.declared.fact_reader.FactReader.{FactReader};
ghost use Rattle.hprof_facts.specs.FactReader.{Ends, EndsFrom, HasGivenFrom, HasGivenOrFails, HasPassed, Origin, ids_of, start_of};
ghost use Rattle.hprof_facts.specs.OfBytes.{IsOfBytes, IsResultOf, RunBefore, StatesBefore, is_of_bytes};

use hprof_devices::Source;
use hprof_stream::Sink;

/// A reader that began at the first byte ends as `read_part` does with a sink that lists the facts.
pub fn from_the_start_it_ends_as_read_part<R: Source + Drop>()
    ensures { (limits : Limits) (was is : R) (result : Result PartSummary PartFault) (given : List FactValue)
        → EndsFrom R.left R.health R.pulls (start_of limits) was is result given → Ends R.left R.health R.pulls limits was is result given }
{}

/// The facts before the place at which a reader began, and then those that it has given, are the first facts that the bytes state.
pub fn given_facts_are_the_first<R: Source + Drop>()
    ensures { (origin : Origin) (rest : List ℕ) (was : R) (given : List FactValue) (reader : FactReader R) (header : Option Header)
        (all : List FactValue) → R.left was ≡ Some rest → HasGivenFrom R.left R.health R.pulls origin was given reader
        → StatesSoFar origin.limits.max_item (take origin.limits.max_bytes (origin.front ++ rest)) header all
        → (more : List FactValue) × (all ≡ origin.told ++ (given ++ more)) }
{}

/// If the bytes state the facts before a place, a reader that resumes there has skipped exactly these. Or it fails: memory ran out, there
/// were too many reads, or the source failed.
pub fn a_resumed_reader_stands_at_its_place<R: Source + Drop>()
    ensures { (origin : Origin) (rest : List ℕ) (was : R) (passed others : List FactValue) (reader : FactReader R) (header : Option Header)
        → R.left was ≡ Some rest → HasPassed R.left R.health R.pulls origin was (length passed) reader
        → StatesSoFar origin.limits.max_item (take origin.limits.max_bytes (origin.front ++ rest)) header
        ((origin.told ++ passed) ++ others)
        → HasGivenOrFails R.left R.health R.pulls origin was passed reader }
{}

/// Bytes have one result, and state one list of facts before it.
pub fn bytes_have_one_result()
    ensures result { (limits : Limits) (bytes : List ℕ) (one two : Result PartSummary PartFault) → IsResultOf limits bytes one
        → IsResultOf limits bytes two → one ≡ two }
    ensures facts { (limits : Limits) (bytes : List ℕ) (result : Result PartSummary PartFault) (facts others : List FactValue)
        → StatesBefore limits bytes result facts → StatesBefore limits bytes result others → facts ≡ others }
{}

/// A reader whose result is decided by the bytes has the result of the bytes. It has given all facts before that, from its place on.
pub fn pulled_by_the_bytes<R: Source + Drop>()
    ensures { (origin : Origin) (rest : List ℕ) (was is : R) (result : Result PartSummary PartFault) (given : List FactValue)
        → R.left was ≡ Some rest → EndsFrom R.left R.health R.pulls origin was is result given → IsOfBytes result
        → IsResultOf origin.limits (origin.front ++ rest) result
        × StatesBefore origin.limits (origin.front ++ rest) result (origin.told ++ given) }
{}

/// A reader of facts and `read_part` agree on the same bytes, if the bytes decide both results: the results are equal, and the sink ran
/// over the facts that the reader gave. If the reader began at a place, the facts before the place come first.
pub fn pull_and_push_agree<R: Source + Drop, Q: Source, S: Sink>()
    ensures start { (limits : Limits) (bytes : List ℕ) (was is : R) (result : Result PartSummary PartFault) (given : List FactValue)
        (pushed behind : Q) (came : List ℕ) (other : Result PartSummary PartFault) (old new : S)
        → R.left was ≡ Some bytes → Q.left pushed ≡ Some bytes → Ends R.left R.health R.pulls limits was is result given
        → Consumes (Q.left pushed) (Q.left behind) came
        → ReadsPart Q.left Q.health Q.pulls S.begins S.steps S.refuses S.failed limits pushed came behind old other new
        → IsOfBytes result → IsOfBytes other → (result ≡ other) × RunBefore S.begins S.steps other old given new }
    ensures place { (origin : Origin) (rest : List ℕ) (was is : R) (result : Result PartSummary PartFault) (given : List FactValue)
        (pushed behind : Q) (came : List ℕ) (other : Result PartSummary PartFault) (old new : S)
        → R.left was ≡ Some rest → Q.left pushed ≡ Some (origin.front ++ rest)
        → EndsFrom R.left R.health R.pulls origin was is result given → Consumes (Q.left pushed) (Q.left behind) came
        → ReadsPart Q.left Q.health Q.pulls S.begins S.steps S.refuses S.failed origin.limits pushed came behind old other new
        → IsOfBytes result → IsOfBytes other
        → (result ≡ other) × RunBefore S.begins S.steps other old (origin.told ++ given) new }
{}

/// In a part with no fault, a reader that resumes at a place finds none. It skips the facts before the place, gives the facts behind it, in
/// order, and has given all of them at the end. A fault that it answers is none of the bytes.
pub fn no_false_alarm_behind_a_place<R: Source + Drop>()
    ensures given { (origin : Origin) (bytes rest : List ℕ) (ids : IdSize) (millis : ℕ) (facts : List FactValue) (was : R)
        (given : List FactValue) (reader : FactReader R) → HasNoFault origin.limits.max_item bytes → length bytes ≤ origin.limits.max_bytes
        → IsPart bytes ids millis facts → bytes ≡ origin.front ++ rest → R.left was ≡ Some rest
        → HasGivenFrom R.left R.health R.pulls origin was given reader
        → (more : List FactValue) × (facts ≡ origin.told ++ (given ++ more)) }
    ensures passed { (origin : Origin) (bytes rest : List ℕ) (ids : IdSize) (millis : ℕ) (passed others : List FactValue) (was : R)
        (reader : FactReader R) → HasNoFault origin.limits.max_item bytes → length bytes ≤ origin.limits.max_bytes
        → IsPart bytes ids millis ((origin.told ++ passed) ++ others) → bytes ≡ origin.front ++ rest → R.left was ≡ Some rest
        → HasPassed R.left R.health R.pulls origin was (length passed) reader
        → HasGivenOrFails R.left R.health R.pulls origin was passed reader }
    ensures faults { (origin : Origin) (bytes rest : List ℕ) (ids : IdSize) (millis : ℕ) (facts : List FactValue) (was is : R)
        (given : List FactValue) (fault : PartFault) → HasNoFault origin.limits.max_item bytes → length bytes ≤ origin.limits.max_bytes
        → IsPart bytes ids millis facts → bytes ≡ origin.front ++ rest → R.left was ≡ Some rest
        → EndsFrom R.left R.health R.pulls origin was is (Err fault) given → is_of_bytes fault ≡ false }
    ensures end { (origin : Origin) (bytes rest : List ℕ) (ids : IdSize) (millis : ℕ) (facts : List FactValue) (was is : R)
        (given : List FactValue) (summary : PartSummary) → HasNoFault origin.limits.max_item bytes → length bytes ≤ origin.limits.max_bytes
        → IsPart bytes ids millis facts → bytes ≡ origin.front ++ rest → R.left was ≡ Some rest
        → EndsFrom R.left R.health R.pulls origin was is (Ok summary) given
        → (facts ≡ origin.told ++ given) × IsSummary bytes summary }
{}

/// In a part with no fault the facts that a reader gives are kept under the size of identifiers of the part, wherever the reader began.
pub fn facts_have_the_size_of_their_part<R: Source + Drop>()
    ensures { (origin : Origin) (bytes rest : List ℕ) (ids : IdSize) (millis : ℕ) (facts : List FactValue) (was : R)
        (given : List FactValue) (fact : FactValue) (reader : FactReader R) → HasNoFault origin.limits.max_item bytes
        → length bytes ≤ origin.limits.max_bytes → IsPart bytes ids millis facts → bytes ≡ origin.front ++ rest → R.left was ≡ Some rest
        → HasGivenFrom R.left R.health R.pulls origin was (given ++ fact ∷ []) reader → ids_of reader ≡ Some ids }
{}
