//! Keeping the summaries of parts.

ghost use Rattle.std.specs.Prelude.{◌≡◌, ◌++◌, ◌∷◌, [], ◌+◌, ◌<◌, ℕ, List, ⊤, IfOk, OnErr, vec_len, vec_capacity};

use hprof_stream::PartSummary;
use std::alloc::{AllocError, Global};

/// Takes the summary of each part, in order, once the part was read to its end, and keeps what is wanted of them.
pub trait Summaries {
    ghost use Rattle.hprof_stream.specs.declared.summary.PartSummary.{PartSummary};

    // There is room for so many more, and for no other number.
    ghost has_room: { Self → Self.Kept → ℕ → Type 0 };

    // These summaries were taken, in order, and are kept if they are wanted.
    ghost holds: { Self → Self.Kept → List PartSummary → Type 0 };

    // Room for those of so many parts takes memory.
    ghost takes_room: { Self → ℕ → Type 0 };

    /// The summaries that are kept.
    type Kept: Drop;

    /// Returns room for the summaries of `parts` parts.
    fn with_room(&self, alloc: Global, parts: usize) -> Result<Self::Kept, AllocError>
        ensures empty { IfOk result (λ kept. holds self.now kept []) }
        ensures room { IfOk result (λ kept. has_room self.now kept parts) }
        ensures full { OnErr result (takes_room self.now parts) };

    /// Takes the summary of the next part.
    fn keep(&self, kept: &mut Self::Kept, summary: PartSummary)
        requires { (more : ℕ) × has_room self.now kept.old (more + 1) }
        ensures holds { (before : List PartSummary) → holds self.now kept.old before
            → holds self.now kept.new (before ++ summary ∷ []) }
        ensures room { (more : ℕ) → has_room self.now kept.old (more + 1) → has_room self.now kept.new more };

    // Room for those of no parts takes none.
    ghost no_room: { (summaries : Self) → takes_room summaries 0 → ⊥ };
}

/// Keeps every summary, in memory that was allocated before.
#[derive(Clone, Copy)]
pub struct AllSummaries;

impl Summaries for AllSummaries {
    ghost use Rattle.std.proofs.Common.{arith};

    ghost has_room = { λ all kept more. vec_len kept + more ≡ vec_capacity kept };

    ghost holds = { λ all kept summaries. kept.items ≡ summaries };

    ghost takes_room = { λ all parts. 0 < parts };

    type Kept = Vec<PartSummary>;

    fn with_room(&self, alloc: Global, parts: usize) -> Result<Vec<PartSummary>, AllocError> {
        Vec::with_capacity(alloc, parts)
    }

    fn keep(&self, kept: &mut Vec<PartSummary>, summary: PartSummary) {
        kept.push_reserved(summary);
    }

    ghost no_room = { λ all takes. omega (arith, takes) };
}

/// Keeps no summary.
#[derive(Clone, Copy)]
pub struct NoSummaries;

impl Summaries for NoSummaries {
    ghost has_room = { λ none kept more. ⊤ };

    ghost holds = { λ none kept summaries. ⊤ };

    ghost takes_room = { λ none parts. ⊥ };

    type Kept = ();

    fn with_room(&self, _alloc: Global, _parts: usize) -> Result<(), AllocError> {
        Ok(())
    }

    fn keep(&self, _kept: &mut (), _summary: PartSummary) {}

    ghost no_room = { λ none takes. takes };
}
