//! Places behind facts of a part.

use hprof_stream::PartPlace;

/// A place of a part, behind one of its facts. A [`FactReader`](crate::FactReader) can begin there.
#[derive(Clone, Copy)]
pub struct FactPlace {
    /// The place at which reading begins again.
    pub(crate) part: PartPlace,
    /// The number of facts behind it that are skipped.
    pub(crate) passed: u64,
}

impl FactPlace {
    ghost use Rattle.std.specs.Prelude.{◌≡◌, ℕ, List, length};
    ghost use Rattle.hprof_items.specs.FactValue.{FactValue};
    ghost use Rattle.hprof_stream.specs.PartPlaces.{IsPlaceBehind};
    ghost use Rattle.hprof_stream.specs.declared.limits.Limits.{Limits};
    ghost use Rattle.hprof_facts.specs.FactPlaces.{begins_at, passed_of};

    /// Returns the place that is `passed` facts behind a place of the part.
    pub fn behind(place: PartPlace, passed: u64) -> Self
        ensures part { begins_at result ≡ place }
        ensures passed { passed_of result ≡ passed }
    {
        FactPlace {
            part: place,
            passed,
        }
    }

    /// Returns the offset in the part, in bytes, at which a source must begin for a reader that resumes here.
    pub fn offset(&self) -> u64
        ensures { (limits : Limits) (bytes : List ℕ) (facts : List FactValue) → IsPlaceBehind limits bytes facts (begins_at self.now)
            → result ≡ length bytes }
    {
        self.part.offset()
    }
}
