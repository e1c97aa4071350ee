//! Places of a part at which reading can begin again.

ghost use Rattle.hprof_stream.specs.Progress.{IsCounted};

use crate::progress::Progress;

/// A place of a part, behind whole items. A reader can begin there, with the bytes behind it.
#[derive(Clone, Copy)]
pub struct PartPlace {
    pub(crate) progress: Progress,
    ghost counted: { IsCounted progress 0 },
}

impl PartPlace {
    ghost use Rattle.std.specs.Prelude.{◌≡◌, ℕ, List, length};
    ghost use Rattle.hprof_items.specs.FactValue.{FactValue};
    ghost use Rattle.hprof_stream.specs.PartPlaces.{IsPlaceBehind};
    ghost use Rattle.hprof_stream.specs.declared.limits.Limits.{Limits};

    /// Returns the number of bytes of the part before the place.
    pub fn offset(&self) -> u64
        ensures { (limits : Limits) (bytes : List ℕ) (facts : List FactValue) → IsPlaceBehind limits bytes facts self.now
            → result ≡ length bytes }
    {
        self.progress.at
    }

    /// Returns the number of facts that the part states before the place.
    pub fn facts(&self) -> u64
        ensures { (limits : Limits) (bytes : List ℕ) (facts : List FactValue) → IsPlaceBehind limits bytes facts self.now
            → result ≡ length facts }
    {
        self.progress.facts
    }
}
