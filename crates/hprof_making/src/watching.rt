//! Counts of the objects by kind that are known once a part was read.

ghost use Rattle.std.specs.Prelude.{◌≡◌, ◌↔◌, IfSome, IsSome, IsTrue};
ghost use Rattle.hprof_objects.specs.StoredObjects.{IsOneStretch};
ghost use Rattle.hprof_making.specs.Watching.{StartsTally};

use hprof_histogram::CountedKinds;
use hprof_histogram::laws::what_took_all_objects_is_a_tally;
use hprof_objects::StoredObjects;
use hprof_runs::Scratch;
use std::alloc::Global;

/// Returns counts of no objects, which are to take each object while one part is read for the first time. There are none if counts are not
/// wanted, or if the number of readers is not one.
pub fn counts_to_watch(alloc: Global, wanted: bool, readers: usize) -> Option<CountedKinds>
    ensures some { IsSome result ↔ IsTrue wanted × (readers ≡ 1) }
    ensures tally { IfSome result StartsTally }
{
    what_took_all_objects_is_a_tally();
    if wanted && readers == 1 {
        Some(CountedKinds::new(alloc))
    } else {
        None
    }
}

/// Returns the counts that took each object while one part was read, if the objects are one stretch of the part, and else `None`. A pass
/// over one stretch gives the objects in the same order.
pub fn counts_known<S: Scratch + Drop>(
    objects: &StoredObjects<S>,
    watched: Option<CountedKinds>,
) -> Option<CountedKinds>
    ensures one { IsSome result → IsOneStretch objects.now }
    ensures same { IsOneStretch objects.now → result ≡ watched }
{
    if objects.is_one_stretch() {
        watched
    } else {
        None
    }
}
