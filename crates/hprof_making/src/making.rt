//! Making a product of passes over the objects of parts.

ghost use Rattle.std.specs.Prelude.{◌≡◌, All};
ghost use Rattle.hprof_devices.specs.declared.health.Health.TheVariants.{Well};
ghost use Rattle.hprof_engine.specs.Joining.{fault_of};
ghost use Rattle.hprof_engine.specs.Makes.{Makes};
ghost use Rattle.hprof_runs.specs.ReadBack.{HoldsNothing};
ghost use Rattle.hprof_stored.specs.StoredMaking.{CanBeReadAgain, stored_making};

use crate::pass_product::PassProduct;
use crate::watching::{counts_known, counts_to_watch};
use crate::writing::write_in_parts;
use hprof_devices::{Source, Target};
use hprof_engine::ToolFault;
use hprof_histogram::CountedKinds;
use hprof_objects::Keeping;
use hprof_parts::Parts;
use hprof_passes::PassFault;
use hprof_runs::Scratch;
use hprof_stored::laws::{stored_objects_are_those_of_the_parts, what_was_watched_is_a_pass};
use hprof_stored::{InParts, StoredHeap, read_watched};
use hprof_stream::Limits;
use std::alloc::Global;

/// Reads all parts, and writes the product of them. Objects stay in the parts or go to scratch, as `keeping` says, and are gone through as
/// often as the product wants: `parts` opens the same parts as the readers. If the product wants counts of the objects by kind, and there
/// is one reader whose objects are one stretch, they are counted as they are read.
///
/// # Errors
///
/// The first of these that applies is the fault.
///
/// - `Part`, `NoParts`, `IdSizes`: a part was refused, there are no parts, or they have two sizes of identifiers. Nothing was written.
/// - `Conflict`: two facts have one key and different contents. This is the least such key, and nothing was written.
/// - `Refused`: the heap was refused. Nothing was written.
/// - `Lost`: the objects cannot be read again, or the scratch failed. Nothing was written.
/// - `Write`: the target failed. The bytes written are the beginning of the product.
/// - `OutOfMemory`: memory ran out, but not while a part was read. The bytes written are the beginning of the product.
pub fn make_stored<M: PassProduct, R: Source, S: Scratch + Drop, P: Parts, W: Target>(
    alloc: Global,
    product: &M,
    readers: &mut [R],
    parts: &P,
    limits: Limits,
    keeping: Keeping,
    scratch: S,
    target: &mut W,
) -> Result<(), ToolFault>
    requires readers { All (λ reader. R.health reader ≡ Well) readers.old }
    requires nothing { HoldsNothing (S.written scratch) }
    requires well { S.health scratch ≡ Well }
    requires target { W.health target.old ≡ Well }
    requires again { CanBeReadAgain R.left readers.old (P.bytes parts.now) (S.written scratch) }
    ensures { Makes R.left R.health R.pulls W.written W.health limits (stored_making (M.is_text product.now) (M.refuses product.now))
        readers.old readers.new target.old target.new (fault_of result) }
{
    if readers.is_empty() {
        return Err(ToolFault::NoParts);
    }
    stored_objects_are_those_of_the_parts::<R, S, P>();
    what_was_watched_is_a_pass::<R, S, P, CountedKinds>();
    let Ok(mut kept) = product.with_room(alloc, readers.len()) else {
        return Err(ToolFault::OutOfMemory);
    };
    let watch = counts_to_watch(alloc, product.wants_counts(), readers.len());
    let read = match read_watched(
        alloc, readers, limits, keeping, scratch, product, &mut kept, watch,
    ) {
        Ok(read) => read,
        Err(fault) => return Err(ToolFault::from(fault)),
    };
    let (StoredHeap { heap, objects }, watched) = read;
    let objects = objects.finish();
    let known = counts_known(&objects, watched);
    let objects = InParts::new(&objects, parts, limits);
    match write_in_parts(alloc, product, &kept, &heap, objects, known, target) {
        Ok(()) => Ok(()),
        Err(PassFault::Sink(stop)) => Err(ToolFault::from(stop)),
        Err(PassFault::Lost(fault)) => Err(ToolFault::from(fault)),
    }
}
