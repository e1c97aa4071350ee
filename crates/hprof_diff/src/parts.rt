//! The report `diff` on the parts of two heaps.

ghost use Rattle.std.specs.Prelude.{◌≡◌, ℕ, List, All, IfOk, ⊤};
ghost use Rattle.hprof_devices.specs.declared.health.Health.TheVariants.{Well};
ghost use Rattle.hprof_diff.specs.Kept.{totals_in};
ghost use Rattle.hprof_engine.specs.Joining.{Tell, fault_of, none_known};
ghost use Rattle.hprof_engine.specs.Makes.{WritesAll};
ghost use Rattle.hprof_runs.specs.ReadBack.{HoldsNothing};
ghost use Rattle.hprof_stored.specs.StoredMaking.{CanBeReadAgain};
ghost use Rattle.hprof_stored.specs.Storing.{HaveObject};
ghost use Rattle.hprof_diff.specs.Comparing.{Counts, EndsDifference};
ghost use Rattle.hprof_diff.specs.DifferenceText.{AreTotalsOf, IsDifferenceOf};

use crate::fault::DiffFault;
use crate::label_counts::LabelCounts;
use crate::report::{write_growth, write_growth_over};
use hprof_devices::{Source, Target};
use hprof_engine::{HeapProduct, NoSummaries, ProductFault, ToolFault, read_heap, write_to};
use hprof_heap::{Gatherer, Heap};
use hprof_histogram::CountedKinds;
use hprof_making::{PassProduct, counts_known, counts_to_watch};
use hprof_objects::Keeping;
use hprof_parts::Parts;
use hprof_passes::{Objects, PassFault};
use hprof_runs::Scratch;
use hprof_stored::laws::{stored_objects_are_those_of_the_parts, what_was_watched_is_a_pass};
use hprof_stored::{InParts, StoredHeap, read_watched};
use hprof_stream::Limits;
use std::alloc::Global;

/// The report `diff` on a heap, compared with an older one.
#[derive(Clone, Copy)]
pub struct GrowthReport<'a> {
    /// The counts of the older heap's objects, by label.
    pub old: &'a LabelCounts,
}

impl<'a> HeapProduct for GrowthReport<'a> {
    ghost use Rattle.std.specs.Prelude.{⊤};
    ghost use Rattle.hprof_diff.specs.Kept.{totals_in};
    ghost use Rattle.hprof_diff.specs.DifferenceText.{IsGrowthText};
    ghost use Rattle.hprof_diff.specs.OneDifference.{one_growth_text};

    ghost is_text = { λ report heap. IsGrowthText (totals_in report.old.now) heap.ids heap.facts };

    ghost refuses = { λ report refusal heap. ⊥ };

    ghost takes_memory = { λ report. ⊤ };

    fn write_heap<W: Target>(
        &self,
        alloc: Global,
        heap: &Heap,
        target: &mut W,
    ) -> Result<(), ProductFault> {
        write_growth(alloc, self.old, heap, target)
    }

    ghost one_text = { λ report heap. one_growth_text (totals_in report.old.now) heap.ids heap.facts };
}

impl<'a> PassProduct for GrowthReport<'a> {
    ghost use Rattle.hprof_diff.specs.Kept.{totals_in};
    ghost use Rattle.hprof_diff.specs.DifferenceText.{IsGrowthReport};

    ghost is_text = { λ report. IsGrowthReport (totals_in report.old.now) };

    ghost refuses = { λ report refusal heap. ⊥ };

    fn wants_counts(&self) -> bool {
        true
    }

    fn wants_picks(&self) -> bool {
        false
    }

    fn write_over<O: Objects, W: Target>(
        &self,
        alloc: Global,
        _kept: &(),
        heap: &Heap,
        objects: &O,
        known: Option<CountedKinds>,
        target: &mut W,
    ) -> Result<(), PassFault<ProductFault, O::Fault>> {
        write_growth_over(alloc, self.old, heap, objects, known, target)
    }
}

/// Reads all parts, and counts the objects of their heap by label.
///
/// If memory runs out after all are read, the answer is [`ToolFault::OutOfMemory`].
pub fn count_parts<R: Source>(
    alloc: Global,
    readers: &mut [R],
    limits: Limits,
) -> Result<LabelCounts, ToolFault>
    requires { All (λ reader. R.health reader ≡ Well) readers.old }
    ensures counts { Counts R.left R.health R.pulls none_known ⊥ limits readers.old readers.new (fault_of result) }
    ensures totals { IfOk result (λ counts. (parts : List (List ℕ)) → Tell R.left readers.old parts
        → AreTotalsOf parts (totals_in counts)) }
{
    let gatherer = Gatherer::new(alloc);
    let heap = match read_heap(alloc, readers, limits, gatherer, &NoSummaries, &mut ()) {
        Ok(heap) => heap,
        Err(fault) => return Err(fault),
    };
    match LabelCounts::of(alloc, &heap) {
        Ok(counts) => Ok(counts),
        Err(_) => Err(ToolFault::OutOfMemory),
    }
}

/// Reads all parts, and counts the objects of their heap by label. Objects stay in the parts or go to scratch, as `keeping` says, and are
/// read again to be counted: `parts` opens the same parts as the readers. If there is one reader, and its objects are one stretch, they
/// are counted as they are read, and not read again.
///
/// # Errors
///
/// The first of these that applies is the fault.
///
/// - `Part`, `NoParts`, `IdSizes`: a part was refused, there are no parts, or they have two sizes of identifiers.
/// - `Conflict`: two facts have one key and different contents. This is the least such key.
/// - `Lost`: the objects cannot be read again, or the scratch failed.
/// - `OutOfMemory`: memory ran out, but not while a part was read.
pub fn count_stored<R: Source, S: Scratch + Drop, P: Parts>(
    alloc: Global,
    readers: &mut [R],
    parts: &P,
    limits: Limits,
    keeping: Keeping,
    scratch: S,
) -> Result<LabelCounts, ToolFault>
    requires readers { All (λ reader. R.health reader ≡ Well) readers.old }
    requires nothing { HoldsNothing (S.written scratch) }
    requires well { S.health scratch ≡ Well }
    requires again { CanBeReadAgain R.left readers.old (P.bytes parts.now) (S.written scratch) }
    ensures counts { Counts R.left R.health R.pulls HaveObject ⊤ limits readers.old readers.new (fault_of result) }
    ensures totals { IfOk result (λ counts. (parts : List (List ℕ)) → Tell R.left readers.old parts
        → AreTotalsOf parts (totals_in counts)) }
{
    if readers.is_empty() {
        return Err(ToolFault::NoParts);
    }
    stored_objects_are_those_of_the_parts::<R, S, P>();
    what_was_watched_is_a_pass::<R, S, P, CountedKinds>();
    let watch = counts_to_watch(alloc, true, readers.len());
    let read = match read_watched(
        alloc,
        readers,
        limits,
        keeping,
        scratch,
        &NoSummaries,
        &mut (),
        watch,
    ) {
        Ok(read) => read,
        Err(fault) => return Err(ToolFault::from(fault)),
    };
    let (StoredHeap { heap, objects }, watched) = read;
    let objects = objects.finish();
    let known = counts_known(&objects, watched);
    let objects = InParts::new(&objects, parts, limits);
    match LabelCounts::over(alloc, &heap, &objects, known) {
        Ok(counts) => Ok(counts),
        Err(PassFault::Sink(_)) => Err(ToolFault::OutOfMemory),
        Err(PassFault::Lost(fault)) => Err(ToolFault::from(fault)),
    }
}

/// Reads the parts of two heaps, and writes the report `diff`: a line for each label whose objects differ in number or in bytes.
///
/// The parts of the older heap are read first. If they are refused, nothing is read of the newer heap, and nothing is written. Nothing is
/// written before all parts are read. If the writer fails or memory runs out after that, a prefix of the report was written.
pub fn diff_to<R: Source, W: Target>(
    alloc: Global,
    olds: &mut [R],
    news: &mut [R],
    target: &mut W,
    limits: Limits,
) -> Result<(), DiffFault>
    requires olds { All (λ reader. R.health reader ≡ Well) olds.old }
    requires news { All (λ reader. R.health reader ≡ Well) news.old }
    requires writer { W.health target.old ≡ Well }
    ensures ends { EndsDifference R.left R.health R.pulls W.written W.health limits olds.old olds.new news.old news.new
        target.old target.new result }
    ensures ok { IfOk result (λ done. (old_parts new_parts : List (List ℕ))
        → Tell R.left olds.old old_parts → Tell R.left news.old new_parts
        → WritesAll (IsDifferenceOf old_parts) new_parts (W.written target.old) (W.written target.new)) }
{
    let old = match count_parts(alloc, olds, limits) {
        Ok(old) => old,
        Err(fault) => return Err(DiffFault::Old(fault)),
    };
    match write_to(alloc, &GrowthReport { old: &old }, news, target, limits) {
        Ok(()) => Ok(()),
        Err(fault) => Err(DiffFault::New(fault)),
    }
}
