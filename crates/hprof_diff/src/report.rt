//! The report `diff` on two heaps whose objects are counted by label.

ghost use Rattle.std.specs.Prelude.{◌≡◌, ◌++◌, ℕ, List, map, IsSome, OnOk, string_bytes};
ghost use Rattle.hprof_devices.specs.declared.health.Health.TheVariants.{Well};
ghost use Rattle.hprof_heap.specs.HeapFacts.{facts_of, size_of};
ghost use Rattle.hprof_histogram.specs.Known.{MadeUpWith};
ghost use Rattle.hprof_diff.specs.Changes.{change_value, step_value};
ghost use Rattle.hprof_diff.specs.Kept.{totals_in};
ghost use Rattle.hprof_lines.specs.Passed.{EndsPassed};
ghost use Rattle.hprof_lines.specs.Stopping.{LeavesTarget, WritesText};
ghost use Rattle.hprof_diff.specs.DifferenceText.{IsDifferenceText, IsGrowthText, change_line, changes_text, step_text};

use crate::change::{Change, Delta};
use crate::differences::difference;
use crate::label_counts::LabelCounts;
use hprof_devices::Target;
use hprof_engine::ProductFault;
use hprof_heap::{Heap, holds_of_heap};
use hprof_histogram::CountedKinds;
use hprof_lines::{stop_of_pass, write_str};
use hprof_passes::{InHeap, Objects, PassFault};
use itoa::Buffer;
use std::alloc::{AllocError, Global};

/// Appends the newer number less the older one, with its sign.
fn push_step(line: &mut String, step: Delta) -> Result<(), AllocError>
    ensures { OnOk result (string_bytes line.new ≡ string_bytes line.old ++ step_text (step_value step)) }
{
    let mut digits = Buffer::new();
    if step.old < step.new {
        line.push('+')?;
        line.push_str(digits.format(step.new - step.old))
    } else if step.new < step.old {
        line.push('-')?;
        line.push_str(digits.format(step.old - step.new))
    } else {
        line.push('0')
    }
}

/// Sets `line` to the line of a change.
fn set_line(line: &mut String, change: Change<'_>) -> Result<(), AllocError>
    ensures { OnOk result (string_bytes line.new ≡ change_line (change_value change.entry)) }
{
    line.clear();
    push_step(line, change.bytes)?;
    line.push(' ')?;
    push_step(line, change.count)?;
    line.push(' ')?;
    line.push_str(change.label)?;
    line.push('\n')
}

/// Writes a line for each change. If this fails, a prefix of the lines was written.
fn write_all<W: Target>(
    alloc: Global,
    changes: &[Change<'_>],
    target: &mut W,
) -> Result<(), ProductFault>
    requires { W.health target.old ≡ Well }
    ensures bytes { WritesText (W.written target.old) (W.written target.new) result (changes_text (map change_value changes.now)) }
    ensures health { LeavesTarget result (W.health target.new) }
{
    let mut line = String::new(alloc);
    for change in changes {
        set_line(&mut line, *change)?;
        write_str(&line, target)?;
    }
    Ok(())
}

/// Writes the report `diff`: a line for each label whose objects differ in number or in bytes, with the numbers of bytes and objects that
/// the newer heap has more. The label that grew by the most bytes comes first. If the writer fails or memory runs out, a prefix of the
/// report was written.
pub fn write_difference<W: Target>(
    alloc: Global,
    old: &LabelCounts,
    new: &LabelCounts,
    target: &mut W,
) -> Result<(), ProductFault>
    requires { W.health target.old ≡ Well }
    ensures bytes { (text : List ℕ) × IsDifferenceText (totals_in old.now) (totals_in new.now) text
        × WritesText (W.written target.old) (W.written target.new) result text }
    ensures health { LeavesTarget result (W.health target.new) }
{
    let changes = difference(alloc, old, new)?;
    write_all(alloc, &changes, target)
}

/// Writes the report `diff` on a heap, compared with an older one whose objects are counted. The heap has all facts but the objects. They
/// are not gone through if their counts by kind are known.
///
/// # Errors
///
/// - `Sink`: the writer failed or memory ran out. The bytes written are the beginning of the report.
/// - `Lost`: the objects cannot be gone through. Nothing was written.
pub fn write_growth_over<O: Objects, W: Target>(
    alloc: Global,
    old: &LabelCounts,
    heap: &Heap,
    objects: &O,
    known: Option<CountedKinds>,
    target: &mut W,
) -> Result<(), PassFault<ProductFault, O::Fault>>
    requires well { W.health target.old ≡ Well }
    requires agree { IsSome known → O.agree objects.now (size_of heap.now) (facts_of heap.now) }
    ensures { EndsPassed (MadeUpWith (O.make_up objects.now (size_of heap.now) (facts_of heap.now)) (size_of heap.now) known)
        (O.agree objects.now (size_of heap.now) (facts_of heap.now)) (O.tells objects.now (size_of heap.now) (facts_of heap.now))
        (IsGrowthText (totals_in old.now) (size_of heap.now)) W.written W.health target.old target.new result }
{
    let new = match LabelCounts::over(alloc, heap, objects, known) {
        Ok(new) => new,
        Err(stop) => return Err(stop_of_pass(stop)),
    };
    match write_difference(alloc, old, &new, target) {
        Ok(()) => Ok(()),
        Err(stop) => Err(PassFault::Sink(stop)),
    }
}

/// Writes the report `diff` on a heap with its objects in memory, as [`write_growth_over`] does. If the writer fails or memory runs out, a
/// prefix of the report was written.
pub(crate) fn write_growth<W: Target>(
    alloc: Global,
    old: &LabelCounts,
    heap: &Heap,
    target: &mut W,
) -> Result<(), ProductFault>
    requires { W.health target.old ≡ Well }
    ensures bytes { (text : List ℕ) × IsGrowthText (totals_in old.now) (size_of heap.now) (facts_of heap.now) text
        × WritesText (W.written target.old) (W.written target.new) result text }
    ensures health { LeavesTarget result (W.health target.new) }
{
    holds_of_heap(heap);
    match write_growth_over(alloc, old, heap, &InHeap, None, target) {
        Ok(()) => Ok(()),
        Err(stop) => Err(stop.of_sink()),
    }
}
