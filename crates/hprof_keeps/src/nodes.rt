//! The nodes of the tree of dominators, each in a line.

ghost use Rattle.std.specs.Prelude.{◌≡◌, ◌++◌};
ghost use Rattle.std.specs.List.{flat_map};
ghost use Rattle.hprof_devices.specs.declared.health.Health.TheVariants.{Well};
ghost use Rattle.hprof_heap.specs.HeapFacts.{facts_of, size_of};
ghost use Rattle.hprof_naming.specs.ClassNames.{AreClassNames};
ghost use Rattle.hprof_lines.specs.Stopping.{LeavesTarget, WritesText};
ghost use Rattle.hprof_describe.specs.Findings.{AreFindings, Findings};
ghost use Rattle.hprof_keeps.specs.Kept.{ArePlaces, nodes_at};
ghost use Rattle.hprof_keeps.specs.KeepsText.{retained_line};
ghost use Rattle.hprof_keeps.specs.Order.{retained_in};

use crate::lines::place_line;
use hprof_devices::Target;
use hprof_engine::ProductFault;
use hprof_heap::Heap;
use hprof_lines::write_line;
use hprof_naming::ClassNames;
use hprof_retained::Retained;
use std::alloc::Global;

/// Writes the lines of the nodes at these places, each behind `front`. If it stops, some of them were written, from the front.
pub(crate) fn write_nodes<W: Target>(
    alloc: Global,
    heap: &Heap,
    classes: &ClassNames,
    retained: &Retained,
    front: &str,
    places: &[usize],
    target: &mut W,
) -> Result<(), ProductFault>
    requires classes { AreClassNames (facts_of heap.now) classes.now }
    requires places { ArePlaces retained.now places.now }
    requires well { W.health target.old ≡ Well }
    ensures bytes { (found : Findings) → AreFindings (size_of heap.now) (facts_of heap.now) found
        → WritesText (W.written target.old) (W.written target.new) result
        (flat_map (λ node. front.now ++ retained_line found (retained_in retained.now) node) (nodes_at retained.now places.now)) }
    ensures health { LeavesTarget result (W.health target.new) }
{
    for place in places {
        write_line(
            place_line(alloc, heap, classes, retained, front, *place),
            target,
        )?;
    }
    Ok(())
}
