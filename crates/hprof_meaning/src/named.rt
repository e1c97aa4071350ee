//! The answer where several classes have the name that was asked for.

ghost use Rattle.std.specs.Prelude.{◌≡◌, ℕ, List, IfOk, string_bytes};
ghost use Rattle.hprof_devices.specs.declared.health.Health.TheVariants.{Well};
ghost use Rattle.hprof_heap.specs.HeapFacts.{facts_of, size_of};
ghost use Rattle.hprof_naming.specs.ClassNames.{AreClassNames};
ghost use Rattle.hprof_lines.specs.Stopping.{LeavesTarget, WritesText};
ghost use Rattle.hprof_describe.specs.Findings.{AreFindings, Findings};
ghost use Rattle.hprof_meaning.specs.NamedText.{IsNamedText, class_line, class_lines, number_line};

use hprof_describe::node_text;
use hprof_devices::Target;
use hprof_engine::ProductFault;
use hprof_heap::{Heap, holds_of_heap};
use hprof_lines::write_line;
use hprof_naming::ClassNames;
use std::alloc::{AllocError, Global};

/// Returns the line that tells how many classes have the name.
fn number_line(alloc: Global, number: usize) -> Result<String, AllocError>
    ensures { IfOk result (λ line. string_bytes line ≡ number_line number) }
{
    format!(in alloc; "{number} classes have this name\n")
}

/// Returns the line of a class.
fn class_line(
    alloc: Global,
    heap: &Heap,
    names: &ClassNames,
    class: u64,
) -> Result<String, AllocError>
    requires { AreClassNames (facts_of heap.now) names.now }
    ensures { (found : Findings) → AreFindings (size_of heap.now) (facts_of heap.now) found
        → IfOk result (λ line. string_bytes line ≡ class_line found class) }
{
    let text = node_text(alloc, heap, names, class)?;
    format!(in alloc; "{text}\n")
}

/// Writes a line for each class. If it stops, some of them were written, from the front.
fn write_classes<W: Target>(
    alloc: Global,
    heap: &Heap,
    names: &ClassNames,
    classes: &[u64],
    target: &mut W,
) -> Result<(), ProductFault>
    requires named { AreClassNames (facts_of heap.now) names.now }
    requires well { W.health target.old ≡ Well }
    ensures bytes { (found : Findings) → AreFindings (size_of heap.now) (facts_of heap.now) found
        → WritesText (W.written target.old) (W.written target.new) result (class_lines found classes.now) }
    ensures health { LeavesTarget result (W.health target.new) }
{
    let mut rest = classes;
    while let Some((class, after)) = rest.split_first() {
        write_line(class_line(alloc, heap, names, *class), target)?;
        rest = after;
    }
    Ok(())
}

/// Writes the answer where several classes have the name that was asked for: their number, and then each in a line as
/// [`hprof_describe::node_text`] prints it, in the order of `classes`.
///
/// `names` are the names of the heap's classes. If the writer fails or memory runs out, the bytes written are the beginning of the answer.
pub fn write_classes_of_name<W: Target>(
    alloc: Global,
    heap: &Heap,
    names: &ClassNames,
    classes: &[u64],
    target: &mut W,
) -> Result<(), ProductFault>
    requires named { AreClassNames (facts_of heap.now) names.now }
    requires well { W.health target.old ≡ Well }
    ensures bytes { (text : List ℕ) × IsNamedText (size_of heap.now) (facts_of heap.now) classes.now text
        × WritesText (W.written target.old) (W.written target.new) result text }
    ensures health { LeavesTarget result (W.health target.new) }
{
    holds_of_heap(heap);
    write_line(number_line(alloc, classes.len()), target)?;
    write_classes(alloc, heap, names, classes, target)
}
