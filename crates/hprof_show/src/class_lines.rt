//! The lines of a class.

ghost use Rattle.std.specs.Prelude.{◌≡◌, ◌++◌, IfOk, codes, string_bytes};
ghost use Rattle.hprof_devices.specs.declared.health.Health.TheVariants.{Well};
ghost use Rattle.hprof_heap.specs.ClassDump.{class_value};
ghost use Rattle.hprof_heap.specs.HeapFacts.{facts_of, size_of};
ghost use Rattle.hprof_naming.specs.ClassNames.{AreClassNames};
ghost use Rattle.hprof_lines.specs.Stopping.{LeavesTarget, WritesText};
ghost use Rattle.hprof_describe.specs.Findings.{AreFindings, Findings};
ghost use Rattle.hprof_describe.specs.Nodes.{node_text};
ghost use Rattle.hprof_show.specs.ClassLines.{class_text, named_line, referred_text};

use crate::entries::write_entries;
use hprof_describe::{node_text, reference_text};
use hprof_devices::Target;
use hprof_engine::ProductFault;
use hprof_heap::{ClassDump, Heap};
use hprof_lines::write_line;
use hprof_naming::ClassNames;
use std::alloc::{AllocError, Global};

/// Returns the line of a class.
fn head_line(
    alloc: Global,
    heap: &Heap,
    classes: &ClassNames,
    class: u64,
) -> Result<String, AllocError>
    requires { AreClassNames (facts_of heap.now) classes.now }
    ensures { (found : Findings) → AreFindings (size_of heap.now) (facts_of heap.now) found
        → IfOk result (λ line. string_bytes line ≡ node_text found class ++ codes "\n") }
{
    let node = node_text(alloc, heap, classes, class)?;
    format!(in alloc; "{node}\n")
}

/// Returns the line of what a class refers to by a word, or an empty text for 0.
fn named_line(
    alloc: Global,
    heap: &Heap,
    classes: &ClassNames,
    word: &str,
    id: u64,
) -> Result<String, AllocError>
    requires { AreClassNames (facts_of heap.now) classes.now }
    ensures { (found : Findings) → AreFindings (size_of heap.now) (facts_of heap.now) found
        → IfOk result (λ line. string_bytes line ≡ named_line found word.now id) }
{
    if id == 0 {
        return Ok(String::new(alloc));
    }
    let value = reference_text(alloc, heap, classes, id)?;
    format!(in alloc; "  {word} = {value}\n")
}

/// Writes what a class refers to, but for its constants and static fields. If it stops, some of it was written, from the front.
fn write_referred<W: Target>(
    alloc: Global,
    heap: &Heap,
    classes: &ClassNames,
    dump: &ClassDump<'_>,
    target: &mut W,
) -> Result<(), ProductFault>
    requires classes { AreClassNames (facts_of heap.now) classes.now }
    requires well { W.health target.old ≡ Well }
    ensures bytes { (found : Findings) → AreFindings (size_of heap.now) (facts_of heap.now) found
        → WritesText (W.written target.old) (W.written target.new) result (referred_text found (class_value dump.now)) }
    ensures health { LeavesTarget result (W.health target.new) }
{
    write_line(
        named_line(alloc, heap, classes, "super", dump.parent),
        target,
    )?;
    write_line(
        named_line(alloc, heap, classes, "loader", dump.loader),
        target,
    )?;
    write_line(
        named_line(alloc, heap, classes, "signers", dump.signers),
        target,
    )?;
    write_line(
        named_line(alloc, heap, classes, "domain", dump.domain),
        target,
    )
}

/// Writes a class and a line for each of its parts. If it stops, some of it was written, from the front.
pub(crate) fn write_class<W: Target>(
    alloc: Global,
    heap: &Heap,
    classes: &ClassNames,
    dump: &ClassDump<'_>,
    target: &mut W,
) -> Result<(), ProductFault>
    requires classes { AreClassNames (facts_of heap.now) classes.now }
    requires well { W.health target.old ≡ Well }
    ensures bytes { (found : Findings) → AreFindings (size_of heap.now) (facts_of heap.now) found
        → WritesText (W.written target.old) (W.written target.new) result (class_text found (class_value dump.now)) }
    ensures health { LeavesTarget result (W.health target.new) }
{
    write_line(head_line(alloc, heap, classes, dump.id), target)?;
    write_referred(alloc, heap, classes, dump, target)?;
    write_entries(alloc, heap, classes, &dump.constants, target)?;
    write_entries(alloc, heap, classes, &dump.statics, target)?;
    write_entries(alloc, heap, classes, &dump.fields, target)
}
