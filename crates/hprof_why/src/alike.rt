//! Nodes and steps of one kind. Texts are made only if the identifiers do not tell.

ghost use Rattle.std.specs.Prelude.{◌≡◌, IfOk, IsTrue, bytes_eq};
ghost use Rattle.hprof_edges.specs.declared.edge.Edge.{Edge};
ghost use Rattle.hprof_heap.specs.HeapFacts.{facts_of, size_of};
ghost use Rattle.hprof_heap.specs.ObjectDump.{fact_of_object};
ghost use Rattle.hprof_naming.specs.Naming.{IsNaming, Naming};
ghost use Rattle.hprof_describe.specs.Findings.{AreFindings, Findings};
ghost use Rattle.hprof_describe.specs.Nodes.{kind_of_object, kind_text};
ghost use Rattle.hprof_holders.specs.Steps.{EdgeFindings, step_kind};
ghost use Rattle.hprof_holders.specs.Views.{IsView};
ghost use Rattle.hprof_why.specs.Kinds.{words_of};
ghost use Rattle.hprof_why.specs.Walks.{step_by};

use hprof_describe::kind_text;
use hprof_heap::{Heap, ObjectDump, find_class, find_object, holds_of_heap};
use hprof_holders::{HeapView, Step, step_kind};
use hprof_values::Basic;
use std::alloc::{AllocError, Global};

/// What is known of a node's kind without its text. Two nodes with equal ones have one kind; others may have too.
#[derive(Clone, Copy, PartialEq, Eq)]
pub(crate) enum NodeKind {
    /// A class, with its identifier.
    Class(u64),
    /// An instance or an object array, with the identifier of its class.
    OfClass(u64),
    /// An array of numbers, with the type of its elements.
    Numbers(Basic),
    /// An identifier without a dump.
    Missing,
}

/// Returns what is known of the kind of an object.
fn kind_of_object(dump: ObjectDump<'_>) -> NodeKind
    ensures { (naming : Naming) → words_of naming result ≡ kind_of_object naming (fact_of_object dump.entry) }
{
    match dump {
        ObjectDump::Instance { class, .. } => NodeKind::OfClass(class),
        ObjectDump::ObjArray { class, .. } => NodeKind::OfClass(class),
        ObjectDump::PrimArray { elem, .. } => NodeKind::Numbers(elem),
    }
}

/// Returns what is known of a node's kind.
fn kind_of(heap: &Heap, node: u64) -> NodeKind
    ensures { (found : Findings) → AreFindings (size_of heap.now) (facts_of heap.now) found
        → words_of found.naming result ≡ kind_text found node }
{
    holds_of_heap(heap);
    match (find_class(heap, node), find_object(heap, node)) {
        (Some(_), _) => NodeKind::Class(node),
        (None, Some(dump)) => kind_of_object(dump),
        (None, None) => NodeKind::Missing,
    }
}

/// Returns whether the identifiers tell that two nodes have one kind.
fn is_one_kind(heap: &Heap, one: u64, other: u64) -> bool
    ensures { IsTrue result → (found : Findings) → AreFindings (size_of heap.now) (facts_of heap.now) found
        → kind_text found one ≡ kind_text found other }
{
    kind_of(heap, one) == kind_of(heap, other)
}

/// Returns whether two nodes have the same kind, in print. If memory runs out, the answer is `AllocError`.
pub(crate) fn same_kind(
    alloc: Global,
    view: HeapView<'_>,
    one: u64,
    other: u64,
) -> Result<bool, AllocError>
    requires { IsView view }
    ensures { (found : Findings) → AreFindings (size_of view.entry.heap.now) (facts_of view.entry.heap.now) found
        → IfOk result (λ same. same ≡ bytes_eq (kind_text found one) (kind_text found other)) }
{
    if is_one_kind(view.heap, one, other) {
        return Ok(true);
    }
    let one = kind_text(alloc, view.heap, view.classes, one)?;
    let other = kind_text(alloc, view.heap, view.classes, other)?;
    Ok(one == other)
}

/// Returns whether the identifiers tell that two steps have one kind.
fn is_one_step(one: Step, other: Step) -> bool
    ensures { IsTrue result → (one.edge.via ≡ other.edge.via) × (one.name ≡ other.name) × (one.is_weak ≡ other.is_weak) }
{
    one.edge.via == other.edge.via && one.name == other.name && one.is_weak == other.is_weak
}

/// Returns whether two steps have the same word, the same name in print, and are both weak or both strong. If memory runs out, the answer
/// is `AllocError`.
pub(crate) fn same_step(
    alloc: Global,
    heap: &Heap,
    one: Step,
    other: Step,
) -> Result<bool, AllocError>
    ensures { (naming : Naming) (edges : EdgeFindings) (first next : Edge) → IsNaming (facts_of heap.now) naming
        → one ≡ step_by edges first → other ≡ step_by edges next
        → IfOk result (λ same. same ≡ bytes_eq (step_kind naming edges first) (step_kind naming edges next)) }
{
    if is_one_step(one, other) {
        return Ok(true);
    }
    let one = step_kind(alloc, heap, one)?;
    let other = step_kind(alloc, heap, other)?;
    Ok(one == other)
}
