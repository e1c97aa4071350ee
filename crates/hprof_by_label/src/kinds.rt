//! What the label of a node comes from.

ghost use Rattle.std.specs.Prelude.{◌≡◌, ◌++◌, ◌⊎◌, ℕ, List, IfOk, IfSome, OnOk, codes, string_bytes};
ghost use Rattle.hprof_items.specs.FactValue.{FactValue};
ghost use Rattle.hprof_heap.specs.HeapFacts.{facts_of};
ghost use Rattle.hprof_heap.specs.ObjectDump.{fact_of_object};
ghost use Rattle.hprof_naming.specs.ClassNames.{AreClassNames};
ghost use Rattle.hprof_naming.specs.TypeWord.{type_word};
ghost use Rattle.hprof_by_label.specs.declared.kinds.Kind.{Kind};
ghost use Rattle.hprof_by_label.specs.Kinds.{IsKindLabel};
ghost use Rattle.hprof_by_label.specs.NodeLabel.{IsObjectLabel};

use hprof_heap::{Heap, ObjectDump};
use hprof_meaning::{array_label, bare_label};
use hprof_naming::ClassNames;
use hprof_values::Basic;
use std::alloc::{AllocError, Global};

/// What the label of a node comes from.
#[derive(Clone, Copy, Debug, PartialEq, Eq)]
pub(crate) enum Kind {
    /// The class of an object.
    Class(u64),
    /// The type of an array's elements.
    Prim(Basic),
    /// A class dump without an object dump.
    ClassDump,
}

/// Returns the kind of a node that has an object.
#[inline(always)]
pub(crate) fn kind_of(object: &ObjectDump<'_>) -> Kind
    ensures { (facts : List FactValue) (text : List ℕ) → IsKindLabel facts result text
        → IsObjectLabel facts (fact_of_object object.now) text }
{
    match *object {
        ObjectDump::Instance { class, .. } => Kind::Class(class),
        ObjectDump::ObjArray { class, .. } => Kind::Class(class),
        ObjectDump::PrimArray { elem, .. } => Kind::Prim(elem),
    }
}

/// Returns the label of nodes of a kind. If memory runs out, the answer is `AllocError`.
pub(crate) fn kind_label(
    alloc: Global,
    heap: &Heap,
    names: &ClassNames,
    kind: Kind,
) -> Result<String, AllocError>
    ensures { AreClassNames (facts_of heap.now) names.now → IfOk result (λ text. IsKindLabel (facts_of heap.now) kind (string_bytes text)) }
{
    match kind {
        Kind::Class(class) => bare_label(alloc, heap, names.name_of(class)),
        Kind::Prim(elem) => array_label(alloc, elem),
        Kind::ClassDump => String::from_str(alloc, "java/lang/Class"),
    }
}
