//! The own fields of a class that are referents.

ghost use Rattle.std.specs.Prelude.{IfOk};
ghost use Rattle.hprof_heap.specs.ClassDump.{class_value};
ghost use Rattle.hprof_heap.specs.HeapFacts.{facts_of};
ghost use Rattle.hprof_layouts.specs.Layout.{own_slots};
ghost use Rattle.hprof_naming.specs.ClassNames.{AreClassNames};
ghost use Rattle.hprof_weak.specs.Links.{AreFlags};

use crate::called::{is_reference, names_referent};
use hprof_heap::{ClassDump, Heap};
use hprof_naming::ClassNames;
use std::alloc::{AllocError, Global};

/// Returns for each own field of a class whether it is a referent. `names` are those of the heap.
pub(crate) fn referent_flags(
    alloc: Global,
    heap: &Heap,
    names: &ClassNames,
    dump: &ClassDump<'_>,
) -> Result<Vec<bool>, AllocError>
    requires { AreClassNames (facts_of heap.now) names.now }
    ensures { IfOk result (λ flags. AreFlags (facts_of heap.now) flags.items (own_slots (class_value dump.now))) }
{
    let is_reference = is_reference(heap, names, dump.id);
    let mut flags = Vec::new(alloc);
    for field in dump.fields.iter() {
        flags.push(is_reference && names_referent(heap, field.name))?;
    }
    Ok(flags)
}
