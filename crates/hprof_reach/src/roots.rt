//! The GC roots of an object.

ghost use Rattle.std.specs.Prelude.{◌≡◌, ◌++◌, IfOk, OnOk};
ghost use Rattle.hprof_items.specs.FactValue.{value_of};
ghost use Rattle.hprof_heap.specs.HeapFacts.{facts_of};
ghost use Rattle.hprof_reach.specs.Roots.{AreRootsOf, root_in, roots_here};

use crate::starts::root_id;
use hprof_heap::{Heap, Table, table_facts};
use hprof_items::Fact;
use hprof_values::Root;
use std::alloc::{AllocError, Global};

/// Appends the root that a fact states, if it keeps the object alive.
fn push_root(roots: &mut Vec<Root>, fact: &Fact<'_>, id: u64) -> Result<(), AllocError>
    ensures { OnOk result (roots.new.items ≡ roots.old.items ++ roots_here id (root_in (value_of fact.now))) }
{
    if let Fact::Root(root) = *fact {
        if root_id(root) == id {
            roots.push(root)?;
        }
    }
    Ok(())
}

/// Returns the GC roots that keep an object alive, in canonical order. If memory runs out, the answer is `AllocError`.
pub fn roots_of(alloc: Global, heap: &Heap, id: u64) -> Result<Vec<Root>, AllocError>
    ensures { IfOk result (λ roots. AreRootsOf (facts_of heap.now) id roots.items) }
{
    let mut roots = Vec::new(alloc);
    for fact in table_facts(heap, Table::Roots) {
        push_root(&mut roots, &fact, id)?;
    }
    Ok(roots)
}
