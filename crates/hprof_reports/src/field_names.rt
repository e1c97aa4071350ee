//! The names of fields, by their places in the layouts of classes.

ghost use Rattle.std.specs.Prelude.{◌≡◌, ℕ, List, Some, IfOk, IfSome, OnOk, slice_get};
ghost use Rattle.std.specs.List.{AllByRecursion};
ghost use Rattle.hprof_items.specs.FactValue.{FactValue};
ghost use Rattle.hprof_heap.specs.HeapFacts.{facts_of};
ghost use Rattle.hprof_layouts.specs.declared.slot.Slot.{Slot};
ghost use Rattle.hprof_layouts.specs.Layout.{IsKnown};
ghost use Rattle.hprof_reports.specs.Skipped.{AreSkips, HasSameLayout};

use hprof_heap::{Heap, Table, find_class, holds_of_heap, table_len};
use std::alloc::{AllocError, Global};
use std::collections::BTreeMap;

/// Finds the names of fields. A class without own fields has the layout of its superclass; it is passed over once, and remembered.
#[derive(Drop)]
pub struct FieldNames {
    alloc: Global,
    /// A class above each class that was passed over, with the same layout.
    above: BTreeMap<u64, u64>,
}

impl FieldNames {
    /// Returns a finder that remembers no class. Allocates nothing.
    pub fn new(alloc: Global) -> FieldNames
        ensures { (facts : List FactValue) → AreSkips facts result }
    {
        FieldNames {
            alloc,
            above: BTreeMap::new(alloc),
        }
    }

    /// Returns a class above that has the same layout, or `None` if the class has own fields or no dump.
    fn next_class(&self, heap: &Heap, class: u64) -> Option<u64>
        ensures { IfSome result (λ next. AreSkips (facts_of heap.now) self.now → HasSameLayout (facts_of heap.now) class next) }
    {
        if let Some(next) = self.above.get(&class) {
            return Some(*next);
        }
        match find_class(heap, class) {
            Some(dump) if class != 0 && dump.fields.is_empty() => Some(dump.parent),
            _ => None,
        }
    }

    /// Remembers that classes have the layout of a class above them.
    fn remember(&mut self, heap: &Heap, passed: &[u64], above: u64) -> Result<(), AllocError>
        ensures { OnOk result (AllByRecursion (λ class. HasSameLayout (facts_of heap.now) class above) passed.now
            → AreSkips (facts_of heap.now) self.old → AreSkips (facts_of heap.now) self.new) }
    {
        let mut rest = passed;
        while let Some((class, after)) = rest.split_first() {
            self.above.insert(*class, above)?;
            rest = after;
        }
        Ok(())
    }

    /// Returns the first class, from a class up, that has own fields or no dump. It has the same layout.
    fn skip(&mut self, heap: &Heap, class: u64) -> Result<u64, AllocError>
        ensures same { IfOk result (λ next. AreSkips (facts_of heap.now) self.old → HasSameLayout (facts_of heap.now) class next) }
        ensures skips { OnOk result (AreSkips (facts_of heap.now) self.old → AreSkips (facts_of heap.now) self.new) }
    {
        let mut passed = Vec::new(self.alloc);
        let mut at = class;
        for _passed in 0..table_len(heap, Table::Classes) {
            match self.next_class(heap, at) {
                Some(next) => {
                    passed.push(at)?;
                    at = next;
                }
                None => break,
            }
        }
        self.remember(heap, &passed, at)?;
        Ok(at)
    }

    /// Returns the name of the field at that place of the layout of a class, if its layout is known and has the place.
    pub(crate) fn name_at(
        &mut self,
        heap: &Heap,
        class: u64,
        place: u64,
    ) -> Result<Option<u64>, AllocError>
        ensures name { IfOk result (λ name. AreSkips (facts_of heap.now) self.old → (slots : List Slot) (slot : Slot)
            → IsKnown (facts_of heap.now) class slots → slice_get slots place ≡ Some slot → name ≡ Some slot.name) }
        ensures skips { OnOk result (AreSkips (facts_of heap.now) self.old → AreSkips (facts_of heap.now) self.new) }
    {
        holds_of_heap(heap);
        let mut at = class;
        let mut before = place as usize;
        for _passed in 0..table_len(heap, Table::Classes) {
            at = self.skip(heap, at)?;
            let Some(dump) = find_class(heap, at) else {
                return Ok(None);
            };
            if let Some(field) = dump.fields.get(before) {
                return Ok(Some(field.name));
            }
            before = before.saturating_sub(dump.fields.len());
            at = dump.parent;
        }
        Ok(None)
    }
}
