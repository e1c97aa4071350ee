//! The names of all classes of a heap, collected in one pass.

ghost use Rattle.std.specs.Prelude.{◌≡◌, ◌↔◌, IfOk, IsTrue, List, OnOk, string_bytes};
ghost use Rattle.std.specs.Ordering.{nat_cmp};
ghost use Rattle.std.specs.BTreeMap.{get};
ghost use Rattle.hprof_items.specs.FactValue.{FactValue, value_of};
ghost use Rattle.hprof_heap.specs.ClassName.{NamesClass};
ghost use Rattle.hprof_heap.specs.HeapFacts.{facts_of};
ghost use Rattle.hprof_naming.specs.ClassNames.{AreClassNames, IsBelow, NotesFact};
ghost use Rattle.hprof_naming.specs.Naming.{IsNaming, Naming};

use crate::naming::label_of;
use hprof_heap::{Heap, Table, holds_of_heap, table_facts};
use hprof_items::Fact;
use std::alloc::{AllocError, Global};
use std::collections::BTreeMap;

/// The name of a class, from one load.
#[derive(Clone, Copy, Debug, PartialEq, Eq)]
struct Named {
    /// The serial number of the load.
    serial: u32,
    /// The identifier of its name.
    name: u64,
}

/// The names of all loaded classes.
#[derive(Drop)]
pub struct ClassNames {
    names: BTreeMap<u64, Named>,
}

impl ClassNames {
    /// Returns the names of a heap's classes, in one pass over its loads. If memory runs out, the answer is `AllocError`.
    pub fn of(alloc: Global, heap: &Heap) -> Result<ClassNames, AllocError>
        ensures { IfOk result (AreClassNames (facts_of heap.now)) }
    {
        let mut names = ClassNames {
            names: BTreeMap::new(alloc),
        };
        for fact in table_facts(heap, Table::Loads) {
            names.note(&fact)?;
        }
        Ok(names)
    }

    /// Returns whether the loads of the class so far have greater serial numbers, or there are none.
    fn comes_first(&self, class: u64, serial: u32) -> bool
        ensures { IsTrue result ↔ IsBelow serial (get nat_cmp self.now.names class) }
    {
        match self.names.get(&class) {
            Some(named) => serial < named.serial,
            None => true,
        }
    }

    /// Stores the name from a load, if its serial number is the least so far.
    fn note(&mut self, fact: &Fact<'_>) -> Result<(), AllocError>
        ensures { OnOk result (NotesFact (value_of fact.now) self.old self.new) }
    {
        match *fact {
            Fact::Load {
                serial,
                class,
                name,
                ..
            } => {
                if self.comes_first(class, serial) {
                    self.names.insert(class, Named { serial, name })?;
                }
                Ok(())
            }
            _ => Ok(()),
        }
    }

    /// Returns the identifier of a class's name, from the load with the least serial number, or `None` if no load has the class.
    pub fn name_of(&self, class: u64) -> Option<u64>
        ensures { (facts : List FactValue) → AreClassNames facts self.now → NamesClass facts class result }
    {
        let named = self.names.get(&class)?;
        Some(named.name)
    }

    /// Returns the label of a class, as [`class_label`](crate::class_label) does, but finds its name by a lookup. If memory runs out, the
    /// answer is `AllocError`.
    pub fn label(&self, alloc: Global, heap: &Heap, class: u64) -> Result<String, AllocError>
        requires { AreClassNames (facts_of heap.now) self.now }
        ensures { (naming : Naming) → IsNaming (facts_of heap.now) naming
            → IfOk result (λ text. string_bytes text ≡ naming.label class) }
    {
        holds_of_heap(heap);
        label_of(alloc, heap, self.name_of(class))
    }
}
