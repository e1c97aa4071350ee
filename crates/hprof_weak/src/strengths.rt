//! What is known of each class whose layout is known: whether its referents are cleared, and where they stand.

ghost use Rattle.std.specs.Prelude.{◌≡◌, ◌≢◌, ◌+◌, ◌<◌, [], ◌∷◌, OnOk, IfOk, length};
ghost use Rattle.hprof_heap.specs.Classes.{HasDump};
ghost use Rattle.hprof_heap.specs.ClassDump.{class_value};
ghost use Rattle.hprof_heap.specs.HeapFacts.{facts_of};
ghost use Rattle.hprof_layouts.specs.WaitingLists.{number_in, waiting_for};
ghost use Rattle.hprof_naming.specs.ClassNames.{AreClassNames};
ghost use Rattle.hprof_weak.specs.Strengths.{AddsClass, AreStrengths, IsStanding, IsStrength, class_zero, strengths_in};
ghost use Rattle.hprof_weak.specs.Links.{nexts_in};

use crate::called::is_clearing;
use crate::flags::referent_flags;
use crate::links::{Link, Links};
use crate::subclasses::subclasses_of;
use hprof_heap::{ClassDump, Heap, find_class, holds_of_heap};
use hprof_layouts::WaitingLists;
use hprof_naming::ClassNames;
use std::alloc::{AllocError, Global};

/// A class whose layout is known.
#[derive(Clone, Copy)]
pub(crate) struct Strength {
    /// The class.
    pub(crate) class: u64,
    /// Whether its referents are cleared.
    pub(crate) is_cleared: bool,
    /// The first referent of its layout.
    pub(crate) first: Option<Link>,
}

/// The classes whose layouts are known, each behind its superclass. Class 0, which has no fields, is among them.
#[derive(Drop)]
pub(crate) struct Strengths {
    alloc: Global,
    pub(crate) links: Links,
    pub(crate) order: Vec<Strength>,
}

impl Strengths {
    /// Returns class 0 alone.
    fn new(alloc: Global) -> Result<Strengths, AllocError>
        ensures { IfOk result (λ strengths. strengths_in strengths ≡ class_zero ∷ []) }
    {
        let mut order = Vec::new(alloc);
        order.push(Strength {
            class: 0,
            is_cleared: false,
            first: None,
        })?;
        let links = Links {
            nexts: Vec::new(alloc),
        };
        Ok(Strengths {
            alloc,
            links,
            order,
        })
    }

    /// Appends a class, whose superclass is `above`. If memory runs out, the answer is `AllocError` and the classes are unspecified.
    fn add(
        &mut self,
        heap: &Heap,
        names: &ClassNames,
        above: Strength,
        dump: &ClassDump<'_>,
    ) -> Result<(), AllocError>
        requires names { AreClassNames (facts_of heap.now) names.now }
        requires has { HasDump (facts_of heap.now) (class_value dump.now) }
        requires not_zero { dump.now.id ≢ 0 }
        requires parent { dump.now.parent ≡ above.class }
        requires above { IsStrength (facts_of heap.now) (nexts_in self.old.links) above }
        ensures { OnOk result (AddsClass (facts_of heap.now) self.old self.new dump.now.id) }
    {
        holds_of_heap(heap);
        let is_cleared = above.is_cleared || is_clearing(heap, names, dump.id);
        let flags = referent_flags(self.alloc, heap, names, dump)?;
        let first = self.links.put_own(flags, above.first)?;
        self.order.push(Strength {
            class: dump.id,
            is_cleared,
            first,
        })?;
        Ok(())
    }

    /// Appends the classes that wait for the class at that place. If memory runs out, the answer is `AllocError` and both are unspecified.
    fn add_below(
        &mut self,
        heap: &Heap,
        names: &ClassNames,
        subclasses: &mut WaitingLists<u64>,
        place: usize,
    ) -> Result<(), AllocError>
        requires names { AreClassNames (facts_of heap.now) names.now }
        requires within { place < length (strengths_in self.old) }
        requires stand { IsStanding (facts_of heap.now) self.old (waiting_for subclasses.old) place }
        ensures stand { OnOk result (IsStanding (facts_of heap.now) self.new (waiting_for subclasses.new) (place + 1)) }
        ensures counted { OnOk result (number_in subclasses.new + length (strengths_in self.new)
            ≡ number_in subclasses.old + length (strengths_in self.old)) }
    {
        let above = self.order[place];
        let Some(classes) = subclasses.take(above.class) else {
            return Ok(());
        };
        for class in classes {
            let Some(dump) = find_class(heap, class) else {
                // A class that waits has a dump.
                unreachable!();
            };
            self.add(heap, names, above, &dump)?;
        }
        Ok(())
    }
}

/// Returns the classes of a heap whose layouts are known, superclasses first. Each class is looked up once. `names` are those of the heap.
/// If memory runs out, the answer is `AllocError`.
pub(crate) fn strengths_of(
    alloc: Global,
    heap: &Heap,
    names: &ClassNames,
) -> Result<Strengths, AllocError>
    requires { AreClassNames (facts_of heap.now) names.now }
    ensures { IfOk result (AreStrengths (facts_of heap.now)) }
{
    let mut subclasses = subclasses_of(alloc, heap)?;
    let mut strengths = Strengths::new(alloc)?;
    let mut place = 0;
    while place < strengths.order.len() {
        strengths.add_below(heap, names, &mut subclasses, place)?;
        place += 1;
    }
    Ok(strengths)
}
