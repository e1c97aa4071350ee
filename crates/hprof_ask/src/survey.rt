//! What is made of a heap once, for reports that people read.

ghost use Rattle.std.specs.Prelude.{◌≡◌, IfOk};
ghost use Rattle.hprof_edges.specs.LeftOut.{IsKept, fields_in};
ghost use Rattle.hprof_heap.specs.HeapFacts.{facts_of, size_of};
ghost use Rattle.hprof_holders.specs.Views.{IsView};
ghost use Rattle.hprof_reach.specs.Reaching.{IsReachBy};
ghost use Rattle.hprof_ask.specs.Surveys.{AreReferences, IsSurvey};

use crate::cache::OfHeap;
use hprof_edges::LeftOut;
use hprof_heap::Heap;
use hprof_holders::HeapView;
use hprof_layouts::{KnownLayouts, known_layouts};
use hprof_naming::ClassNames;
use hprof_reach::{Reach, reach_without};
use hprof_threads::ThreadRoots;
use hprof_weak::weak_fields;
use std::alloc::{AllocError, Global};

/// What is made of a heap once, for reports that people read.
#[derive(Drop)]
pub(crate) struct Survey {
    /// The names of the classes.
    pub(crate) classes: ClassNames,
    /// The roots of the threads.
    pub(crate) threads: ThreadRoots,
}

impl OfHeap for Survey {
    ghost is_of = { IsSurvey };

    fn make(alloc: Global, heap: &Heap) -> Result<Survey, AllocError> {
        Ok(Survey {
            classes: ClassNames::of(alloc, heap)?,
            threads: ThreadRoots::of(alloc, heap)?,
        })
    }
}

/// What is made of a heap once, for reports that tell strong references from weak ones.
#[derive(Drop)]
pub(crate) struct References {
    /// The layouts of the classes.
    pub(crate) layouts: KnownLayouts,
    /// The fields that hold weak references.
    pub(crate) weak: LeftOut,
    /// The search from the GC roots by strong references, once it was wanted.
    pub(crate) strong: Option<Reach>,
}

impl References {
    /// Takes the search by strong references, or makes it.
    pub(crate) fn take_strong(&mut self, alloc: Global, heap: &Heap) -> Result<Reach, AllocError>
        requires { AreReferences (size_of heap.now) (facts_of heap.now) self.old }
        ensures strong { IfOk result
            (IsReachBy (IsKept (fields_in self.new.weak) (facts_of heap.now)) (size_of heap.now) (facts_of heap.now)) }
        ensures references { AreReferences (size_of heap.now) (facts_of heap.now) self.new }
    {
        match self.strong.take() {
            Some(strong) => Ok(strong),
            None => reach_without(alloc, heap, &self.weak),
        }
    }
}

impl OfHeap for References {
    ghost is_of = { AreReferences };

    fn make(alloc: Global, heap: &Heap) -> Result<References, AllocError> {
        Ok(References {
            layouts: known_layouts(alloc, heap)?,
            weak: weak_fields(alloc, heap)?,
            strong: None,
        })
    }
}

/// Returns a heap together with what was made of it.
pub(crate) fn view_of<'a>(
    heap: &'a Heap,
    survey: &'a Survey,
    references: &'a References,
) -> HeapView<'a>
    requires survey { IsSurvey (size_of heap.now) (facts_of heap.now) survey.now }
    requires references { AreReferences (size_of heap.now) (facts_of heap.now) references.now }
    ensures heap { result.heap.now ≡ heap.now }
    ensures weak { result.weak.now ≡ references.now.weak }
    ensures view { IsView result }
{
    HeapView {
        heap,
        layouts: &references.layouts,
        classes: &survey.classes,
        threads: &survey.threads,
        weak: &references.weak,
    }
}
