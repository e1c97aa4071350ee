//! The objects of a heap.

ghost use Rattle.std.specs.Prelude.{◌≡◌, List, length, IfOk, OnOk, IfErr};
ghost use Rattle.std.specs.List.Sorted.{IsStrictlyIncreasing};
ghost use Rattle.hprof_items.specs.FactValue.{FactValue};
ghost use Rattle.hprof_heap.specs.HeapFacts.{facts_of, size_of};
ghost use Rattle.hprof_passes.specs.Passing.{IfLost, Passes, objects_among};
ghost use Rattle.hprof_passes.specs.Picked.{picked};

use crate::object_sink::ObjectSink;
use crate::pass_fault::PassFault;
use crate::picking::Picking;
use hprof_heap::Heap;
use std::alloc::Global;

/// The objects of a heap, which can be gone through as often as is wanted.
pub trait Objects {
    ghost use Rattle.hprof_values.specs.declared.ids.IdSize.{IdSize};
    ghost use Rattle.hprof_passes.specs.Passing.{IsWhole};

    // With the facts of a heap they make up these facts.
    ghost make_up: { Self → IdSize → List FactValue → List FactValue → Type 0 };

    // With the facts of a heap they make up some facts: no identifier has two contents.
    ghost agree: { Self → IdSize → List FactValue → Type 0 };

    // What a fault of a pass tells of them, and of the facts of a heap.
    ghost tells: { Self → IdSize → List FactValue → Self.Fault → Type 0 };

    /// The reason why they cannot be gone through.
    type Fault;

    /// Gives all objects to a sink, one after another in ascending order of identifier. The heap has all other facts.
    ///
    /// # Errors
    ///
    /// - `Sink`: the sink refused an object. It was given those before.
    /// - `Lost`: the objects cannot be gone through. The sink was given the first of them, or none.
    fn pass<T: ObjectSink>(
        &self,
        alloc: Global,
        heap: &Heap,
        sink: &mut T,
    ) -> Result<(), PassFault<T::Fault, Self::Fault>>
        ensures given { (all : List FactValue) → make_up self.now (size_of heap.now) (facts_of heap.now) all
            → Passes T.takes T.refuses (size_of heap.now) (objects_among all) result sink.old sink.new }
        ensures agree { OnOk result (agree self.now (size_of heap.now) (facts_of heap.now)) }
        ensures tells { IfErr result (IfLost (tells self.now (size_of heap.now) (facts_of heap.now))) };

    /// Gives a sink those of the objects whose identifiers are wanted, one after another in ascending order of identifier. The heap has all
    /// other facts. The wanted identifiers ascend strictly. Objects that are not wanted need not be read.
    ///
    /// This body passes over all objects. An `impl` that has some of them more cheaply writes its own.
    ///
    /// # Errors
    ///
    /// - `Sink`: the sink refused an object. It was given the wanted ones before.
    /// - `Lost`: the objects cannot be gone through. The sink was given the first of the wanted ones, or none.
    fn pick<T: ObjectSink>(
        &self,
        alloc: Global,
        heap: &Heap,
        wanted: &[u64],
        sink: &mut T,
    ) -> Result<(), PassFault<T::Fault, Self::Fault>>
        requires ascend { IsStrictlyIncreasing wanted.now }
        ensures given { (all : List FactValue) → make_up self.now (size_of heap.now) (facts_of heap.now) all
            → Passes T.takes T.refuses (size_of heap.now) (picked wanted.now (objects_among all)) result sink.old sink.new }
        ensures agree { OnOk result (agree self.now (size_of heap.now) (facts_of heap.now)) }
        ensures tells { IfErr result (IfLost (tells self.now (size_of heap.now) (facts_of heap.now))) }
    {
        let mut picking = Picking::new(wanted, sink);
        self.pass(alloc, heap, &mut picking)
    }

    /// Returns the number of objects. The heap has all other facts.
    fn count(&self, alloc: Global, heap: &Heap) -> Result<u64, Self::Fault>
        ensures value { (all : List FactValue) → make_up self.now (size_of heap.now) (facts_of heap.now) all
            → IfOk result (λ count. count ≡ length (objects_among all)) }
        ensures agree { OnOk result (agree self.now (size_of heap.now) (facts_of heap.now)) }
        ensures tells { IfErr result (tells self.now (size_of heap.now) (facts_of heap.now)) };

    // The facts that they make up are those of a heap, and all of them but objects are the facts that were there.
    ghost whole: { (it : Self) (ids : IdSize) (facts all : List FactValue) → make_up it ids facts all → IsWhole ids facts all };
}
