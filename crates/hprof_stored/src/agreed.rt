//! The objects of parts, of which no identifier has two contents.

ghost use Rattle.hprof_objects.specs.CutLists.{AreListsOf};
ghost use Rattle.hprof_stored.specs.Agreed.{HaveOneContent};
ghost use Rattle.hprof_stored.specs.InParts.{AreSoMany, objects_under};

use crate::in_parts::InParts;
use crate::in_parts_fault::InPartsFault;
use hprof_devices::Target;
use hprof_heap::Heap;
use hprof_objects::CutLists;
use hprof_parts::Parts;
use hprof_passes::{ObjectSink, Objects, PassFault};
use hprof_runs::Scratch;
use std::alloc::Global;

/// The objects of parts, of which no identifier has two contents. Some of them are picked without a pass over all.
#[derive(Drop)]
pub struct Agreed<'a, S: Target, P: Parts> {
    objects: InParts<'a, S, P>,
    /// The lists of their cuts, in which each pick looks identifiers up.
    lists: CutLists,
    /// The number of objects.
    count: u64,
    // No identifier has two contents.
    ghost agree: { HaveOneContent S.written S.health P.bytes objects },
    ghost counted: { AreSoMany S.written S.health P.bytes objects count },
    ghost listed: { AreListsOf (objects_under objects) lists },
}

impl<'a, S: Scratch + Drop, P: Parts> Agreed<'a, S, P> {
    ghost use Rattle.std.specs.Prelude.{◌≡◌, List, IfErr, IfOk, OnOk};
    ghost use Rattle.hprof_values.specs.declared.ids.IdSize.{IdSize};
    ghost use Rattle.hprof_items.specs.FactValue.{FactValue};
    ghost use Rattle.hprof_stored.specs.AgreedUnder.{agreed_under};
    ghost use Rattle.hprof_stored.specs.InParts.{HaveUnion, TellsPass};

    /// Counts the objects of parts, and returns them if that tells that no identifier has two contents.
    ///
    /// # Errors
    ///
    /// - `OutOfMemory`: memory ran out.
    /// - `TwoContents`: the least identifier of which objects have two contents.
    /// - `Scratch`, `Part`: objects cannot be read again, or a part is not there.
    /// - `TooMany`: there are 2^64 or more.
    pub fn new(alloc: Global, objects: InParts<'a, S, P>) -> Result<Self, InPartsFault>
        ensures objects { IfOk result (λ agreed. agreed_under agreed ≡ objects.entry) }
        ensures agree { OnOk result (HaveUnion S.written S.health P.bytes objects.entry) }
        ensures tells { IfErr result (λ fault. (ids : IdSize) (facts : List FactValue)
            → TellsPass S.written S.health P.bytes S.unreadable objects.entry ids facts fault) }
    {
        let count = match objects.count_all(alloc) {
            Ok(count) => count,
            Err(fault) => return Err(fault),
        };
        match objects.cut_lists(alloc) {
            Ok(lists) => Ok(Agreed {
                objects,
                lists,
                count,
            }),
            Err(_) => Err(InPartsFault::OutOfMemory),
        }
    }
}

impl<S: Scratch + Drop, P: Parts> Objects for Agreed<'_, S, P> {
    ghost use Rattle.hprof_stored.specs.AgreedUnder.{agreed_under};
    ghost use Rattle.hprof_stored.specs.InParts.{HaveUnion, MakeUp, TellsPass};

    ghost make_up = { λ it ids facts all. MakeUp S.written S.health P.bytes (agreed_under it) ids facts all };

    ghost agree = { λ it ids facts. HaveUnion S.written S.health P.bytes (agreed_under it) };

    ghost tells = { λ it ids facts fault. TellsPass S.written S.health P.bytes S.unreadable (agreed_under it) ids facts fault };

    type Fault = InPartsFault;

    fn pass<T: ObjectSink>(
        &self,
        alloc: Global,
        heap: &Heap,
        sink: &mut T,
    ) -> Result<(), PassFault<T::Fault, InPartsFault>> {
        self.objects.pass(alloc, heap, sink)
    }

    fn pick<T: ObjectSink>(
        &self,
        alloc: Global,
        heap: &Heap,
        wanted: &[u64],
        sink: &mut T,
    ) -> Result<(), PassFault<T::Fault, InPartsFault>> {
        self.objects
            .pick_agreed(alloc, heap, &self.lists, wanted, sink)
    }

    fn count(&self, _alloc: Global, _heap: &Heap) -> Result<u64, InPartsFault> {
        Ok(self.count)
    }

    ghost whole = { λ it ids facts all make. make.whole };
}
