//! Objects that are chosen by their kind.

ghost use Rattle.std.specs.Prelude.{◌≡◌, ◌<◌, ◌^◌, false, true, MatchOption};
ghost use Rattle.std.specs.List.Sorted.{IsStrictlyIncreasing};
ghost use Rattle.hprof_items.specs.FactValue.{value_of};
ghost use Rattle.hprof_heap.specs.HeapFacts.{facts_of, size_of};
ghost use Rattle.hprof_passes.specs.Finding.{Finds};
ghost use Rattle.hprof_histogram.specs.Chosen.{AreChosen, CanChoose, CanChoose-prop, chooses, is_among, is_chosen};
ghost use Rattle.hprof_histogram.specs.Histogram.{object_kind, size_of_object};
ghost use Rattle.hprof_histogram.specs.Objects.{sized_of};

use crate::measured::measure;
use crate::objects::{SizedObject, sort_objects};
use crate::row::Kind;
use hprof_heap::Heap;
use hprof_items::Fact;
use hprof_passes::{ObjectSink, Objects, PassFault};
use hprof_values::IdSize;
use std::alloc::{AllocError, Global};

/// Which objects are chosen.
#[derive(Clone, Copy, Debug, PartialEq, Eq)]
pub enum Chosen<'a> {
    /// Those of a kind.
    Kind(Kind),
    /// The instances and the arrays of objects of these classes, which ascend strictly.
    Classes(&'a [u64]),
}

/// Returns whether the class is one of these, which ascend.
#[inline(always)]
fn is_among(classes: &[u64], class: u64) -> bool
    requires { IsStrictlyIncreasing classes.now }
    ensures { result ≡ is_among classes.now class }
{
    classes.binary_search(&class).is_ok()
}

impl Chosen<'_> {
    /// Returns whether objects of a kind are chosen.
    #[inline(always)]
    fn chooses(self, kind: Kind) -> bool
        requires { CanChoose self }
        ensures { result ≡ chooses self.entry kind }
    {
        match (self, kind) {
            (Chosen::Kind(own), kind) => own == kind,
            (Chosen::Classes(classes), Kind::Class(class)) => is_among(classes, class),
            (Chosen::Classes(_), Kind::Prim(_)) => false,
        }
    }
}

/// Returns an object, if it is chosen, with the number of its bytes.
#[inline(always)]
fn chosen_object(fact: &Fact<'_>, ids: IdSize, chosen: Chosen<'_>) -> Option<SizedObject>
    requires chosen { CanChoose chosen }
    requires small { size_of_object ids (value_of fact.now) < 2 ^ 64 }
    ensures { MatchOption result (is_chosen chosen.entry (object_kind (value_of fact.now)) ≡ false)
        (λ object. (is_chosen chosen.entry (object_kind (value_of fact.now)) ≡ true) × (object ≡ sized_of ids (value_of fact.now))) }
{
    let object = measure(fact, ids)?;
    if !chosen.chooses(object.kind) {
        return None;
    }
    Some(SizedObject {
        bytes: object.size as u64,
        id: object.id,
    })
}

/// The objects that are chosen, in the order in which they come.
#[derive(Drop)]
struct Choosing<'a> {
    chosen: Chosen<'a>,
    objects: Vec<SizedObject>,
    ghost can: { CanChoose chosen } by { CanChoose-prop chosen },
}

/// The fault is want of memory.
impl ObjectSink for Choosing<'_> {
    ghost use Rattle.std.specs.Prelude.{⊤};
    ghost use Rattle.hprof_histogram.specs.Choosing.{ChoosesObject};

    ghost takes = { ChoosesObject };

    ghost refuses = { λ old ids object fault new. ⊤ };

    type Fault = AllocError;

    #[inline(always)]
    fn take(&mut self, ids: IdSize, object: &Fact<'_>) -> Result<(), AllocError> {
        if let Some(object) = chosen_object(object, ids, self.chosen) {
            self.objects.push(object)?;
        }
        Ok(())
    }
}

/// Returns those of the objects that are chosen, each with the number of its bytes: from the most bytes down, and then by identifier. The
/// heap has all other facts.
///
/// # Errors
///
/// - `Sink`: memory ran out.
/// - `Lost`: the objects cannot be gone through.
pub fn chosen_objects<O: Objects>(
    alloc: Global,
    heap: &Heap,
    objects: &O,
    chosen: Chosen<'_>,
) -> Result<Vec<SizedObject>, PassFault<AllocError, O::Fault>>
    requires { CanChoose chosen }
    ensures { Finds (O.make_up objects.now (size_of heap.now) (facts_of heap.now))
        (O.agree objects.now (size_of heap.now) (facts_of heap.now))
        (O.tells objects.now (size_of heap.now) (facts_of heap.now))
        (λ all found. AreChosen (size_of heap.now) all chosen.entry found.items) result }
{
    let mut choosing = Choosing {
        chosen,
        objects: Vec::new(alloc),
    };
    objects.pass(alloc, heap, &mut choosing)?;
    let Choosing { mut objects, .. } = choosing;
    sort_objects(&mut objects);
    Ok(objects)
}
