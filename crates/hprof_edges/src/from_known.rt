//! The edges from an identifier, with known layouts.

ghost use Rattle.std.specs.Prelude.{◌≡◌, List, OnOk};
ghost use Rattle.hprof_heap.specs.Classes.{HasNoDump};
ghost use Rattle.hprof_heap.specs.HeapFacts.{facts_of, size_of};
ghost use Rattle.hprof_layouts.specs.Known.{Knows};
ghost use Rattle.hprof_edges.specs.declared.edge.Edge.{Edge};
ghost use Rattle.hprof_edges.specs.Collecting.{PutBehind};
ghost use Rattle.hprof_edges.specs.DumpEdges.{GivenByObject};
ghost use Rattle.hprof_edges.specs.Edges.{IsEdge};
ghost use Rattle.hprof_edges.specs.LeftOut.{IsKept, fields_in};

use crate::collect::Collect;
use crate::kept_edges::kept_object_edges;
use crate::left_out::LeftOut;
use crate::of_identifier::put_of_class;
use hprof_heap::{Cursor, Heap, find_object_near, id_size};
use hprof_layouts::{KnownLayouts, Reference};
use std::alloc::AllocError;

/// The places of the class dump and the object dump that were looked up last. The next ones are looked for near them. The answers are the
/// same for all places.
#[derive(Clone, Copy, Debug, PartialEq, Eq)]
pub struct Cursors {
    /// The place of the class dump.
    pub class: Cursor,
    /// The place of the object dump.
    pub object: Cursor,
}

impl Cursors {
    /// Returns the places to start with.
    pub fn start() -> Cursors
        ensures class { (result.class.page ≡ 0) × (result.class.place ≡ 0) }
        ensures object { (result.object.page ≡ 0) × (result.object.place ≡ 0) }
    {
        Cursors {
            class: Cursor::start(),
            object: Cursor::start(),
        }
    }
}

/// Puts the edges from an identifier's object dump, if it has one, without those by left-out fields.
fn put_of_known_object<C: Collect>(
    heap: &Heap,
    known: &KnownLayouts,
    id: u64,
    left_out: &LeftOut,
    near: &mut Cursor,
    references: &mut Vec<Reference>,
    into: &mut C,
) -> Result<(), AllocError>
    ensures holds { OnOk result ((edges : List Edge) → Knows (size_of heap.now) (facts_of heap.now) known.now → C.holds into.old edges
        → PutBehind (C.holds into.new) edges (λ edge. (edge.from ≡ id) × GivenByObject (size_of heap.now) (facts_of heap.now) edge
        × IsKept (fields_in left_out.now) (facts_of heap.now) edge)) }
    ensures keeps { OnOk result (C.keeps into.new ≡ C.keeps into.old) }
{
    let Some(dump) = find_object_near(heap, id, near) else {
        return Ok(());
    };
    kept_object_edges(known, &dump, id_size(heap), left_out, references, into)?;
    Ok(())
}

/// Puts all edges from an identifier into `into`, without those by the fields in `left_out`. `known` has the layouts of the heap's classes.
///
/// The class dump and the object dump of the identifier are looked up, near the places of the last ones. `references` is scratch space. If
/// memory runs out, the answer is `AllocError` and `into` is unspecified.
pub fn known_edges<C: Collect>(
    heap: &Heap,
    known: &KnownLayouts,
    id: u64,
    left_out: &LeftOut,
    near: &mut Cursors,
    references: &mut Vec<Reference>,
    into: &mut C,
) -> Result<(), AllocError>
    ensures holds { OnOk result ((edges : List Edge) → Knows (size_of heap.now) (facts_of heap.now) known.now → C.holds into.old edges
        → PutBehind (C.holds into.new) edges (λ edge. IsEdge (size_of heap.now) (facts_of heap.now) edge × (edge.from ≡ id)
        × IsKept (fields_in left_out.now) (facts_of heap.now) edge)) }
    ensures keeps { OnOk result (C.keeps into.new ≡ C.keeps into.old) }
{
    put_of_class(heap, id, &mut near.class, into)?;
    put_of_known_object(
        heap,
        known,
        id,
        left_out,
        &mut near.object,
        references,
        into,
    )?;
    Ok(())
}

/// Puts all edges from an identifier that has no class dump, as [`known_edges`] does. Only its object dump is looked up.
pub fn known_object_edges<C: Collect>(
    heap: &Heap,
    known: &KnownLayouts,
    id: u64,
    left_out: &LeftOut,
    near: &mut Cursor,
    references: &mut Vec<Reference>,
    into: &mut C,
) -> Result<(), AllocError>
    requires { HasNoDump (facts_of heap.now) id }
    ensures holds { OnOk result ((edges : List Edge) → Knows (size_of heap.now) (facts_of heap.now) known.now → C.holds into.old edges
        → PutBehind (C.holds into.new) edges (λ edge. IsEdge (size_of heap.now) (facts_of heap.now) edge × (edge.from ≡ id)
        × IsKept (fields_in left_out.now) (facts_of heap.now) edge)) }
    ensures keeps { OnOk result (C.keeps into.new ≡ C.keeps into.old) }
{
    put_of_known_object(heap, known, id, left_out, near, references, into)?;
    Ok(())
}
