//! The edges of a class.

ghost use Rattle.std.specs.Prelude.{◌≡◌, ◌++◌, List, OnOk};
ghost use Rattle.hprof_heap.specs.ClassDump.{class_value};
ghost use Rattle.hprof_edges.specs.declared.edge.Edge.{Edge};
ghost use Rattle.hprof_edges.specs.Collecting.{PutBehind};
ghost use Rattle.hprof_edges.specs.DumpEdges.{IsClassEdge};
ghost use Rattle.hprof_edges.specs.EdgeLists.{named_edges};

use crate::collect::Collect;
use crate::edge::{Edge, Via};
use crate::putting::{put_constants, put_edge, put_statics};
use hprof_heap::ClassDump;
use std::alloc::AllocError;

/// Returns the edge from a class to an identifier that its dump names.
fn named_edge(class: u64, via: Via, to: u64) -> Edge
    ensures { result ≡ record { from = class; via = via; position = 0; to = to } }
{
    Edge {
        from: class,
        via,
        position: 0,
        to,
    }
}

/// Puts the edges of a class to its superclass, its class loader, its signers and its protection domain.
fn put_named<C: Collect>(dump: &ClassDump<'_>, into: &mut C) -> Result<(), AllocError>
    ensures holds { OnOk result ((edges : List Edge) → C.holds into.old edges
        → C.holds into.new (edges ++ named_edges (class_value dump.now))) }
    ensures keeps { OnOk result (C.keeps into.new ≡ C.keeps into.old) }
{
    put_edge(named_edge(dump.id, Via::Parent, dump.parent), into)?;
    put_edge(named_edge(dump.id, Via::Loader, dump.loader), into)?;
    put_edge(named_edge(dump.id, Via::Signers, dump.signers), into)?;
    put_edge(named_edge(dump.id, Via::Domain, dump.domain), into)?;
    Ok(())
}

/// Puts the edges of a class dump into `into`: to its superclass, its class loader, its signers and its protection domain, and from its
/// constants and static fields. If memory runs out, the answer is `AllocError` and `into` is unspecified.
pub fn class_edges<C: Collect>(dump: &ClassDump<'_>, into: &mut C) -> Result<(), AllocError>
    ensures holds { OnOk result ((edges : List Edge) → C.holds into.old edges
        → PutBehind (C.holds into.new) edges (IsClassEdge (class_value dump.now))) }
    ensures keeps { OnOk result (C.keeps into.new ≡ C.keeps into.old) }
{
    put_named(dump, into)?;
    put_constants(dump.id, dump.constants, into)?;
    put_statics(dump.id, dump.statics, into)?;
    Ok(())
}
