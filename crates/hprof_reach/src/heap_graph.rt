//! A heap as a graph.

ghost use Rattle.std.specs.Prelude.{◌≡◌, [], IfOk};
ghost use Rattle.hprof_reach.specs.Graph.{TellsEdges, targets_in};

use crate::nodes::class_nodes;
use crate::targets::Targets;
use hprof_edges::{
    Cursors, LeftOut, class_edges, kept_object_edges, known_edges, known_object_edges,
};
use hprof_heap::{Heap, ObjectDump, find_class_near};
use hprof_layouts::{KnownLayouts, Reference, known_layouts};
use hprof_numbers::{Graph, Numbered};
use hprof_values::IdSize;
use std::alloc::{AllocError, Global};
use std::mem::swap;

/// The edges of a heap, node by node, without those by left-out fields, with scratch space for each node.
#[derive(Drop)]
pub struct HeapGraph<'h> {
    pub(crate) heap: &'h Heap,
    pub(crate) left_out: &'h LeftOut,
    /// The layouts of the heap's classes.
    pub(crate) known: KnownLayouts,
    /// The nodes that have a class dump. For other nodes none is looked up.
    pub(crate) classes: Numbered,
    /// The places of the last dumps.
    pub(crate) near: Cursors,
    pub(crate) references: Vec<Reference>,
    pub(crate) targets: Targets,
}

/// Returns the graph of a heap, without the edges by the fields in `left_out`. If memory runs out, the answer is `AllocError`.
pub fn graph_of<'h>(
    alloc: Global,
    heap: &'h Heap,
    left_out: &'h LeftOut,
) -> Result<HeapGraph<'h>, AllocError>
    ensures heap { IfOk result (λ graph. graph.heap.now ≡ heap.now) }
    ensures left_out { IfOk result (λ graph. graph.left_out.now ≡ left_out.now) }
    ensures tells { IfOk result TellsEdges }
    ensures none { IfOk result (λ graph. targets_in graph ≡ []) }
{
    let known = known_layouts(alloc, heap)?;
    let classes = Numbered::new(alloc, class_nodes(alloc, heap)?)?;
    Ok(HeapGraph {
        heap,
        left_out,
        known,
        classes,
        near: Cursors::start(),
        references: Vec::new(alloc),
        targets: Targets {
            list: Vec::new(alloc),
        },
    })
}

impl<'h> HeapGraph<'h> {
    ghost use Rattle.std.specs.Prelude.{◌≡◌, ◌↔◌, ◌⊎◌, ◌++◌, ℕ, List, [], map, Contains, OnOk};
    ghost use Rattle.hprof_values.specs.declared.ids.IdSize.{IdSize};
    ghost use Rattle.hprof_items.specs.FactValue.{FactValue};
    ghost use Rattle.hprof_heap.specs.HeapFacts.{facts_of, size_of};
    ghost use Rattle.hprof_heap.specs.ObjectDump.{fact_of_object};
    ghost use Rattle.hprof_layouts.specs.Known.{Knows};
    ghost use Rattle.hprof_edges.specs.declared.edge.Edge.{Edge};
    ghost use Rattle.hprof_edges.specs.Collecting.{PutBehind};
    ghost use Rattle.hprof_edges.specs.Edges.{IsEdge};
    ghost use Rattle.hprof_edges.specs.LeftOut.{IsKept, fields_in};
    ghost use Rattle.hprof_reach.specs.EdgesSoFar.{IsKeptOf, LeadsByClass};
    ghost use Rattle.hprof_reach.specs.Graph.{TellsEdges, targets_in};

    /// Appends the targets of the edges that an identifier's class dump gives, if it has one.
    pub(crate) fn put_class_targets(&mut self, from: u64) -> Result<(), AllocError>
        ensures put { OnOk result (TellsEdges self.old → (to : ℕ) → Contains (targets_in self.new) to
            ↔ (Contains (targets_in self.old) to ⊎ LeadsByClass (facts_of self.old.heap.now) from to)) }
        ensures heap { self.new.heap ≡ self.old.heap }
        ensures left_out { self.new.left_out ≡ self.old.left_out }
        ensures known { self.new.known ≡ self.old.known }
        ensures tells { TellsEdges self.old → TellsEdges self.new }
    {
        if from != 0 && !self.classes.has(from) {
            return Ok(());
        }
        let Some(dump) = find_class_near(self.heap, from, &mut self.near.class) else {
            return Ok(());
        };
        class_edges(&dump, &mut self.targets)?;
        Ok(())
    }

    /// Appends the targets of the edges that an object dump gives, without those by left-out fields.
    #[inline(always)]
    pub(crate) fn put_object_targets(
        &mut self,
        dump: &ObjectDump<'_>,
        ids: IdSize,
    ) -> Result<(), AllocError>
        ensures put { OnOk result ((facts : List FactValue) → Knows ids facts self.old.known → (to : ℕ) → Contains (targets_in self.new) to
            ↔ (Contains (targets_in self.old) to ⊎ ((edge : Edge)
            × IsKeptOf ids facts (fields_in self.old.left_out.now) (fact_of_object dump.now) edge × (edge.to ≡ to)))) }
        ensures heap { self.new.heap ≡ self.old.heap }
        ensures left_out { self.new.left_out ≡ self.old.left_out }
        ensures known { self.new.known ≡ self.old.known }
        ensures tells { TellsEdges self.old → TellsEdges self.new }
    {
        kept_object_edges(
            &self.known,
            dump,
            ids,
            self.left_out,
            &mut self.references,
            &mut self.targets,
        )?;
        Ok(())
    }

    /// Appends the targets of the edges from an identifier.
    fn put_targets(&mut self, from: u64) -> Result<(), AllocError>
        requires { TellsEdges self.old }
        ensures put { OnOk result ((edges : List Edge) → targets_in self.old ≡ map (λ edge. edge.to) edges
            → PutBehind (λ edges. targets_in self.new ≡ map (λ edge. edge.to) edges) edges
            (λ edge. IsEdge (size_of self.old.heap.now) (facts_of self.old.heap.now) edge × (edge.from ≡ from)
            × IsKept (fields_in self.old.left_out.now) (facts_of self.old.heap.now) edge)) }
        ensures heap { self.new.heap ≡ self.old.heap }
        ensures left_out { self.new.left_out ≡ self.old.left_out }
        ensures tells { TellsEdges self.new }
    {
        if from == 0 || self.classes.has(from) {
            known_edges(
                self.heap,
                &self.known,
                from,
                self.left_out,
                &mut self.near,
                &mut self.references,
                &mut self.targets,
            )?;
            return Ok(());
        }
        known_object_edges(
            self.heap,
            &self.known,
            from,
            self.left_out,
            &mut self.near.object,
            &mut self.references,
            &mut self.targets,
        )?;
        Ok(())
    }
}

impl<'h> Graph for HeapGraph<'h> {
    ghost use Rattle.hprof_heap.specs.HeapFacts.{facts_of, size_of};
    ghost use Rattle.hprof_edges.specs.LeftOut.{IsKept, fields_in};
    ghost use Rattle.hprof_reach.specs.Graph.{TellsEdges};
    ghost use Rattle.hprof_reach.specs.Reaching.{LeadsBy};

    ghost leads = { λ graph. LeadsBy (IsKept (fields_in graph.left_out.now) (facts_of graph.heap.now)) (size_of graph.heap.now)
        (facts_of graph.heap.now) };

    ghost stands = { TellsEdges };

    fn targets_of(&mut self, from: u64, targets: &mut Vec<u64>) -> Result<(), AllocError> {
        self.targets.list.clear();
        self.put_targets(from)?;
        swap(&mut self.targets.list, targets);
        Ok(())
    }
}
