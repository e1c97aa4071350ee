//! Steps of a path, from one node to the next.

ghost use Rattle.std.specs.Prelude.{◌≡◌, Some, IfOk, OnOk, List};
ghost use Rattle.hprof_items.specs.FactValue.{FactValue};
ghost use Rattle.hprof_heap.specs.HeapFacts.{facts_of, size_of};
ghost use Rattle.hprof_edges.specs.declared.edge.Edge.{Edge};
ghost use Rattle.hprof_edges.specs.LeastEdge.{IsLeastEdgeBy};
ghost use Rattle.hprof_edges.specs.LeftOut.{IsKept, fields_in};
ghost use Rattle.hprof_reports.specs.Skipped.{AreSkips};
ghost use Rattle.hprof_holders.specs.Steps.{AreEdgeFindings, EdgeFindings};
ghost use Rattle.hprof_holders.specs.Views.{IsView};
ghost use Rattle.hprof_why.specs.WhyText.{ArePathFindings, PathFindings, link_by};
ghost use Rattle.hprof_why.specs.Walks.{is_alike_link, step_by};

use crate::alike::{same_kind, same_step};
use hprof_edges::{Cursors, LeftOut, least_edge};
use hprof_holders::{HeapView, Step, step_of};
use hprof_layouts::Reference;
use hprof_reports::FieldNames;
use std::alloc::{AllocError, Global};

/// A path of which each step is by the least edge that is kept, and what is kept between steps: where the last dumps were found, room for
/// references, and the names of fields.
#[derive(Drop)]
pub(crate) struct Walk {
    near: Cursors,
    references: Vec<Reference>,
    pub(crate) names: FieldNames,
}

impl Walk {
    /// Returns the state before the first step. Allocates nothing.
    pub(crate) fn new(alloc: Global) -> Walk
        ensures { (facts : List FactValue) → AreSkips facts result.names }
    {
        Walk {
            near: Cursors::start(),
            references: Vec::new(alloc),
            names: FieldNames::new(alloc),
        }
    }

    /// Returns the step by the least edge from one node to another without the edges by the fields in `left_out`, or `None` if there is no
    /// such edge. If memory runs out, the answer is `AllocError`.
    pub(crate) fn step(
        &mut self,
        view: HeapView<'_>,
        left_out: &LeftOut,
        from: u64,
        to: u64,
    ) -> Result<Option<Step>, AllocError>
        requires view { IsView view }
        requires skips { AreSkips (facts_of view.heap.now) self.old.names }
        ensures step { IfOk result (λ step. (edges : EdgeFindings) (edge : Edge)
            → AreEdgeFindings (size_of view.entry.heap.now) (facts_of view.entry.heap.now) edges
            → IsLeastEdgeBy (IsKept (fields_in left_out.now) (facts_of view.entry.heap.now)) (size_of view.entry.heap.now)
            (facts_of view.entry.heap.now) from to (Some edge) → step ≡ Some (step_by edges edge)) }
        ensures skips { OnOk result (AreSkips (facts_of view.entry.heap.now) self.new.names) }
    {
        let found = least_edge(
            view.heap,
            view.layouts,
            from,
            to,
            left_out,
            &mut self.near,
            &mut self.references,
        )?;
        let Some(edge) = found else {
            return Ok(None);
        };
        let step = step_of(view, edge, &mut self.names)?;
        Ok(Some(step))
    }

    /// Returns whether the step from one node to another is of the kind of the first one, and leads to a node of the kind of the node
    /// before that. If memory runs out, the answer is `AllocError`.
    pub(crate) fn is_alike(
        &mut self,
        alloc: Global,
        view: HeapView<'_>,
        left_out: &LeftOut,
        before: u64,
        first: Step,
        from: u64,
        to: u64,
    ) -> Result<bool, AllocError>
        requires view { IsView view }
        requires skips { AreSkips (facts_of view.heap.now) self.old.names }
        ensures alike { (found : PathFindings) (edge next : Edge)
            → ArePathFindings (size_of view.entry.heap.now) (facts_of view.entry.heap.now) found → first ≡ step_by found.edges edge
            → IsLeastEdgeBy (IsKept (fields_in left_out.now) (facts_of view.entry.heap.now)) (size_of view.entry.heap.now)
            (facts_of view.entry.heap.now) from to (Some next)
            → IfOk result (λ alike. alike ≡ is_alike_link found before edge (link_by found next to)) }
        ensures skips { OnOk result (AreSkips (facts_of view.entry.heap.now) self.new.names) }
    {
        let is_same = same_kind(alloc, view, before, to)?;
        if !is_same {
            return Ok(false);
        }
        let found = self.step(view, left_out, from, to)?;
        let Some(step) = found else {
            return Ok(false);
        };
        same_step(alloc, view.heap, first, step)
    }
}
