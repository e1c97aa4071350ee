//! The front of a path: one step, or a run of steps of one kind.

ghost use Rattle.std.specs.Prelude.{◌≡◌, ◌+◌, ◌^◌, ◌<◌, ◌≤◌, ℕ, List, ◌∷◌, IfOk, IfSome, OnOk, length};
ghost use Rattle.hprof_heap.specs.HeapFacts.{facts_of, size_of};
ghost use Rattle.hprof_edges.specs.declared.edge.Edge.{Edge};
ghost use Rattle.hprof_reports.specs.Skipped.{AreSkips};
ghost use Rattle.hprof_holders.specs.Views.{IsView};
ghost use Rattle.hprof_why.specs.Folding.{Link};
ghost use Rattle.hprof_why.specs.WhyText.{ArePathFindings, PathFindings};
ghost use Rattle.hprof_why.specs.Walks.{BeginsWith, IsFoundRun, IsGoneOf, IsPartsTextOf, IsRunOf, IsStepOf, step_by};

use crate::alike::same_kind;
use crate::walk::Walk;
use hprof_edges::LeftOut;
use hprof_holders::{HeapView, Step};
use std::alloc::{AllocError, Global};

/// The number of steps from which a run is folded.
const FOLDED: usize = 4;

/// A place on a path: a node, and the nodes behind it.
#[derive(Clone, Copy)]
pub(crate) struct Place<'a> {
    pub(crate) node: u64,
    pub(crate) rest: &'a [u64],
}

/// A run of steps of one kind: their number, and the place behind them.
#[derive(Clone, Copy)]
pub(crate) struct Run<'a> {
    pub(crate) count: usize,
    pub(crate) behind: Place<'a>,
}

/// The front of a path: its first step, the number of nodes behind it that are left out, and the place behind.
#[derive(Clone, Copy)]
pub(crate) struct Front<'a> {
    pub(crate) step: Step,
    pub(crate) more: usize,
    pub(crate) behind: Place<'a>,
}

/// Goes along a run as far as it leads. `start` has its first step, which is `first`, from the node `before`.
fn go_on<'a>(
    alloc: Global,
    view: HeapView<'_>,
    left_out: &LeftOut,
    before: u64,
    first: Step,
    start: Run<'a>,
    walk: &mut Walk,
) -> Result<Run<'a>, AllocError>
    requires view { IsView view }
    requires skips { AreSkips (facts_of view.heap.now) walk.old.names }
    requires fits { start.count + length start.behind.rest.now < 2 ^ 64 }
    ensures run { (found : PathFindings) (edge : Edge) (links : List Link)
        → ArePathFindings (size_of view.entry.heap.now) (facts_of view.entry.heap.now) found → first ≡ step_by found.edges edge
        → IsGoneOf view.entry left_out.now found before edge links start.entry
        → IfOk result (IsRunOf view.entry left_out.now found before edge links) }
    ensures shorter { IfOk result (λ end. length end.behind.rest.now ≤ length start.entry.behind.rest.now) }
    ensures skips { OnOk result (AreSkips (facts_of view.entry.heap.now) walk.new.names) }
{
    let mut run = start;
    while let Some((to, after)) = run.behind.rest.split_first() {
        let is_alike = walk.is_alike(alloc, view, left_out, before, first, run.behind.node, *to)?;
        if !is_alike {
            return Ok(run);
        }
        run = Run {
            count: run.count + 1,
            behind: Place {
                node: *to,
                rest: after,
            },
        };
    }
    Ok(run)
}

/// Returns the run of steps at the front of a path that are of the kind of the first one, through nodes of the kind of the node before it.
/// The first step leads from `before` to the place `behind`.
fn run_at_front<'a>(
    alloc: Global,
    view: HeapView<'_>,
    left_out: &LeftOut,
    before: u64,
    first: Step,
    behind: Place<'a>,
    walk: &mut Walk,
) -> Result<Run<'a>, AllocError>
    requires view { IsView view }
    requires skips { AreSkips (facts_of view.heap.now) walk.old.names }
    requires fits { 1 + length behind.rest.now < 2 ^ 64 }
    ensures run { (found : PathFindings) (edge : Edge) (links : List Link)
        → ArePathFindings (size_of view.entry.heap.now) (facts_of view.entry.heap.now) found → first ≡ step_by found.edges edge
        → IsStepOf view.entry left_out.now found before edge links behind.entry
        → IfOk result (IsFoundRun view.entry left_out.now found before edge links) }
    ensures shorter { IfOk result (λ run. length run.behind.rest.now ≤ length behind.entry.rest.now) }
    ensures skips { OnOk result (AreSkips (facts_of view.entry.heap.now) walk.new.names) }
{
    let is_same = same_kind(alloc, view, before, behind.node)?;
    if !is_same {
        return Ok(Run { count: 0, behind });
    }
    go_on(
        alloc,
        view,
        left_out,
        before,
        first,
        Run { count: 1, behind },
        walk,
    )
}

/// Returns the front of a path from a node: a run if it has at least four steps, and else one step; or `None` if no edge leads to the next
/// node. If memory runs out, the answer is `AllocError`.
pub(crate) fn front_of<'a>(
    alloc: Global,
    view: HeapView<'_>,
    left_out: &LeftOut,
    from: u64,
    to: u64,
    after: &'a [u64],
    walk: &mut Walk,
) -> Result<Option<Front<'a>>, AllocError>
    requires view { IsView view }
    requires skips { AreSkips (facts_of view.heap.now) walk.old.names }
    requires fits { 1 + length after.now < 2 ^ 64 }
    ensures front { (found : PathFindings) (text : List ℕ)
        → ArePathFindings (size_of view.entry.heap.now) (facts_of view.entry.heap.now) found
        → IsPartsTextOf view.entry left_out.now found from (to ∷ after.now) text
        → IfOk result (BeginsWith view.entry left_out.now found text) }
    ensures shorter { IfOk result (λ front. IfSome front (λ front. length front.behind.rest.now ≤ length after.now)) }
    ensures skips { OnOk result (AreSkips (facts_of view.entry.heap.now) walk.new.names) }
{
    let found = walk.step(view, left_out, from, to)?;
    let Some(step) = found else {
        return Ok(None);
    };
    let behind = Place {
        node: to,
        rest: after,
    };
    let like = run_at_front(alloc, view, left_out, from, step, behind, walk)?;
    if like.count < FOLDED {
        return Ok(Some(Front {
            step,
            more: 0,
            behind,
        }));
    }
    Ok(Some(Front {
        step,
        more: like.count - 1,
        behind: like.behind,
    }))
}
