//! The edges of a graph, as lists of numbers.

ghost use Rattle.std.specs.Prelude.{◌≡◌, ◌↔◌, ◌<◌, ◌≤◌, ◌+◌, ◌++◌, ◌∷◌, [], ℕ, None, Contains, IfOk, OnOk, length, slice_index};
ghost use Rattle.hprof_numbers.specs.Appends.{Appends};
ghost use Rattle.hprof_numbers.specs.Lists.{IsListed, count_in};
ghost use Rattle.hprof_numbers.specs.Numbered.{nodes_in};
ghost use Rattle.hprof_numbers.specs.Numbers.{bound_of, items_in};
ghost use Rattle.hprof_numbers.specs.Targets.{AreNumberedEdges, IsNumberOf, number_or};

use crate::graph::Graph;
use crate::lists::Lists;
use crate::numbered::Numbered;
use crate::numbers::Numbers;
use std::alloc::{AllocError, Global};

/// Appends the number of each target. One that is no node has the number `other`, or is left out if there is none. If memory runs out, the
/// answer is `AllocError` and `items` is unspecified.
// Inlined, so that `other` is known in the loop over edges.
#[inline(always)]
fn put_targets(
    items: &mut Numbers,
    nodes: &Numbered,
    other: Option<usize>,
    targets: &[u64],
) -> Result<(), AllocError>
    requires fit { (target number : ℕ) → number_or (nodes_in nodes.now) other target ≡ Some number → number < bound_of items.old }
    ensures items { OnOk result
        (Appends (IsNumberOf (nodes_in nodes.now) other (Contains targets.now)) (items_in items.old) (items_in items.new)) }
    ensures bound { OnOk result (bound_of items.new ≡ bound_of items.old) }
{
    for target in targets {
        if let Some(number) = nodes.number_of(*target).or(other) {
            items.push(number)?;
        }
    }
    Ok(())
}

/// Returns the numbers of those targets that are nodes. If memory runs out, the answer is `AllocError`.
pub fn numbers_of(alloc: Global, nodes: &Numbered, targets: &[u64]) -> Result<Numbers, AllocError>
    ensures { IfOk result (λ numbers. (number : ℕ) → Contains (items_in numbers) number
        ↔ ((number < length (nodes_in nodes.now)) × Contains targets.now (slice_index (nodes_in nodes.now) number))) }
{
    let mut numbers = Numbers::empty(alloc, nodes.len());
    put_targets(&mut numbers, nodes, None, targets)?;
    Ok(numbers)
}

/// Returns for each node of a graph, by its number, the numbers of its targets, in one pass over all edges. A target that is no node has
/// the number `other`, or is left out if there is none. All numbers are below `most`, and there is room for so many lists. If memory runs
/// out, the answer is `AllocError`.
// Inlined, as `put_targets` is.
#[inline(always)]
pub(crate) fn numbered_edges<G: Graph>(
    alloc: Global,
    graph: &mut G,
    nodes: &Numbered,
    other: Option<usize>,
    most: usize,
) -> Result<Lists, AllocError>
    requires stands { G.stands graph.old }
    requires fit { (target number : ℕ) → number_or (nodes_in nodes.now) other target ≡ Some number → number < most }
    ensures edges { IfOk result (AreNumberedEdges (G.leads graph.old) (nodes_in nodes.now) other) }
    ensures stays { (node to : ℕ) → G.leads graph.new node to ↔ G.leads graph.old node to }
    ensures stands { G.stands graph.new }
{
    let mut ends = Numbers::with_capacity(alloc, most, 0)?;
    let mut items = Numbers::empty(alloc, most);
    let mut targets = Vec::new(alloc);
    for number in 0..nodes.len() {
        graph.targets_of(nodes.node(number), &mut targets)?;
        put_targets(&mut items, nodes, other, &targets)?;
        ends.push_or_widen(alloc, items.len())?;
    }
    Ok(Lists { ends, items })
}

/// Appends the numbers of those targets that are nodes, and where they end. If memory runs out, the answer is `AllocError`, and `ends` and
/// `items` are unspecified.
#[inline(always)]
fn put_row(
    alloc: Global,
    ends: &mut Numbers,
    items: &mut Numbers,
    nodes: &Numbered,
    targets: &[u64],
) -> Result<(), AllocError>
    requires { length (nodes_in nodes.now) ≤ bound_of items.old }
    ensures items { OnOk result
        (Appends (IsNumberOf (nodes_in nodes.now) None (Contains targets.now)) (items_in items.old) (items_in items.new)) }
    ensures ends { OnOk result (items_in ends.new ≡ items_in ends.old ++ length (items_in items.new) ∷ []) }
    ensures bound { OnOk result (bound_of items.new ≡ bound_of items.old) }
{
    put_targets(items, nodes, None, targets)?;
    ends.push_or_widen(alloc, items.len())?;
    Ok(())
}

impl Lists {
    ghost use Rattle.hprof_numbers.specs.Lists.{AreListedBelow, bound_in};

    /// Appends one more list: the numbers of those targets that are nodes. If memory runs out, the answer is `AllocError`, and
    /// the lists are unspecified.
    pub fn push(
        &mut self,
        alloc: Global,
        nodes: &Numbered,
        targets: &[u64],
    ) -> Result<(), AllocError>
        requires { length (nodes_in nodes.now) ≤ bound_in self.old }
        ensures as_many { OnOk result (count_in self.new ≡ count_in self.old + 1) }
        ensures before { OnOk result ((number one : ℕ) → number < count_in self.old
            → IsListed self.new number one ↔ IsListed self.old number one) }
        ensures last { OnOk result ((one : ℕ) → IsListed self.new (count_in self.old) one
            ↔ ((one < length (nodes_in nodes.now)) × Contains targets.now (slice_index (nodes_in nodes.now) one))) }
        ensures bound { length (nodes_in nodes.now) ≤ bound_in self.new }
        ensures few { count_in self.new ≤ count_in self.old + 1 }
        ensures below { AreListedBelow self.old (length (nodes_in nodes.now)) → AreListedBelow self.new (length (nodes_in nodes.now)) }
    {
        match put_row(alloc, &mut self.ends, &mut self.items, nodes, targets) {
            Ok(()) => Ok(()),
            Err(fault) => {
                self.ends = Numbers::empty(alloc, 0);
                self.items = Numbers::empty(alloc, nodes.len());
                Err(fault)
            }
        }
    }
}
