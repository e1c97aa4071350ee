//! Edges that are told by the nodes themselves.

ghost use Rattle.std.specs.Prelude.{◌≡◌, ◌<◌, ◌↔◌, ℕ, OnOk, All, Contains, length, slice_index};
ghost use Rattle.hprof_numbers.specs.Numbered.{nodes_in};

use crate::steps::Steps;
use hprof_numbers::{Graph, Numbered};
use std::alloc::{AllocError, Global};

/// The edges of a graph, whose targets are looked up among the nodes.
#[derive(Drop)]
pub(crate) struct ByIdentifiers<G> {
    graph: G,
    /// Room for the targets of one node.
    targets: Vec<u64>,
}

impl<G: Graph + Drop> ByIdentifiers<G> {
    /// Returns the edges of a graph.
    pub(crate) fn new(alloc: Global, graph: G) -> Self
        ensures { result.graph ≡ graph }
    {
        ByIdentifiers {
            graph,
            targets: Vec::new(alloc),
        }
    }
}

/// Sets `numbers` to those of the targets that are nodes. If memory runs out, or a number does not fit four bytes, the answer is
/// `AllocError` and the contents of `numbers` are unspecified.
fn look_up(numbered: &Numbered, targets: &[u64], numbers: &mut Vec<u32>) -> Result<(), AllocError>
    ensures below { OnOk result (All (λ number. number < length (nodes_in numbered.now)) numbers.new.items) }
    ensures ok { OnOk result ((to : ℕ) → to < length (nodes_in numbered.now)
        → Contains numbers.new.items to ↔ Contains targets.now (slice_index (nodes_in numbered.now) to)) }
{
    numbers.clear();
    for target in targets {
        if let Some(number) = numbered.number_of(*target) {
            let Ok(key) = u32::try_from(number) else {
                return Err(AllocError);
            };
            numbers.push(key)?;
        }
    }
    Ok(())
}

impl<G: Graph + Drop> Steps for ByIdentifiers<G> {
    ghost leads = { λ it nodes. G.leads it.graph };

    ghost stands = { λ it nodes. G.stands it.graph };

    fn steps_from(
        &mut self,
        numbered: &Numbered,
        from: usize,
        numbers: &mut Vec<u32>,
    ) -> Result<(), AllocError> {
        self.graph
            .targets_of(numbered.node(from), &mut self.targets)?;
        look_up(numbered, &self.targets, numbers)
    }
}
