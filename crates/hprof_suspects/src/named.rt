//! The nodes that the report names.

ghost use Rattle.std.specs.Prelude.{◌≡◌, ◌<◌, ◌++◌, ℕ, List, All, Contains, IfOk, OnOk, map};
ghost use Rattle.std.specs.List.Sorted.{IsStrictlyIncreasing};
ghost use Rattle.hprof_retained.specs.Tree.{count_of, node_at};
ghost use Rattle.hprof_suspects.specs.Told.{Fits};
ghost use Rattle.hprof_suspects.specs.ToldHeaps.{named_nodes};

use crate::told::Told;
use hprof_reach::sort_once;
use hprof_retained::Retained;
use std::alloc::{AllocError, Global};

/// Appends the nodes at places.
fn push_places(
    nodes: &mut Vec<u64>,
    retained: &Retained,
    places: &[usize],
) -> Result<(), AllocError>
    requires { All (λ place. (0 < place) × (place < count_of retained.now)) places.now }
    ensures { OnOk result (nodes.new.items ≡ nodes.old.items ++ map (node_at retained.now) places.now) }
{
    for place in places {
        nodes.push(retained.node(*place))?;
    }
    Ok(())
}

/// Appends the nodes of all chains.
fn push_chains(nodes: &mut Vec<u64>, retained: &Retained, told: &[Told]) -> Result<(), AllocError>
    requires { All (Fits retained.now) told.now }
    ensures { OnOk result (nodes.new.items ≡ nodes.old.items ++ named_nodes retained.now told.now) }
{
    for suspect in told {
        push_places(nodes, retained, &suspect.chain)?;
    }
    Ok(())
}

/// Returns the nodes of all chains, sorted, each once. If memory runs out, the answer is `AllocError`.
pub(crate) fn nodes_named(
    alloc: Global,
    retained: &Retained,
    told: &[Told],
) -> Result<Vec<u64>, AllocError>
    requires { All (Fits retained.now) told.now }
    ensures ascend { IfOk result (λ nodes. IsStrictlyIncreasing nodes.items) }
    ensures has { IfOk result (λ nodes. (node : ℕ) → Contains (named_nodes retained.now told.now) node → Contains nodes.items node) }
{
    let mut nodes = Vec::new(alloc);
    push_chains(&mut nodes, retained, told)?;
    sort_once(&mut nodes)?;
    Ok(nodes)
}
