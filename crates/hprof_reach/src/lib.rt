//! The objects that GC roots reach, each with its distance and a shortest path to it; and the referrers of an identifier, from an index of
//! the whole heap.
//!
//! Begin with [`reach_of`], [`index_referrers`] and [`graph_by_numbers`].
#![tactic(auto)]

mod by_passes;
mod chosen_edges;
mod edge_sink;
mod from_roots;
mod heap_graph;
mod index;
pub mod laws;
mod node_sink;
mod nodes;
mod numbered_graph;
mod numbering;
mod reach;
mod roots;
mod starts;
mod targets;

pub use by_passes::reach_over;
pub use chosen_edges::{AllEdges, ChosenEdges, KeptEdges};
pub use heap_graph::{HeapGraph, graph_of};
pub use index::{ReferrerIndex, index_referrers};
pub use nodes::{id_of, nodes_of, push_node, sort_once};
pub use numbered_graph::NumberedGraph;
pub use numbering::{edges_over, graph_by_numbers, graph_over};
pub use reach::{Reach, reach_of, reach_without};
pub use roots::roots_of;
