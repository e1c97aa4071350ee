//! Graphs by numbers: sorted nodes whose numbers are their places, lists of numbers that take few bytes, for each node of a graph the nodes
//! that it leads to and the nodes with an edge to it, and a depth-first search.
//!
//! Begin with [`Graph`] and [`depth_first`].
#![tactic(auto)]

mod building;
mod depth;
mod edges;
mod graph;
mod hints;
mod lists;
mod numbered;
mod numbers;
mod predecessors;
mod renumbering;
mod searching;
mod trail;
mod turning;

pub use building::predecessors_of;
pub use depth::DepthFirst;
pub use edges::numbers_of;
pub use graph::Graph;
pub use lists::Lists;
pub use numbered::{Numbered, find};
pub use numbers::Numbers;
pub use predecessors::Predecessors;
pub use renumbering::renumbered;
pub use searching::depth_first;
pub use turning::turned;
