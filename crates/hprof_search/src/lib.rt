//! A breadth-first search over any graph, with the distance of each node from the starts and a shortest path to it.
//!
//! Begin with [`search`], or with [`search_numbered`] where the edges are listed by number.
#![tactic(auto)]

mod by_identifiers;
mod by_lists;
mod following;
mod kept_search;
pub mod laws;
mod leading;
mod searching;
mod steps;
mod trail;
mod walks;

pub use by_lists::ByLists;
pub use kept_search::Search;
pub use searching::{search, search_numbered};
pub use steps::Steps;
pub use walks::WalksOf;
