//! References between classes and objects, as edges: those in a class dump or an object dump, those from an identifier, and those to it.
//!
//! Begin with [`edges_of`] and [`referrers`], as in example_referrers.
#![tactic(auto)]

mod collect;
mod edge;
mod edge_set;
mod field_place;
mod from_known;
mod kept_edges;
pub mod laws;
mod least;
mod left_out;
mod of_class;
mod of_identifier;
mod of_object;
mod putting;
mod referrer_sink;
mod sorting;
mod to_identifier;

pub use collect::Collect;
pub use edge::{Edge, Via};
pub use edge_set::EdgeSet;
pub use field_place::FieldPlace;
pub use from_known::{Cursors, known_edges, known_object_edges};
pub use kept_edges::kept_object_edges;
pub use least::least_edge;
pub use left_out::LeftOut;
pub use of_class::class_edges;
pub use of_identifier::edges_of;
pub use of_object::{array_edges, edge_to_class, field_edges, object_edges};
pub use sorting::sort_edges;
pub use to_identifier::{referrers, referrers_over};
