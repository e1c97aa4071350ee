//! What the classes and objects of a heap retain, added up by label.
//!
//! Begin with [`write_retained`].
#![tactic(auto)]

mod kind_numbers;
mod kinds;
mod label_sink;
mod labelling;
mod labels;
pub mod laws;
mod node_labels;
mod own_sums;
mod report;
mod retained_sums;
mod row;
mod rows;
mod texts;

pub use labels::{labels_of, labels_over};
pub use node_labels::NodeLabels;
pub use report::{write_retained, write_retained_over};
