//! The classes that a word means, and what is printed of them: their objects, or the classes themselves.
//!
//! Begin with [`classes_meant`].
#![tactic(auto)]

mod gathering;
mod judging;
mod labels;
pub mod laws;
mod meant;
mod named;
mod objects;

pub use labels::{array_label, bare_label};
pub use meant::{class_dumps_meant, classes_meant, classes_meant_over};
pub use named::write_classes_of_name;
pub use objects::{write_objects_of_classes, write_objects_of_classes_over};
