//! Weak references: which fields of instances do not keep alive what they refer to, and the table of them, which searches leave out.
//!
//! Begin with [`weak_fields`].
#![tactic(auto)]

mod called;
mod flags;
pub mod laws;
mod links;
mod row_sink;
mod rows;
mod strengths;
mod subclasses;
mod table;
mod weak_classes;

pub use table::{weak_fields, weak_fields_over};
