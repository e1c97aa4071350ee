//! Layouts of classes, and the fields of objects: for one class or object of a heap, or for many instances, with layouts that are updated
//! as class dumps come. With these, finding the references of an instance costs time for its references, not for its fields.
//!
//! Begin with [`layout`] and [`fields`].
#![tactic(auto)]

mod chain;
mod class_layout;
mod cutting;
mod field_value;
mod known;
pub mod laws;
mod object_fields;
mod of_heap;
mod own_fields;
mod plan;
mod reference;
mod slot;
mod waiting_lists;

pub use class_layout::layout;
pub use field_value::{FieldValue, Fields};
pub use known::KnownLayouts;
pub use object_fields::fields;
pub use of_heap::known_layouts;
pub use reference::{Reference, Wanted, refers};
pub use slot::{Layout, Slot};
pub use waiting_lists::WaitingLists;
