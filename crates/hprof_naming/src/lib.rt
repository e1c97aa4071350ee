//! Names, classes and types as reports print them, and the text of strings and arrays.
//!
//! Begin with [`class_label`], as in example_largest, and [`name_text`].
#![tactic(auto)]

mod called;
mod class_names;
pub mod laws;
mod meant_label;
mod naming;
mod object_text;
mod text;
mod type_names;
mod types;

pub use called::{is_called, is_named};
pub use class_names::ClassNames;
pub use meant_label::MeantLabel;
pub use naming::{class_label, label_of, name_text};
pub use object_text::{first_named, target_of_field, text_of};
pub use text::{Coding, Text, Units};
pub use type_names::arrays_named;
pub use types::type_word;
