//! Names in modified UTF-8: decoding, encoding and printing; and identifiers and floats as text.
//!
//! Begin with [`printed`], which prints bytes of modified UTF-8, and [`parse_id`]. example_names prints names so.
#![tactic(auto)]

mod decoding;
mod encoding;
mod identifier;
mod java_floats;
pub mod laws;
mod printing;

pub use decoding::{is_modified, units};
pub use encoding::encode_units;
pub use identifier::{parse_id, push_id};
pub use java_floats::{FloatText, double_text, float_text};
pub use printing::{printed, push_unit};
