//! Classes, objects and values, each in a line as people read it.
//!
//! Begin with [`node_text`] and [`value_text`].
#![tactic(auto)]

pub mod laws;
mod nodes;
mod quotes;
mod references;
mod values;

pub use nodes::{kind_text, node_text};
pub use quotes::quoted;
pub use references::{object_words, reference_text};
pub use values::value_text;
