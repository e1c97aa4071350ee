//! The objects that the words for other objects are read from: the label, the text of a string, and the name of a thread.
//!
//! Begin with [`words_heap`].
#![tactic(auto)]

mod few;
pub mod laws;
mod needed;
mod words;

pub use few::{Few, few_more, few_of};
pub use words::{words_heap, words_of_few};
