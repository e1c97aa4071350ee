//! The report `show`: the contents of a class, an instance or an array, decoded.
//!
//! Begin with [`write_show`].
#![tactic(auto)]

mod class_lines;
mod element_lines;
mod entries;
mod few;
mod field_lines;
pub mod laws;
mod number_lines;
mod show;
mod show_over;
mod shown;

pub use show::write_show;
pub use show_over::write_show_over;
