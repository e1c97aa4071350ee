//! Parts that can be opened again: slices in memory, and files that were opened once.
//!
//! Begin with [`Parts`] and [`Slices`].
#![tactic(auto)]

mod files;
mod parts;
mod slices;
#[cfg(test)]
mod tests;

pub use files::{FileAt, OpenFiles};
pub use parts::Parts;
pub use slices::Slices;
