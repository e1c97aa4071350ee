//! Sizes that a person types, the memory that objects may take, and scratch in a file that is created late.
//!
//! Begin with [`LateScratch`] and [`memory_for_objects`].
#![tactic(auto)]

mod late_file;
mod late_scratch;
mod memory;
mod scratch_folder;
mod size;
#[cfg(test)]
mod tests;

pub use late_scratch::LateScratch;
pub use memory::{available_of, limit_of, memory_for_objects};
pub use scratch_folder::ScratchFolder;
pub use size::parse_size;
