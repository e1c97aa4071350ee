//! The report on where most of the memory of a heap is held, and what it falls apart into.
//!
//! Begin with [`write_suspects`], or [`write_suspects_over`] where the objects are not in memory.
#![tactic(auto)]

mod alone;
mod alone_over;
mod chain;
mod found_out;
mod heads;
mod label_sums;
mod large;
pub mod laws;
mod lines;
mod named;
mod only;
mod parts;
mod piece_lines;
mod pieces;
mod report;
mod suspects;
mod told;
mod writing;
mod writing_over;

pub use writing::write_suspects;
pub use writing_over::write_suspects_over;
