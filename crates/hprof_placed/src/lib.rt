//! Reads a part of a heap dump into a sink that is told places of the part while it is read, so that some of it can be read again later.
//!
//! Begin with [`read_placed`].
#![tactic(auto)]

pub mod laws;
mod placed_sink;
mod reading;

pub use placed_sink::PlacedSink;
pub use reading::read_placed;
