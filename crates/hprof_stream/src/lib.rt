//! Reads one part of a heap dump from pieces, and hands its header and its facts to a sink as they are complete.
//!
//! Begin with [`read_part`], as in example_live. [`PartReader`] takes pieces that the caller has.
#![tactic(auto)]

mod held;
mod item;
pub mod laws;
mod limits;
mod part_fault;
mod part_place;
mod part_reader;
mod progress;
mod reading;
mod rest;
mod sink;
mod summary;
mod tally;

pub use limits::Limits;
pub use part_fault::PartFault;
pub use part_place::PartPlace;
pub use part_reader::PartReader;
pub use reading::read_part;
pub use sink::{Sink, SinkFault};
pub use summary::PartSummary;
pub use tally::Tally;
