//! Reads the facts of a part of a heap dump one after the other: the caller asks for the next one, where [`hprof_stream::read_part`] hands
//! them to a sink.
//!
//! Begin with [`FactReader::new`] and [`FactReader::advance`], as in example_names.
#![tactic(auto)]

mod fact_place;
mod fact_reader;
mod kept;
pub mod laws;
mod queue;

pub use fact_place::FactPlace;
pub use fact_reader::FactReader;
