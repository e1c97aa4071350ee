//! The calls of worked cases, with their readers, writers and files, and the comparison of a result with what a table says.
#![tactic(auto)]

mod blocks;
mod conversing;
mod engine;
mod failing;
mod graph;
mod heaps;
mod listing;
mod outcome;
mod reading;
mod shelf;
mod stored;
mod streams;
mod trouble;
mod words;

pub use blocks::{Blocks, number};
pub use conversing::check_asked;
pub use engine::{Call, Given, Ways, made};
pub use graph::Question;
pub use outcome::{Counts, Outcome};
pub use shelf::{Disk, Opened, Shelf};
pub use stored::check_stored;
pub use streams::{End, Feed, Reader, Room, Writer};
pub use trouble::Trouble;
pub use words::{Word, words_of};
