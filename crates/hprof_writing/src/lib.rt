//! Writes headers, record heads and facts to a target, and tells whether they can be encoded and how long they are.
//!
//! No call of this crate allocates.
//!
//! Begin with [`write_header`] and [`write_fact`].
#![tactic(auto)]

mod class_front;
mod class_writing;
mod fact_writing;
mod fitting;
mod front_fitting;
mod front_lengths;
mod front_parts;
mod front_writing;
mod object_fitting;
mod object_writing;
mod record_fitting;
mod record_front;
mod record_writing;
mod sub_front;
mod writing;

pub use fact_writing::write_fact;
pub use fitting::{fits, spelled_len};
pub use writing::{write_head, write_header};
