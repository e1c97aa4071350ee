//! Joins parts that are larger than the memory into one 1.0.1 dump, for tools that read no other.
//!
//! All sub-records stand in one HEAP_DUMP record, whose length comes before its body. So the stored objects are merged twice: to add up
//! their bytes, and to write them.
//!
//! Begin with [`join101_stored`].
#![tactic(auto)]

mod body_len;
mod byte_counter;
mod dumping101;
mod joining101;
mod row_writer;

pub use joining101::join101_stored;
