//! Writes the dump of a heap to a target: the canonical dump, with sub-records in segments that are as full as they can be, or the 1.0.1
//! dump, with all sub-records in one HEAP_DUMP record, for tools that read no other.
//!
//! No call of this crate allocates.
//!
//! Begin with [`write_canonical`] and [`write_v101`]. example_join writes a canonical dump.
#![tactic(auto)]

mod batch;
mod canonical;
mod dump101;
mod fault;
pub mod laws;
mod segments;
mod subs;

pub use batch::Batch;
pub use canonical::{write_canonical, write_records};
pub use dump101::write_v101;
pub use fault::DumpFault;
