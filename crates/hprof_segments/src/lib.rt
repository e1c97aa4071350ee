//! Writes sub-records, which come one after another, in HEAP_DUMP_SEGMENT records that are as full as they can be, so that the canonical
//! dump can be written of objects that are not in memory.
//!
//! `SegmentWriter::new` allocates 1 MiB. No other call allocates.
//!
//! Begin with [`SegmentWriter`].
#![tactic(auto)]

pub mod laws;
mod segment_fault;
mod segment_sink;
mod segment_writer;

pub use segment_fault::SegmentFault;
pub use segment_sink::SegmentSink;
pub use segment_writer::SegmentWriter;
