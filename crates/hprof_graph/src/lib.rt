//! The library interface: layouts of classes, fields of objects, references, the class histogram and paths from GC roots, for a heap that
//! is complete, and [`LiveHeap`], which answers after every fact while a dump is still being read.
//!
//! Begin with [`histogram`], [`referrers`] and [`reach`], or with [`LiveHeap::new`], as in example_live.
#![tactic(auto)]

mod behind;
mod by_target;
mod derived;
mod indexed;
pub mod laws;
mod live;
mod live_heap;

pub use hprof_edges::{Edge, Via, edges_of, referrers};
pub use hprof_histogram::{Kind, Row, histogram};
pub use hprof_layouts::{FieldValue, Fields, Layout, Slot, fields, layout};
pub use hprof_reach::{Reach, reach_of as reach};
pub use indexed::Index;
pub use live::Live;
pub use live_heap::LiveHeap;
