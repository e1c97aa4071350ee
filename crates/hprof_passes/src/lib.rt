//! Going through the objects of a heap, wherever they are: in memory, or in the parts and in scratch.
//!
//! A report that needs each object once is written over [`Objects`]. It takes a heap, of which it asks all facts but objects, and gives the
//! objects to an [`ObjectSink`], in ascending order of identifier. A report that needs a few objects picks them by their identifiers.
#![tactic(auto)]

mod in_heap;
mod object_sink;
mod objects;
mod pass_fault;
mod picking;

pub use in_heap::InHeap;
pub use object_sink::ObjectSink;
pub use objects::Objects;
pub use pass_fault::PassFault;
pub use picking::Picking;
