//! Parts that are larger than the memory. At the first reading all facts but objects go into a heap, and the objects into a log. The
//! canonical dump of the parts is written of both.
//!
//! Begin with [`join_stored`] or [`salvage_stored`], or with [`read_stored`] and [`InParts`].
#![tactic(auto)]

mod agreed;
mod dumping;
mod finding;
mod in_parts;
mod in_parts_fault;
mod joining;
pub mod laws;
mod merge_stop;
mod no_watch;
mod object_row;
mod reading;
mod row_counter;
mod row_decoder;
mod salvaging;
mod saving;
mod stored_fault;
mod stored_heap;
mod stored_sink;
mod sub_buffer;
mod watched_sink;

pub use agreed::Agreed;
pub use dumping::{write_front, write_stored_dump};
pub use finding::find_conflict;
pub use in_parts::InParts;
pub use in_parts_fault::InPartsFault;
pub use joining::join_stored;
pub use merge_stop::{fault_of_first_pass, fault_of_stop};
pub use reading::{read_stored, read_watched};
pub use salvaging::salvage_stored;
pub use stored_fault::StoredFault;
pub use stored_heap::StoredHeap;
