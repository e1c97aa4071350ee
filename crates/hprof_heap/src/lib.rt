//! The heap that one or more parts state together, the gatherer that unites their facts, and look-ups in a heap: class dumps, object dumps,
//! names, and the facts of a table. [`Heap::without_objects`] copies all other facts of a heap, and [`Heap::state`] adds one.
//!
//! The contracts of look-ups are stated in terms of the heap's facts.
//!
//! Begin with [`Gatherer`], into which parts are read, and the methods of [`Heap`]. example_largest reads a heap.
#![tactic(auto)]

mod class_dump;
mod classes;
mod comparing;
mod gather;
mod gatherer;
mod heap;
mod heap_facts;
mod join_refusal;
pub mod laws;
mod names;
mod object_dump;
mod objects;
mod standing;
mod tables;

pub use class_dump::ClassDump;
pub use classes::{find_class, find_class_near, to_class_dump};
pub use comparing::same;
pub use gather::Gather;
pub use gatherer::Gatherer;
pub use heap::Heap;
pub use heap_facts::{class_name, holds_of_heap, id_size, table_facts, table_len};
pub use hprof_byte_tables::BytesTable;
pub use hprof_rows::{Facts, FrameRow, Key, KeyRow, LoadRow, StartRow, Table};
pub use hprof_tables::{Content, Cursor, Relation, Rows, Stated};
pub use join_refusal::JoinRefusal;
pub use names::find_name;
pub use object_dump::ObjectDump;
pub use objects::{find_object, find_object_near, to_object_dump};
pub use standing::{Refusal, Standing};
