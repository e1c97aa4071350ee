//! The parts that records and sub-records of an HPROF heap dump are made of: identifiers, types, tags, GC roots, bounded fields, lists of
//! identifiers, and the entries of a class dump (constants, static fields and instance fields). Lists borrow the bytes of the dump and are
//! read in place.
//!
//! The format is that of the comment "HPROF binary format" in OpenJDK's heapDumper.cpp. No call of this crate allocates.
//!
//! Begin with [`IdSize`], [`Basic`] and [`Value`].
#![tactic(auto)]

mod basic;
mod bounded_bytes;
mod entries;
mod entry;
mod entry_span;
mod ids;
pub mod laws;
mod lists;
pub mod number;
mod number_writing;
mod parse_stop;
mod reason;
mod record_tag;
mod root;
mod sub_tag;
mod value;

pub use basic::Basic;
pub use bounded_bytes::BoundedBytes;
pub use entry::{Entry, EntryKind, entry_end};
pub use entry_span::{EntrySpan, list_at};
pub use ids::IdSize;
pub use lists::entry_list::{ConstantList, EntryIterator, EntryList, FieldList, StaticList};
pub use lists::ids::{IdList, Ids};
pub use number_writing::{Number, numbers_fit, numbers_len, put_numbers};
pub use parse_stop::ParseStop;
pub use reason::Reason;
pub use record_tag::RecordTag;
pub use root::Root;
pub use sub_tag::SubTag;
pub use value::{Constant, Field, ListEntry, Static, Value};
