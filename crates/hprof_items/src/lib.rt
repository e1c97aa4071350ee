//! The header, the record heads and the facts of an HPROF heap dump: reading each from bytes, and what its bytes are.
//!
//! The format is that of the comment "HPROF binary format" in OpenJDK's heapDumper.cpp. No call of this crate allocates.
//!
//! Begin with [`Fact`], which each record or sub-record states. [`read_head`] and [`read_body`] read a record, [`read_sub`] a sub-record.
#![tactic(auto)]

mod class_reading;
mod fact;
mod head;
mod head_reading;
mod header;
mod header_reading;
pub mod laws;
mod object_reading;
mod record_reading;
mod root_reading;
mod sub_reading;
pub mod tag;
mod walk;

pub use fact::Fact;
pub use head::{HEAD_LEN, Head, HeadKind};
pub use head_reading::read_head;
pub use header::{HEADER_LEN, Header, Version};
pub use header_reading::{SIZED_LEN, TEXT_LEN, TEXT_V101, TEXT_V102, read_header};
pub use hprof_values::{
    Basic, Constant, ConstantList, Entry, EntryIterator, EntryKind, EntryList, Field, FieldList,
    IdList, IdSize, Ids, ListEntry, ParseStop, Reason, RecordTag, Root, Static, StaticList, SubTag,
    Value,
};
pub use record_reading::{read_body, read_body_into};
pub use sub_reading::{read_sub, read_sub_into};
pub use walk::{Walk, resume_sub_record};
