//! Merges rows of several cursors into a sink. A row is a key and bytes. The rows of a cursor ascend by key. The sink is given each row
//! once, in ascending order, or the merge tells the least key with two contents.
//!
//! Only `merge_rows` allocates: two entries for each cursor, before the first row.
//!
//! Begin with [`merge_rows`].
#![tactic(auto)]

mod contest;
mod contest_tree;
pub mod laws;
mod merge_fault;
mod merging;
mod one_of;
mod refuse_late;
mod row_cursor;
mod row_sink;
mod skip_late;

pub use merge_fault::MergeFault;
pub use merging::merge_rows;
pub use one_of::OneOf;
pub use refuse_late::RefuseLate;
pub use row_cursor::{AscendingCursor, RowCursor};
pub use row_sink::RowSink;
pub use skip_late::{LateFault, SkipLate};
