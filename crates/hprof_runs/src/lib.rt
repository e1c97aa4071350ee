//! Rows that come in no order. A row is a key and bytes. They are kept in memory, and written to scratch as sorted runs if the caller
//! says so. The cursors over both are merged by `hprof_merge`.
//!
//! Begin with [`Rows`], which takes rows in any order, and [`Runs`].
#![tactic(auto)]

mod ahead;
mod cutting;
mod file_scratch;
mod firsts;
mod header;
mod known_cursor;
pub mod laws;
mod memory_scratch;
mod opening;
mod others;
mod place;
mod rows;
mod run;
mod run_bytes;
mod run_cursor;
mod run_cut;
mod run_fault;
mod run_writing;
mod runs;
mod scratch;
mod scratch_fault;
mod scratch_writer;
mod sorted_rows;
mod spelling;

pub use file_scratch::FileScratch;
pub use firsts::Firsts;
pub use known_cursor::KnownCursor;
pub use memory_scratch::MemoryScratch;
pub use opening::{AnyRows, open_all};
pub use others::Others;
pub use rows::Rows;
pub use run_cursor::RunCursor;
pub use run_cut::RunCut;
pub use run_fault::RunFault;
pub use runs::Runs;
pub use scratch::Scratch;
pub use scratch_fault::ScratchFault;
pub use sorted_rows::SortedRows;
