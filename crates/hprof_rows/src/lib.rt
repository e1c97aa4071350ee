//! The rows of a heap's tables: the key and the content of each fact, the rows that store facts, and the facts that are read from rows.
//!
//! Begin with [`Key`], [`Table`] and [`Facts`].
#![tactic(auto)]

mod facts;
mod kept;
mod key;
mod number_rows;
mod root_set;
mod spelled;
mod sub_row;
mod sub_rows;
mod table;
mod table_rows;
mod trace;

pub use facts::Facts;
pub use kept::decode_object;
pub use key::Key;
pub use number_rows::{FrameRow, KeyRow, LoadRow, StartRow};
pub use root_set::RootSet;
pub use spelled::decode_class;
pub use sub_row::SubRow;
pub use sub_rows::SubRows;
pub use table::Table;
pub use table_rows::TableRows;
pub use trace::{decode_trace, thread_bytes};
