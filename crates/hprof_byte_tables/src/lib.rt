//! Tables of bytes by key: the bytes of all rows lie in one vector, each row after its length.
//!
//! Begin with [`BytesTable`].
#![tactic(auto)]

mod bytes_table;
mod framed_rows;
mod lent_bytes;

pub use bytes_table::{BytesRows, BytesTable};
