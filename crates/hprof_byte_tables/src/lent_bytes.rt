//! Rows of bytes as rows that two tables are compared by.

ghost use Rattle.std.specs.Prelude.{◌≡◌, ◌↔◌, ℕ, List, IfOk, OnErr, IsTrue};
ghost use Rattle.std.specs.Iterator.{YieldsFirstBy};
ghost use Rattle.hprof_byte_tables.specs.BytesTable.{byte_rows_left};

use crate::bytes_table::BytesRows;
use hprof_tables::{Content, KeyedRows};
use std::alloc::{AllocError, Global};

/// A row of bytes.
#[derive(Clone, Copy)]
pub(crate) struct LentBytes<'a>(pub(crate) &'a [u8]);

impl Content for LentBytes<'_> {
    ghost content = { λ row. row.0.now };

    ghost refuses = { λ _. ⊥ };

    fn agrees(&self, other: &Self) -> bool {
        self.0 == other.0
    }

    fn copied(&self, _alloc: Global) -> Result<Self, AllocError> {
        Ok(*self)
    }
}

impl<'a> KeyedRows<LentBytes<'a>> for BytesRows<'a> {
    ghost left = { byte_rows_left };

    fn next_row(&mut self) -> Option<(u64, LentBytes<'a>)> {
        let (key, bytes) = self.next()?;
        Some((key, LentBytes(bytes)))
    }
}
