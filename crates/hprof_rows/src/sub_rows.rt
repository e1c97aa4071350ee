//! An iterator over the sub-records of a heap.

ghost use Rattle.hprof_byte_tables.specs.BytesTable.{byte_rows_left};
ghost use Rattle.hprof_rows.specs.SubRow.{AreWritable, AreWritable-prop, HasEnded, HasEnded-prop};

use crate::sub_row::SubRow;
use hprof_byte_tables::BytesRows;
use hprof_values::{IdSize, Root};
use std::collections::btree_set;

/// An iterator over the sub-records of a heap, in canonical order: roots, classes, objects.
#[derive(Drop)]
pub struct SubRows<'a> {
    ids: IdSize,
    roots: btree_set::Iter<'a, Root>,
    classes: BytesRows<'a>,
    objects: BytesRows<'a>,
    // Whether roots and classes were found to be at their ends, so that they are not asked again for each object.
    at_objects: bool,
    ghost ended: { HasEnded at_objects roots (byte_rows_left classes) } by { HasEnded-prop at_objects roots (byte_rows_left classes) },
    // Each of them can be written.
    ghost sound: { AreWritable ids roots (byte_rows_left classes) (byte_rows_left objects) } by { AreWritable-prop ids roots
        (byte_rows_left classes) (byte_rows_left objects) },
}

impl<'a> SubRows<'a> {
    ghost use Rattle.std.specs.Prelude.{◌≡◌};
    ghost use Rattle.hprof_rows.specs.SubRow.{facts_of_subs};
    ghost use Rattle.hprof_rows.specs.SubRows.{YieldsSub, subs_left, subs_ids};

    /// Returns the sub-records of these tables.
    pub fn new(
        ids: IdSize,
        roots: btree_set::Iter<'a, Root>,
        classes: BytesRows<'a>,
        objects: BytesRows<'a>,
    ) -> Self
        requires { AreWritable ids roots (byte_rows_left classes) (byte_rows_left objects) }
        ensures all { subs_left result ≡ facts_of_subs ids roots.entry (byte_rows_left classes.entry) (byte_rows_left objects.entry) }
        ensures ids { subs_ids result ≡ ids }
    {
        SubRows {
            ids,
            roots,
            classes,
            objects,
            at_objects: false,
        }
    }

    /// Returns the size of their identifiers.
    pub fn ids(&self) -> IdSize
        ensures { result ≡ subs_ids self.now }
    {
        self.ids
    }

    /// Returns the next sub-record.
    #[inline(always)]
    pub fn next(&mut self) -> Option<SubRow<'a>>
        ensures { YieldsSub self.old result self.new }
    {
        if !self.at_objects {
            if let Some(root) = self.roots.next() {
                return Some(SubRow::Root(*root));
            }
            if let Some((_id, bytes)) = self.classes.next() {
                return Some(SubRow::Class(bytes));
            }
            self.at_objects = true;
        }
        let (id, kept) = self.objects.next()?;
        Some(SubRow::Object { id, kept })
    }
}
