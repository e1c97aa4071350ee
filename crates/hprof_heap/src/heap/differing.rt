//! The least key whose facts differ between two heaps.

ghost use Rattle.std.specs.Prelude.{◌≡◌, ◌++◌, None, Some};
ghost use Rattle.hprof_rows.specs.declared.key.Key.{Key};
ghost use Rattle.hprof_rows.specs.Conflict.{IsConsistent, IsLeastConflict};
ghost use Rattle.hprof_rows.specs.EachTable.{IsNumberIn, key_in};
ghost use Rattle.hprof_heap.specs.Heap.{heap_of};

use super::Heap;
use hprof_rows::{Key, Table};

/// The tables whose facts have keys, in the order of the keys.
const KEYED: [Table; 7] = [
    Table::Names,
    Table::Loads,
    Table::Frames,
    Table::Traces,
    Table::Starts,
    Table::Classes,
    Table::Objects,
];

/// Returns the key of the facts with this number in a table.
fn key_under(table: Table, number: u64) -> Option<Key>
    requires { IsNumberIn table number }
    ensures { result ≡ key_in table number }
{
    match table {
        Table::Names => Some(Key::Name(number)),
        Table::Loads => Some(Key::Load(number as u32)),
        Table::Frames => Some(Key::Frame(number)),
        Table::Traces => Some(Key::Trace(number as u32)),
        Table::Starts => Some(Key::Thread(number as u32)),
        Table::Classes => Some(Key::Class(number)),
        Table::Objects => Some(Key::Object(number)),
        Table::Unloads | Table::Ends | Table::Roots => None,
    }
}

impl Heap {
    /// Returns the least key whose facts differ between two heaps. Walks over the tables of both once.
    pub(crate) fn first_difference(&self, other: &Heap) -> Option<Key>
        requires { (heap_of self.now).ids ≡ (heap_of other.now).ids }
        ensures none { result ≡ None → IsConsistent ((heap_of self.now).facts ++ (heap_of other.now).facts) }
        ensures some { (key : Key) → result ≡ Some key → IsLeastConflict ((heap_of self.now).facts ++ (heap_of other.now).facts) key }
    {
        for table in &KEYED {
            if let Some(number) = self.tables.first_difference(*table, &other.tables) {
                return key_under(*table, number);
            }
        }
        None
    }
}
