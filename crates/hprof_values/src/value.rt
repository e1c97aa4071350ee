//! Values, and the three kinds of entries of a class dump.

ghost use Rattle.std.specs.Prelude.{◌≡◌, ◌<◌, ◌^◌};
ghost use Rattle.hprof_values.specs.declared.entry.EntryKind.TheVariants as kinds;
ghost use Rattle.hprof_values.specs.Value.{constant_of, static_of, field_of};

use crate::basic::Basic;
use crate::entry::{Entry, EntryKind};

/// A value with its type.
#[derive(Clone, Copy, Debug, PartialEq, Eq)]
pub struct Value {
    /// The type.
    pub basic: Basic,
    /// The raw bits, right-aligned. The byte of a boolean may have any value.
    pub bits: u64,
}

/// A constant in the constant pool of a class.
#[derive(Clone, Copy, Debug, PartialEq, Eq)]
pub struct Constant {
    /// Its index in the pool.
    pub index: u16,
    /// Its value.
    pub value: Value,
}

/// A static field of a class.
#[derive(Clone, Copy, Debug, PartialEq, Eq)]
pub struct Static {
    /// The identifier of its name.
    pub name: u64,
    /// Its value.
    pub value: Value,
}

/// An instance field that the class itself declares.
#[derive(Clone, Copy, Debug, PartialEq, Eq)]
pub struct Field {
    /// The identifier of its name.
    pub name: u64,
    /// Its type.
    pub basic: Basic,
}

/// An entry of one of the three lists of a class dump, with its own fields.
pub trait ListEntry: Copy {
    ghost use Rattle.hprof_values.specs.declared.ids.IdSize.{IdSize};
    ghost use Rattle.hprof_values.specs.declared.entry.EntryKind.{EntryKind};
    ghost use Rattle.hprof_values.specs.declared.entry.Entry.{Entry};
    ghost use Rattle.hprof_values.specs.Entries.{EntryFits};

    // The list that it stands in.
    ghost KIND: { EntryKind };

    // What an entry is as one of that list.
    ghost of: { Entry → Self };

    /// The list that it stands in.
    const KIND: EntryKind;

    /// Returns the entry as one of that list.
    fn of(entry: Entry) -> Self
        requires { (ids : IdSize) × EntryFits ids KIND entry }
        ensures { result ≡ of entry };
}

impl ListEntry for Constant {
    ghost KIND = { kinds.Constant };

    ghost of = { constant_of };

    const KIND: EntryKind = EntryKind::Constant;

    fn of(entry: Entry) -> Constant
        requires { entry.number < 2 ^ 16 }
        ensures { result ≡ constant_of entry }
    {
        Constant {
            index: entry.number as u16,
            value: Value {
                basic: entry.basic,
                bits: entry.bits,
            },
        }
    }
}

impl ListEntry for Static {
    ghost KIND = { kinds.Static };

    ghost of = { static_of };

    const KIND: EntryKind = EntryKind::Static;

    fn of(entry: Entry) -> Static
        ensures { result ≡ static_of entry }
    {
        Static {
            name: entry.number,
            value: Value {
                basic: entry.basic,
                bits: entry.bits,
            },
        }
    }
}

impl ListEntry for Field {
    ghost KIND = { kinds.Field };

    ghost of = { field_of };

    const KIND: EntryKind = EntryKind::Field;

    fn of(entry: Entry) -> Field
        ensures { result ≡ field_of entry }
    {
        Field {
            name: entry.number,
            basic: entry.basic,
        }
    }
}
