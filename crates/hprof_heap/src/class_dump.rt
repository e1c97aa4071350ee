//! The contents of a class dump.

use hprof_values::{ConstantList, FieldList, StaticList};

/// The contents of a class dump. The lists borrow from the heap.
#[derive(Clone, Copy, Debug, PartialEq, Eq)]
pub struct ClassDump<'a> {
    /// The class object.
    pub id: u64,
    /// The serial number of the stack trace.
    pub trace: u32,
    /// Its superclass, or 0 if it has none.
    pub parent: u64,
    /// Its class loader.
    pub loader: u64,
    /// Its signers.
    pub signers: u64,
    /// Its protection domain.
    pub domain: u64,
    /// The first reserved identifier.
    pub reserved1: u64,
    /// The second reserved identifier.
    pub reserved2: u64,
    /// The size of an instance, in bytes, as the dump states it.
    pub size: u32,
    /// Its constants.
    pub constants: ConstantList<'a>,
    /// Its static fields.
    pub statics: StaticList<'a>,
    /// Its own instance fields.
    pub fields: FieldList<'a>,
}
