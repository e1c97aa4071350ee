//! The contents of an instance or an array.

use hprof_values::{Basic, IdList};

/// The contents of an instance or an array. The bytes and the elements borrow from the heap.
#[derive(Clone, Copy, Debug, PartialEq, Eq)]
pub enum ObjectDump<'a> {
    /// An instance.
    Instance {
        /// The object.
        id: u64,
        /// The serial number of the stack trace.
        trace: u32,
        /// Its class.
        class: u64,
        /// The values of its fields: those of its class, then of its superclass, and so on.
        bytes: &'a [u8],
    },
    /// An object array.
    ObjArray {
        /// The array.
        id: u64,
        /// The serial number of the stack trace.
        trace: u32,
        /// The class of the array.
        class: u64,
        /// Its elements.
        elements: IdList<'a>,
    },
    /// A primitive array.
    PrimArray {
        /// The array.
        id: u64,
        /// The serial number of the stack trace.
        trace: u32,
        /// The type of its elements.
        elem: Basic,
        /// The bytes of its elements.
        bytes: &'a [u8],
    },
}
