//! The rows of a histogram.

use hprof_values::Basic;

/// A kind of objects.
#[derive(Clone, Copy, Debug, PartialEq, Eq)]
pub enum Kind {
    /// The instances of a class, and the object arrays of that class.
    Class(u64),
    /// The primitive arrays of this type.
    Prim(Basic),
}

/// The objects of a kind: their number, and the number of their bytes.
#[derive(Clone, Copy, Debug, PartialEq, Eq)]
pub struct Row {
    /// Their kind.
    pub kind: Kind,
    /// Their number, which is not 0.
    pub count: u64,
    /// The number of bytes of their fields and elements.
    pub bytes: u128,
}
