//! The header of a dump.

use hprof_values::IdSize;

/// The version of the format: the text that a dump begins with. Both versions are read in the same way.
#[derive(Clone, Copy, Debug, PartialEq, Eq)]
pub enum Version {
    /// `JAVA PROFILE 1.0.1`
    V101,
    /// `JAVA PROFILE 1.0.2`
    V102,
}

/// The number of bytes in a header.
pub const HEADER_LEN: usize = 31;

/// The header of a dump.
#[derive(Clone, Copy, Debug, PartialEq, Eq)]
pub struct Header {
    /// The version.
    pub version: Version,
    /// The width of the identifiers in the dump.
    pub ids: IdSize,
    /// The time at which the dump was made, in milliseconds since 1 January 1970, 0:00 GMT.
    pub millis: u64,
}
