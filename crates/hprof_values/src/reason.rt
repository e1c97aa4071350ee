//! Reasons why bytes are not a heap dump.

/// The reason why bytes are not a heap dump.
#[derive(Clone, Copy, Debug, PartialEq, Eq)]
pub enum Reason {
    /// The file does not begin with the text of either version.
    BadMagic,
    /// The identifier size is neither 4 nor 8.
    BadIdSize,
    /// The bytes end within an item.
    Truncated,
    /// A record has a length that its tag does not allow.
    BadLength,
    /// A sub-record has an unknown tag.
    BadSubTag,
    /// A sub-record ends past the end of its record.
    PastEnd,
    /// A value has an unknown type, or a type that is not allowed there.
    BadType,
}
