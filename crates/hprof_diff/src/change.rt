//! Changes between two heaps.

/// A number before and after.
#[derive(Clone, Copy, Debug, PartialEq, Eq)]
pub struct Delta {
    /// The number in the older heap.
    pub old: u128,
    /// The number in the newer heap.
    pub new: u128,
}

/// The change of the objects of one label.
#[derive(Clone, Copy, Debug, PartialEq, Eq)]
pub struct Change<'a> {
    /// The label.
    pub label: &'a str,
    /// The bytes of its objects.
    pub bytes: Delta,
    /// The number of its objects.
    pub count: Delta,
}
