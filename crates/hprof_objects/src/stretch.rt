//! Stretches.

use hprof_stream::PartPlace;

/// Objects of a part that ascend by identifier, with no other object between them, and that stay in the part.
#[derive(Clone, Copy)]
pub struct Stretch {
    /// The number of the part, from 0.
    pub part: usize,
    /// A place before its first object.
    pub place: PartPlace,
    /// The number of facts between the place and its first object.
    pub passed: u64,
    /// The number of its objects.
    pub count: u64,
}
