//! Cuts of stretches.

use crate::stretch::Stretch;

/// Objects of a stretch that follow one another. They are a stretch themselves, and can be read without those before them. The cuts of a
/// stretch, one after another, have all of its objects.
#[derive(Clone, Copy)]
pub struct Cut {
    /// The identifier of its first object.
    pub first: u64,
    /// The identifier of its last object.
    pub last: u64,
    /// Its objects.
    pub stretch: Stretch,
}
