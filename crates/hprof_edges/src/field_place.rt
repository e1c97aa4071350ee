//! A field of the instances of a class.

/// A field of the instances of a class, by its place. Ordered by class, then by place.
#[derive(Clone, Copy, Debug, PartialEq, Eq, PartialOrd, Ord)]
pub struct FieldPlace {
    /// The class.
    pub class: u64,
    /// The place of the field in the layout of the class, counted from 0.
    pub place: u64,
}
