//! A reference from one class or object to another.

/// The kind of a reference: the part of the class or object that refers. Ordered as below.
#[derive(Clone, Copy, Debug, PartialEq, Eq, PartialOrd, Ord)]
pub enum Via {
    /// The class of an instance or an object array.
    Class,
    /// The superclass of a class.
    Parent,
    /// The class loader of a class.
    Loader,
    /// The signers of a class.
    Signers,
    /// The protection domain of a class.
    Domain,
    /// A constant of a class.
    Constant,
    /// A static field of a class.
    Static,
    /// A field of an instance.
    Field,
    /// An element of an object array.
    Element,
}

/// A reference from one identifier to another. Ordered by its fields, from first to last.
#[derive(Clone, Copy, Debug, PartialEq, Eq, PartialOrd, Ord)]
pub struct Edge {
    /// The class or object that refers: the referrer.
    pub from: u64,
    /// The kind of the reference.
    pub via: Via,
    /// The index of a constant, a static field or an element in its list, counted from 0 over all entries; the place of an instance field
    /// in the layout of its class; 0 for other kinds.
    pub position: u64,
    /// The identifier that is referred to. It is not 0.
    pub to: u64,
}
