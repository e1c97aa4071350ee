//! The slots of a class, in the order of the bytes of an instance.

use hprof_values::Basic;

/// A field of the instances of a class.
#[derive(Clone, Copy, Debug, PartialEq, Eq)]
pub struct Slot {
    /// The class that declares the field: that of the instance, or a superclass.
    pub class: u64,
    /// The identifier of its name.
    pub name: u64,
    /// The type of its value.
    pub basic: Basic,
}

/// The layout of the bytes of a class's instances.
#[derive(Drop)]
pub enum Layout {
    /// The slots: those of the class, then of its superclass, and so on.
    Known(Vec<Slot>),
    /// The class, or this superclass of it, has no dump.
    Missing(u64),
    /// The superclasses form a cycle.
    Cyclic,
}
