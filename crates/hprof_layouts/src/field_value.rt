//! The fields of an object, with their values.

use hprof_values::Basic;

/// A field of an instance, with its value.
#[derive(Clone, Copy, Debug, PartialEq, Eq)]
pub struct FieldValue {
    /// The class that declares the field: that of the instance, or a superclass.
    pub class: u64,
    /// The identifier of its name.
    pub name: u64,
    /// The type of its value.
    pub basic: Basic,
    /// The raw bits of the value: its bytes as one big-endian number.
    pub bits: u64,
}

/// The fields of an object.
#[derive(Drop)]
pub enum Fields {
    /// The values of an instance, in the order of the slots of its class.
    Values(Vec<FieldValue>),
    /// The layout of its class misses this class.
    Missing(u64),
    /// The class, or this superclass of it, has no dump.
    Cyclic,
    /// The superclasses of the class form a cycle.
    WidthDiffers(u128),
    /// The slots of the class have this number of bytes, and the instance has another.
    NotAnInstance,
    /// The object has no dump.
    NoObject,
}
