//! The tables of a heap.

/// A table of a heap: a kind of facts. The variants are in the order in which a dump has the tables.
#[derive(Clone, Copy, Debug, PartialEq, Eq)]
pub enum Table {
    /// The names, by identifier.
    Names,
    /// The loaded classes, by serial number.
    Loads,
    /// The unloaded classes, by serial number.
    Unloads,
    /// The stack frames, by identifier.
    Frames,
    /// The stack traces, by serial number.
    Traces,
    /// The threads that were started, by serial number.
    Starts,
    /// The threads that ended, by serial number.
    Ends,
    /// The GC roots, ordered as the bytes that encode them.
    Roots,
    /// The class dumps, by identifier.
    Classes,
    /// The instances and arrays, by identifier.
    Objects,
}
