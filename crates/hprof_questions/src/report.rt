//! The reports on a heap and its parts.

use hprof_histogram::Kind;

/// A report on the parts, or on the whole heap.
#[derive(Clone, Copy, Debug, PartialEq, Eq)]
pub enum HeapReport {
    /// `check`: a summary of each part, and the numbers of facts.
    Check,
    /// `histo`: the class histogram.
    Histogram,
    /// `classes`: each class dump, with the objects of the class.
    Classes,
    /// `threads`: each thread, its stack, and the objects that its frames hold.
    Threads,
    /// `suspects`: where most of the memory is held, and what it falls apart into.
    Suspects,
    /// `retained`: the classes and types by what they retain.
    Retained,
}

/// A report on the objects of a class or a type.
#[derive(Clone, Copy, Debug, PartialEq, Eq)]
pub enum KindReport {
    /// `biggest`: those that strong references reach, those that retain the most bytes first.
    Biggest,
    /// `objects`: all of them, the largest first.
    Objects,
}

/// A report on a node: a class or an object.
#[derive(Clone, Copy, Debug, PartialEq, Eq)]
pub enum NodeReport {
    /// `show`: the contents of a class, an instance or an array, decoded.
    Show,
    /// `why`: the shortest path of strong references from a GC root, with names.
    Why,
    /// `who`: its GC roots, and each reference to it, with names.
    Who,
    /// `keeps`: what keeps it alive, and what it keeps alive itself.
    Keeps,
    /// `text`: the text of a string, or of an array of chars or bytes.
    Text,
    /// `object`: the contents of a class and an object.
    Object,
    /// `refs`: each reference to it.
    Refs,
    /// `path`: the shortest path from a GC root.
    Path,
}

/// The objects of a class or a type.
#[derive(Clone, Copy, Debug, PartialEq, Eq)]
pub enum Kinds<'a> {
    /// The objects of a class with this identifier, or the arrays of a primitive type.
    Of(Kind),
    /// The objects of all classes that this name means.
    Named(&'a [u8]),
}

/// The class or the object that a report is on.
#[derive(Clone, Copy, Debug, PartialEq, Eq)]
pub enum Node<'a> {
    /// The class or the object with this identifier.
    Identifier(u64),
    /// The class that this name means.
    Named(&'a [u8]),
}

/// A report on a heap and its parts.
#[derive(Clone, Copy, Debug, PartialEq, Eq)]
pub enum Report<'a> {
    /// A report on the parts, or on the whole heap.
    Heap(HeapReport),
    /// A report on the objects of a class or a type.
    Kind(KindReport, Kinds<'a>),
    /// A report on a class or an object.
    Node(NodeReport, Node<'a>),
}
