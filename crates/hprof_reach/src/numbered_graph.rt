//! A heap as a graph by numbers.

use hprof_numbers::{Lists, Numbered, Numbers};

/// The nodes of a heap with their numbers, the references between them, and those that GC roots keep alive.
#[derive(Drop)]
pub struct NumberedGraph {
    /// The classes and objects of the heap.
    pub nodes: Numbered,
    /// For each node, by its number, the numbers of the nodes that it refers to. Repetitions are possible.
    pub edges: Lists,
    /// The numbers of the nodes that GC roots keep alive. Repetitions are possible.
    pub starts: Numbers,
}
