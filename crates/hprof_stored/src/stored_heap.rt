//! The heap of parts, whose objects stand apart.

use hprof_heap::Heap;
use hprof_objects::ObjectLog;

/// The heap of all facts of parts but their objects, and the log of these.
#[derive(Drop)]
pub struct StoredHeap<S> {
    /// All facts but objects.
    pub heap: Heap,
    /// The objects: those that stay in their part, in memory, and in scratch.
    pub objects: ObjectLog<S>,
}
