//! The result of a salvage.

use crate::joined::Joined;
use hprof_heap::Heap;
use hprof_stream::PartFault;
use std::fmt;

/// A part with a fault. The facts before the fault were saved.
#[derive(Clone, Copy, Debug, PartialEq, Eq)]
pub struct FaultedPart {
    /// The index of the part, from 0.
    pub index: usize,
    /// Its fault.
    pub fault: PartFault,
}

/// Prints one line, as a join does that refuses the part: the index of the part, and its fault.
impl fmt::Display for FaultedPart {
    fn fmt<W: fmt::Write>(&self, f: &mut fmt::Formatter<W>) -> fmt::Result {
        write!(f, "part {}: {}", self.index, self.fault)
    }
}

/// The result of a salvage.
#[derive(Debug, PartialEq, Eq, Drop)]
pub struct Salvaged {
    /// The number of parts with a whole header, and of facts that were written.
    pub joined: Joined,
    /// The parts with a fault, in order.
    pub faults: Vec<FaultedPart>,
}

/// The result of a salvage, with the heap whose dump was written.
#[derive(Drop)]
pub struct SalvagedHeap {
    /// The numbers, and the faults.
    pub salvaged: Salvaged,
    /// The heap whose dump was written.
    pub heap: Heap,
}
