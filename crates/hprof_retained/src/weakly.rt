//! The classes and objects that only weak references reach.

ghost use Rattle.std.specs.List.Sorted.{IsStrictlyIncreasing};

use hprof_numbers::find;

/// The classes and objects that references of any kind reach from a GC root, and strong ones alone do not.
#[derive(Drop)]
pub struct WeaklyHeld {
    /// The nodes, in ascending order.
    pub(crate) nodes: Vec<u64>,
    /// The bytes of their fields and elements.
    pub(crate) bytes: u128,
    ghost ascend: { IsStrictlyIncreasing nodes.items },
}

impl WeaklyHeld {
    ghost use Rattle.std.specs.Prelude.{◌≡◌, ◌↔◌, List, IsTrue};
    ghost use Rattle.hprof_values.specs.declared.ids.IdSize.{IdSize};
    ghost use Rattle.hprof_items.specs.FactValue.{FactValue};
    ghost use Rattle.hprof_retained.specs.Weakly.{AreWeaklyHeld, IsWeaklyHeld, weak_sum_of};

    /// Returns whether only weak references reach a node. Allocates nothing.
    pub fn is_held(&self, node: u64) -> bool
        ensures { (ids : IdSize) (facts : List FactValue) → AreWeaklyHeld ids facts self.now → IsTrue result ↔ IsWeaklyHeld ids facts node }
    {
        find(&self.nodes, node).is_some()
    }

    /// Returns the bytes of the fields and elements of these nodes.
    pub fn bytes(&self) -> u128
        ensures { result ≡ (weak_sum_of self.now).bytes }
    {
        self.bytes
    }

    /// Returns the number of these nodes.
    pub fn objects(&self) -> usize
        ensures { result ≡ (weak_sum_of self.now).objects }
    {
        self.nodes.len()
    }
}
