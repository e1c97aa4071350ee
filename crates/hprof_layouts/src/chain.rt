//! The chain of superclasses of a class: the class, its superclass, and so on.

ghost use Rattle.std.specs.Prelude.{◌≡◌, ◌⊎◌};
ghost use Rattle.hprof_heap.specs.HeapFacts.{facts_of};
ghost use Rattle.hprof_layouts.specs.Layout.{EndsAs};

use hprof_heap::{Heap, Table, find_class, table_len};

/// The way in which the chain of a class ends.
#[derive(Clone, Copy, Debug, PartialEq, Eq)]
pub(crate) enum ChainEnd {
    /// It ends at 0, after this number of classes.
    Zero(usize),
    /// It ends at a class that has no dump.
    Missing(u64),
    /// It does not end: it comes to a class again.
    Cyclic,
}

/// A class on the chain. If the chain comes to it again, it is cyclic.
#[derive(Clone, Copy)]
struct Mark {
    /// The class.
    class: u64,
    /// The number of classes before it on the chain.
    before: usize,
}

impl Mark {
    /// Returns the mark after `passed` classes. The mark moves to the current class each time twice as many classes were passed, so a cycle
    /// is found after a few rounds of it, and each of its classes is looked up only a few times.
    fn behind(self, passed: usize, at: u64) -> Mark
        ensures { (result.class ≡ self.class) ⊎ (result.class ≡ at) }
    {
        if passed / 2 < self.before {
            return self;
        }
        Mark {
            class: at,
            before: passed,
        }
    }
}

/// Returns the way in which the chain of a class ends. The chain is cyclic if it comes to a mark again, or is longer than the number of
/// class dumps. Allocates nothing.
pub(crate) fn chain_end(heap: &Heap, class: u64) -> ChainEnd
    ensures { EndsAs (facts_of heap.now) class result }
{
    let classes = table_len(heap, Table::Classes);
    let mut at = class;
    let mut passed = 0;
    let mut mark = Mark { class, before: 0 };
    while at != 0 {
        let Some(dump) = find_class(heap, at) else {
            return ChainEnd::Missing(at);
        };
        if passed == classes {
            return ChainEnd::Cyclic;
        }
        if dump.parent == mark.class {
            return ChainEnd::Cyclic;
        }
        passed += 1;
        at = dump.parent;
        mark = mark.behind(passed, at);
    }
    ChainEnd::Zero(passed)
}
