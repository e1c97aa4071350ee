//! The numbers of the labels of kinds.

use crate::kinds::Kind;
use hprof_values::Basic;
use std::alloc::{AllocError, Global};
use std::collections::BTreeMap;

/// A class with the number of its label.
#[derive(Clone, Copy, Debug, PartialEq, Eq)]
pub(crate) struct LastClass {
    /// The class.
    pub(crate) class: u64,
    /// The number of its label.
    pub(crate) number: usize,
}

/// For each kind that came up the number of its label.
#[derive(Drop)]
pub(crate) struct KindNumbers {
    /// The class that came up last. Objects of one class often lie side by side.
    pub(crate) last: Option<LastClass>,
    /// The numbers of classes.
    pub(crate) classes: BTreeMap<u64, usize>,
    /// The numbers of types, by their codes.
    pub(crate) types: BTreeMap<u8, usize>,
    /// The number of class dumps without object dumps.
    pub(crate) class_dumps: Option<usize>,
}

impl KindNumbers {
    ghost use Rattle.std.specs.Prelude.{◌≡◌, ◌⊎◌, ℕ, IfSome, OnOk};
    ghost use Rattle.hprof_by_label.specs.declared.kinds.Kind.{Kind};
    ghost use Rattle.hprof_by_label.specs.Kinds.{IsKept};

    /// Returns the numbers of no kinds. Allocates nothing.
    pub(crate) fn new(alloc: Global) -> KindNumbers
        ensures { (kind : Kind) (number : ℕ) → ¬ (IsKept result kind number) }
    {
        KindNumbers {
            last: None,
            classes: BTreeMap::new(alloc),
            types: BTreeMap::new(alloc),
            class_dumps: None,
        }
    }

    /// Returns the number of a class's label, or `None` if the class did not come up.
    fn number_of_class(&mut self, class: u64) -> Option<usize>
        ensures kept { IfSome result (IsKept self.old (Kind.Class class)) }
        ensures stays { (kind : Kind) (number : ℕ) → IsKept self.new kind number → IsKept self.old kind number }
    {
        if let Some(last) = self.last {
            if last.class == class {
                return Some(last.number);
            }
        }
        let number = *self.classes.get(&class)?;
        self.last = Some(LastClass { class, number });
        Some(number)
    }

    /// Returns the number of a kind's label, or `None` if the kind did not come up.
    pub(crate) fn number_of(&mut self, kind: Kind) -> Option<usize>
        ensures kept { IfSome result (IsKept self.old kind) }
        ensures stays { (other : Kind) (number : ℕ) → IsKept self.new other number → IsKept self.old other number }
    {
        match kind {
            Kind::Class(class) => self.number_of_class(class),
            Kind::Prim(elem) => self.types.get(&elem.code()).copied(),
            Kind::ClassDump => self.class_dumps,
        }
    }

    /// Stores the number of a kind's label. If memory runs out, the answer is `AllocError` and the numbers are unspecified.
    pub(crate) fn put(&mut self, kind: Kind, number: usize) -> Result<(), AllocError>
        ensures { OnOk result ((other : Kind) (n : ℕ) → IsKept self.new other n
            → IsKept self.old other n ⊎ ((other ≡ kind) × (n ≡ number))) }
    {
        match kind {
            Kind::Class(class) => {
                self.classes.insert(class, number)?;
            }
            Kind::Prim(elem) => {
                self.types.insert(elem.code(), number)?;
            }
            Kind::ClassDump => self.class_dumps = Some(number),
        }
        Ok(())
    }
}
