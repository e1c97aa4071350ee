//! The counts of the objects so far, by kind.

use crate::counted::Counted;
use crate::measured::measure;
use crate::row::Kind;
use hprof_items::Fact;
use hprof_passes::ObjectSink;
use hprof_tables::HintedMap;
use hprof_values::{Basic, IdSize};
use std::alloc::{AllocError, Global};

/// The number of type codes, including those without a type.
pub(crate) const TYPES: usize = 12;

/// The counts of the objects so far, by kind.
#[derive(Drop)]
pub struct CountedKinds {
    /// The counts of each class.
    pub(crate) classes: HintedMap<Counted>,
    /// The counts of each type, by its code.
    pub(crate) types: [Counted; TYPES],
}

impl CountedKinds {
    ghost use Rattle.std.specs.Prelude.{◌≡◌, ◌==◌, cond, OnOk};
    ghost use Rattle.hprof_histogram.specs.declared.row.Kind.{Kind};
    ghost use Rattle.hprof_histogram.specs.declared.row.Kind.TheVariants as kinds;
    ghost use Rattle.hprof_histogram.specs.Histogram.{same_kind};
    ghost use Rattle.hprof_histogram.specs.CountedKinds.{both, counted_in, nothing, one_of};

    /// Returns the counts of no objects.
    pub fn new(alloc: Global) -> CountedKinds
        ensures { (kind : Kind) → counted_in result kind ≡ nothing }
    {
        CountedKinds {
            classes: HintedMap::new(alloc),
            types: [Counted::nothing(); TYPES],
        }
    }

    /// Returns the count of the instances of a class and the object arrays of that class. It is that of the row in the histogram, or zero
    /// if there is no row.
    #[inline(always)]
    pub fn of_class(&self, class: u64) -> Counted
        ensures { result ≡ counted_in self.now (kinds.Class class) }
    {
        match self.classes.get(class) {
            None => Counted::nothing(),
            Some(counted) => *counted,
        }
    }

    /// Counts an object of a class.
    #[inline(always)]
    fn count_class(&mut self, class: u64, size: u128) -> Result<(), AllocError>
        ensures { OnOk result ((kind : Kind) → counted_in self.new kind
            ≡ cond (same_kind kind (kinds.Class class)) (both (counted_in self.old kind) (one_of size)) (counted_in self.old kind)) }
    {
        let Some(counted) = self.of_class(class).with(size) else {
            return Err(AllocError);
        };
        self.classes.insert(class, counted)?;
        Ok(())
    }

    /// Counts a primitive array of a type.
    #[inline(always)]
    fn count_type(&mut self, elem: Basic, size: u128) -> Result<(), AllocError>
        ensures { OnOk result ((kind : Kind) → counted_in self.new kind
            ≡ cond (same_kind kind (kinds.Prim elem)) (both (counted_in self.old kind) (one_of size)) (counted_in self.old kind)) }
    {
        let code = elem.code() as usize;
        let Some(counted) = self.types[code].with(size) else {
            return Err(AllocError);
        };
        self.types[code] = counted;
        Ok(())
    }

    /// Counts an object.
    #[inline(always)]
    pub(crate) fn count(&mut self, kind: Kind, size: u128) -> Result<(), AllocError>
        ensures { OnOk result ((other : Kind) → counted_in self.new other
            ≡ cond (same_kind other kind) (both (counted_in self.old other) (one_of size)) (counted_in self.old other)) }
    {
        match kind {
            Kind::Class(class) => self.count_class(class, size),
            Kind::Prim(elem) => self.count_type(elem, size),
        }
    }
}

/// Counts each object. The fault is want of memory, or that there are more objects, or more bytes, than a number can count.
impl ObjectSink for CountedKinds {
    ghost use Rattle.std.specs.Prelude.{⊤};
    ghost use Rattle.hprof_histogram.specs.CountedKinds.{CountsObject};

    ghost takes = { CountsObject };

    ghost refuses = { λ old ids object fault new. ⊤ };

    type Fault = AllocError;

    #[inline(always)]
    fn take(&mut self, ids: IdSize, object: &Fact<'_>) -> Result<(), AllocError> {
        match measure(object, ids) {
            Some(object) => self.count(object.kind, object.size),
            None => Ok(()),
        }
    }
}
