//! A number of objects.

/// A number of objects, and the number of their bytes.
#[derive(Clone, Copy, Debug, PartialEq, Eq)]
pub struct Counted {
    /// The number of objects.
    pub count: u64,
    /// The number of bytes of their fields and elements.
    pub bytes: u128,
}

impl Counted {
    ghost use Rattle.std.specs.Prelude.{◌≡◌, IfSome};
    ghost use Rattle.hprof_histogram.specs.CountedKinds.{both, nothing, one_of};

    /// Returns the count of no objects.
    pub(crate) fn nothing() -> Counted
        ensures { result ≡ nothing }
    {
        Counted { count: 0, bytes: 0 }
    }

    /// Returns the count with one more object of this size, or `None` if a number has no room for it.
    #[inline(always)]
    pub(crate) fn with(self, size: u128) -> Option<Counted>
        ensures { IfSome result (λ counted. counted ≡ both self (one_of size)) }
    {
        let count = self.count.checked_add(1)?;
        let bytes = self.bytes.checked_add(size)?;
        Some(Counted { count, bytes })
    }
}
