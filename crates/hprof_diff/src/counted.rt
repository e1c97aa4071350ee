//! Numbers of objects.

/// A number of objects, and the number of their bytes.
#[derive(Clone, Copy, Debug, PartialEq, Eq)]
pub(crate) struct Counted {
    pub(crate) count: u128,
    pub(crate) bytes: u128,
}

impl Counted {
    ghost use Rattle.std.specs.Prelude.{◌≡◌, IfSome};
    ghost use Rattle.hprof_diff.specs.Sources.{both, nothing};

    /// Returns the count of no objects.
    pub(crate) fn nothing() -> Counted
        ensures { result ≡ nothing }
    {
        Counted { count: 0, bytes: 0 }
    }

    /// Returns the count of these objects and others, or `None` if a number has no room for it.
    pub(crate) fn with(self, others: Counted) -> Option<Counted>
        ensures { IfSome result (λ counted. counted ≡ both self others) }
    {
        let count = self.count.checked_add(others.count)?;
        let bytes = self.bytes.checked_add(others.bytes)?;
        Some(Counted { count, bytes })
    }
}
