//! The width of identifiers.

ghost use Rattle.std.specs.Prelude.{◌≡◌};

/// The number of bytes of an identifier, from the header of the dump. This project refuses sizes other than these two.
#[derive(Clone, Copy, Debug, PartialEq, Eq)]
pub enum IdSize {
    /// Four bytes.
    Four,
    /// Eight bytes.
    Eight,
}

impl IdSize {
    ghost use Rattle.hprof_values.specs.Ids.{width_of};

    /// Returns the number of bytes, 4 or 8.
    #[inline(always)]
    pub fn width(self) -> usize
        ensures { result ≡ width_of self }
    {
        match self {
            IdSize::Four => 4,
            IdSize::Eight => 8,
        }
    }
}
