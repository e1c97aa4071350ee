//! Limits on the reading of a part.

ghost use Rattle.std.specs.Prelude.{◌≡◌};

/// The limits on the reading of one part. They are this project's own.
#[derive(Clone, Copy, Debug, PartialEq, Eq)]
pub struct Limits {
    /// The longest accepted item, in bytes: the body of a record that states one fact, or a sub-record.
    pub max_item: u32,
    /// The largest number of reads.
    pub max_reads: u64,
    /// The largest number of bytes of the part.
    pub max_bytes: u64,
}

impl Limits {
    /// Returns the limits of the program: every length that a record can state, 2^40 reads, 2^64 - 1 bytes.
    pub fn usual() -> Self
        ensures item { result.max_item ≡ 4294967295 }
        ensures reads { result.max_reads ≡ 1099511627776 }
        ensures bytes { result.max_bytes ≡ 18446744073709551615 }
    {
        Limits {
            max_item: u32::MAX,
            max_reads: 1 << 40,
            max_bytes: u64::MAX,
        }
    }
}

/// Those of the program.
impl Default for Limits {
    ghost is_default = { λ limits. (limits.max_item ≡ 4294967295) × (limits.max_reads ≡ 1099511627776)
        × (limits.max_bytes ≡ 18446744073709551615) };

    fn default() -> Limits {
        Limits::usual()
    }
}
