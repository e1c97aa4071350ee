//! What is kept where.

/// How much memory objects may take, and which of them stay in their part.
#[derive(Clone, Copy, Debug, PartialEq, Eq)]
pub struct Keeping {
    /// The most bytes that objects in memory may take. A single object may take more.
    pub memory: u64,
    /// The fewest bytes of a stretch that stays in its part.
    pub stretch: u64,
    /// The most stretches of a part that stay in it.
    pub stretches: usize,
}

impl Keeping {
    /// Returns what the program uses: at most 64 stretches of a part stay, each of a mebibyte or more, or of a quarter of the memory if
    /// that is less, but not of less than four kibibytes. A stretch is in memory before it stays, and takes more there than its bytes.
    pub fn usual(memory: u64) -> Keeping {
        Keeping {
            memory,
            stretch: (memory / 4).max(4_096).min(1_048_576),
            stretches: 64,
        }
    }
}
