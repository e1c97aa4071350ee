//! The summary of a part.

use hprof_items::Header;

/// The summary of a part that was not refused.
#[derive(Clone, Copy, Debug, PartialEq, Eq)]
pub struct PartSummary {
    /// The header.
    pub header: Header,
    /// The number of records.
    pub records: u64,
    /// The number of facts. A fact counts as often as the part states it.
    pub facts: u64,
    /// True if a record ended a heap dump.
    pub ended: bool,
}
