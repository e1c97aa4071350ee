//! The objects of parts, where they are stored.

use crate::cut::Cut;
use crate::stretch::Stretch;
use hprof_runs::{Runs, SortedRows};

/// The objects of parts that were read: rows in memory, runs in scratch, and stretches that stay in their part. An object may be stored
/// more than once.
#[derive(Drop)]
pub struct StoredObjects<S> {
    pub(crate) rows: SortedRows,
    pub(crate) runs: Runs<S>,
    pub(crate) stretches: Vec<Stretch>,
    /// The cuts of the stretches, one stretch after another.
    pub(crate) cuts: Vec<Cut>,
}
