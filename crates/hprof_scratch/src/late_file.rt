//! A file that is created when its first byte is written.

use hprof_runs::FileScratch;

/// Scratch in a file that is created when its first byte is written.
#[derive(Drop)]
pub(crate) enum LateFile<F> {
    /// No byte was written.
    Later,
    /// The file was created.
    Created(FileScratch<F>),
    /// The file could not be created.
    Refused,
}
