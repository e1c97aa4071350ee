//! A writer that counts.

use std::alloc::Global;
use std::io;
use std::io::Write;

/// A writer that takes all bytes, and counts its calls. A write of no bytes fails.
#[derive(Drop)]
pub struct Counting {
    /// The bytes that were written.
    pub bytes: Vec<u8>,
    /// The number of writes.
    pub writes: u64,
    /// The number of flushes.
    pub flushes: u64,
}

impl Counting {
    /// Returns a writer that was not called yet. Allocates nothing.
    pub fn new(alloc: Global) -> Self {
        Counting {
            bytes: Vec::new(alloc),
            writes: 0,
            flushes: 0,
        }
    }
}

impl Write for Counting {
    fn write(&mut self, bytes: &[u8]) -> io::Result<usize> {
        if bytes.is_empty() {
            return Err(io::Error::from(io::ErrorKind::Other));
        }
        self.bytes.extend_from_slice(bytes)?;
        self.writes = self.writes.saturating_add(1);
        Ok(bytes.len())
    }

    fn flush(&mut self) -> io::Result<()> {
        self.flushes = self.flushes.saturating_add(1);
        Ok(())
    }
}
