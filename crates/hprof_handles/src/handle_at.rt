//! A reader from an offset on.

use crate::read_at::ReadAt;
use std::io;
use std::io::{ErrorKind, Read};

/// Reads a handle from an offset on.
#[derive(Drop)]
pub struct HandleAt<'a, H> {
    handle: &'a H,
    at: u64,
}

impl<'a, H> HandleAt<'a, H> {
    ghost use Rattle.std.specs.Prelude.{◌≡◌};
    ghost use Rattle.hprof_handles.specs.HandleAt.{handle_of, offset_of};

    /// Returns a reader of the handle from an offset on.
    pub fn new(handle: &'a H, at: u64) -> Self
        ensures handle { handle_of result ≡ handle.now }
        ensures at { offset_of result ≡ at }
    {
        HandleAt { handle, at }
    }
}

impl<H: ReadAt> Read for HandleAt<'_, H> {
    ghost use Rattle.hprof_handles.specs.HandleAt.{rest_at};

    ghost remaining = { λ it. rest_at (H.bytes it.handle.now) it.at };

    fn read(&mut self, piece: &mut [u8]) -> io::Result<usize> {
        let count = self.handle.read_at(piece, self.at)?;
        let Some(next) = self.at.checked_add(count as u64) else {
            return Err(io::Error::from(ErrorKind::Other));
        };
        self.at = next;
        Ok(count)
    }
}
