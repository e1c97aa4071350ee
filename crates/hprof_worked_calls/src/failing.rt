//! Parts of which reading again fails.

use crate::streams::{Feed, Reader};
use hprof_devices::Device;
use hprof_parts::Parts;
use std::cell::Cell;

/// Parts in memory that are opened so many times. Whatever is opened later cannot be read.
#[derive(Drop)]
pub(crate) struct FailingParts<'a> {
    pub(crate) slices: &'a [&'a [u8]],
    /// The number of openings that are left.
    pub(crate) openings: Cell<u64>,
}

impl<'a> Parts for FailingParts<'a> {
    ghost use Rattle.std.specs.Prelude.{None, map};

    ghost bytes = { λ it. map (λ _. None) it.slices.now };

    type Reader = Device<Reader<'a>>;

    fn count(&self) -> usize {
        self.slices.len()
    }

    fn open(&self, index: usize, at: u64) -> Device<Reader<'a>> {
        let slice = self.slices[index];
        let left = self.openings.get();
        self.openings.set(left.saturating_sub(1));
        let breaks = left == 0;
        let at = if breaks {
            slice.len()
        } else {
            at.min(slice.len() as u64) as usize
        };
        Device::new(Reader {
            bytes: &slice[at..],
            feed: Feed {
                at_once: usize::MAX,
                breaks,
            },
            reads: 0,
        })
    }
}
