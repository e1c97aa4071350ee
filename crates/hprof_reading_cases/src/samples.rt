//! A sink, and feeding in pieces.

ghost use Rattle.std.specs.Prelude.{◌<◌};
ghost use Rattle.hprof_stream.specs.Reader.{IsReady};

use hprof_items::{Fact, Header, IdSize, Version};
use hprof_stream::{PartFault, PartReader, Sink, SinkFault};
use std::alloc::Global;

/// The header of the plain part.
pub(crate) const HEADER: Header = Header {
    version: Version::V102,
    ids: IdSize::Four,
    millis: 1,
};

/// A sink that stores a number for each fact, up to a number of facts.
#[derive(Drop)]
pub(crate) struct Seen {
    pub(crate) numbers: Vec<u64>,
    room: usize,
    pub(crate) begun: Option<IdSize>,
    failed: bool,
}

impl Seen {
    pub(crate) fn new(alloc: Global, room: usize) -> Self {
        Seen {
            numbers: Vec::new(alloc),
            room,
            begun: None,
            failed: false,
        }
    }
}

// The identifier or the serial of what it states, and 0 for a root.
fn number_of(fact: &Fact<'_>) -> u64 {
    match *fact {
        Fact::Name { id, .. } | Fact::Frame { id, .. } | Fact::Class { id, .. } => id,
        Fact::Instance { id, .. } | Fact::ObjArray { id, .. } | Fact::PrimArray { id, .. } => id,
        Fact::Load { class, .. } => class,
        Fact::Unload { serial } | Fact::Trace { serial, .. } => serial as u64,
        Fact::Start { thread, .. } | Fact::End { thread } => thread as u64,
        Fact::Root(_) => 0,
    }
}

impl Sink for Seen {
    ghost begins = { λ _ _ _. Unit {0} };

    ghost steps = { λ _ _ _. Unit {0} };

    ghost begun = { λ s. s.begun };

    ghost failed = { λ s. s.failed };

    ghost refuses = { λ _ _ _ _. Unit {0} };

    fn begin_part(&mut self, header: Header) -> Result<(), SinkFault> {
        if self.failed {
            return Err(SinkFault::Failed);
        }
        self.begun = Some(header.ids);
        Ok(())
    }

    fn take(&mut self, fact: &Fact<'_>, _spelled: &[u8]) -> Result<(), SinkFault> {
        if self.failed {
            return Err(SinkFault::Failed);
        }
        if self.numbers.len() == self.room || self.numbers.push(number_of(fact)).is_err() {
            self.failed = true;
            return Err(SinkFault::OutOfMemory);
        }
        Ok(())
    }
}

/// Feeds the bytes in pieces, and returns the largest number of bytes that the reader held.
pub(crate) fn feed_in(
    reader: &mut PartReader,
    bytes: &[u8],
    len: usize,
    sink: &mut Seen,
) -> Result<usize, PartFault>
    requires len { 0 < len }
    requires ready { IsReady reader.old sink.old.begun }
    ensures { IsReady reader.new sink.new.begun }
{
    let mut most = 0;
    for piece in bytes.chunks(len) {
        reader.feed(piece, sink)?;
        most = most.max(reader.buffered());
    }
    Ok(most)
}
