//! A list of the facts of parts.

use hprof_items::{Fact, Header, IdSize};
use hprof_stream::{Sink, SinkFault};
use std::alloc::{AllocError, Global};
use std::fmt::Debug;

/// A sink that lists each header and each fact, one a line.
#[derive(Drop)]
pub(crate) struct Listing {
    alloc: Global,
    pub(crate) lines: String,
    begun: Option<IdSize>,
    failed: bool,
}

/// Adds a line.
fn add_line(alloc: Global, lines: &mut String, item: &impl Debug) -> Result<(), AllocError> {
    lines.push_str(&format!(in alloc; "{item:?}\n")?)
}

impl Listing {
    pub(crate) fn new(alloc: Global) -> Self {
        Listing {
            alloc,
            lines: String::new(alloc),
            begun: None,
            failed: false,
        }
    }
}

impl Sink for Listing {
    ghost begins = { λ _ _ _. Unit {0} };

    ghost steps = { λ _ _ _. Unit {0} };

    ghost begun = { λ s. s.begun };

    ghost failed = { λ s. s.failed };

    ghost refuses = { λ _ _ _ _. Unit {0} };

    fn begin_part(&mut self, header: Header) -> Result<(), SinkFault> {
        if self.failed || add_line(self.alloc, &mut self.lines, &header).is_err() {
            self.failed = true;
            return Err(SinkFault::Failed);
        }
        self.begun = Some(header.ids);
        Ok(())
    }

    fn take(&mut self, fact: &Fact<'_>, _spelled: &[u8]) -> Result<(), SinkFault> {
        if self.failed || add_line(self.alloc, &mut self.lines, fact).is_err() {
            self.failed = true;
            return Err(SinkFault::Failed);
        }
        Ok(())
    }
}
