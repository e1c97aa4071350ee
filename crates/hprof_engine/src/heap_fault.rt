//! Reasons why a heap is refused before anything is written of it.

ghost use Rattle.std.specs.Prelude.{◌≡◌};
ghost use Rattle.hprof_engine.specs.FaultText.{refusal_text};

use std::error::Error;
use std::fmt;

/// The reason why a product is not made of a heap. It is found before the first byte is written.
#[derive(Clone, Copy, Debug, PartialEq, Eq)]
pub enum HeapFault {
    /// The dump is longer than it may be.
    DumpTooLong,
    /// No class has the name that was asked for.
    NoClass,
}

impl HeapFault {
    /// Returns its text, in one line.
    pub fn text(self) -> &'static str
        ensures { result.now ≡ refusal_text self }
    {
        match self {
            HeapFault::DumpTooLong => "dump too long",
            HeapFault::NoClass => "no class has this name",
        }
    }
}

/// Prints its text.
impl fmt::Display for HeapFault {
    ghost use Rattle.std.specs.Prelude.{Some};

    ghost output = { λ refusal. Some (refusal_text refusal) };

    fn fmt<W: fmt::Write>(&self, f: &mut fmt::Formatter<W>) -> fmt::Result {
        f.write_str(self.text())
    }
}

impl Error for HeapFault {}
