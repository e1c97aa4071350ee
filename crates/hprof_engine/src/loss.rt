//! Reasons why objects are lost that were read once.

use std::error::Error;
use std::fmt;

/// The reason why objects are lost that were read once. They stayed in their parts, or went to scratch.
#[derive(Clone, Copy, Debug, PartialEq, Eq)]
pub enum Loss {
    /// The part at that index, from 0, has changed: it gives other objects than at the first reading.
    Changed(usize),
    /// The part at that index, from 0, cannot be read again.
    Read(usize),
    /// Objects have changed, and it is not known which part gave them.
    Objects,
    /// The scratch took no more objects, or did not give them back.
    Scratch,
}

/// Prints it as the program does, in one line.
impl fmt::Display for Loss {
    ghost use Rattle.std.specs.Prelude.{Some};
    ghost use Rattle.hprof_engine.specs.FaultText.{loss_text};

    ghost output = { λ loss. Some (loss_text loss) };

    fn fmt<W: fmt::Write>(&self, f: &mut fmt::Formatter<W>) -> fmt::Result {
        match *self {
            Loss::Changed(index) => write!(f, "part {index}: changed"),
            Loss::Read(index) => write!(f, "part {index}: read failed"),
            Loss::Objects => f.write_str("objects changed"),
            Loss::Scratch => f.write_str("scratch failed"),
        }
    }
}

impl Error for Loss {}
