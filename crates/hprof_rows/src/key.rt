//! The keys of facts. Facts of one heap that have the same key are equal.

ghost use Rattle.std.specs.Prelude.{◌≡◌};

use std::fmt;

/// The key of a fact. Keys are ordered by kind, in the order below, and then by number.
#[derive(Clone, Copy, Debug, PartialEq, Eq, PartialOrd, Ord)]
pub enum Key {
    /// A name, by its identifier.
    Name(u64),
    /// A loaded class, by its serial number.
    Load(u32),
    /// A stack frame, by its identifier.
    Frame(u64),
    /// A stack trace, by its serial number.
    Trace(u32),
    /// A thread that was started, by its serial number.
    Thread(u32),
    /// A class dump, by the identifier of its class.
    Class(u64),
    /// A dump of an instance or an array, by its identifier.
    Object(u64),
}

/// Prints the kind of the fact and its number: an identifier in hexadecimal, a serial number in decimal.
impl fmt::Display for Key {
    ghost use Rattle.std.specs.Prelude.{Some};
    ghost use Rattle.hprof_rows.specs.KeyText.{key_text};

    ghost output = { λ key. Some (key_text key) };

    fn fmt<W: fmt::Write>(&self, f: &mut fmt::Formatter<W>) -> fmt::Result {
        match *self {
            Key::Name(id) => write!(f, "name {id:x}"),
            Key::Load(serial) => write!(f, "load {serial}"),
            Key::Frame(id) => write!(f, "frame {id:x}"),
            Key::Trace(serial) => write!(f, "trace {serial}"),
            Key::Thread(serial) => write!(f, "thread {serial}"),
            Key::Class(id) => write!(f, "class {id:x}"),
            Key::Object(id) => write!(f, "object {id:x}"),
        }
    }
}

impl Key {
    ghost use Rattle.hprof_rows.specs.Key.{lesser_key};

    /// Returns the lesser of two keys.
    pub fn lesser(self, other: Key) -> Key
        ensures { result ≡ lesser_key self other }
    {
        if self <= other { self } else { other }
    }
}
