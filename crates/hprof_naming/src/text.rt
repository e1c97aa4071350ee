//! The text of an object.

ghost use Rattle.std.specs.Prelude.{◌≡◌, ◌∷◌, [], length, MatchOption};
ghost use Rattle.hprof_naming.specs.Units.{units_of};

/// The coding of the bytes of a text.
#[derive(Clone, Copy, Debug, PartialEq, Eq)]
pub enum Coding {
    /// Big-endian UTF-16: the elements of a char array.
    Chars,
    /// One byte a unit.
    Latin1,
    /// Little-endian UTF-16.
    Utf16,
}

impl Coding {
    /// Returns the first unit of bytes that are coded so, and the bytes after it, or `None` if they have no unit.
    #[inline(always)]
    pub fn first_unit(self, bytes: &[u8]) -> Option<(u16, &[u8])>
        ensures { MatchOption result (units_of self bytes.now ≡ []) (λ it. units_of self bytes.now ≡ it.0 ∷ units_of self it.1.now) }
    {
        match (self, bytes) {
            (Coding::Chars, [high, low, rest @ ..]) => {
                Some((u16::from(*high) * 256 + u16::from(*low), rest))
            }
            (Coding::Latin1, [byte, rest @ ..]) => Some((u16::from(*byte), rest)),
            (Coding::Utf16, [low, high, rest @ ..]) => {
                Some((u16::from(*high) * 256 + u16::from(*low), rest))
            }
            _ => None,
        }
    }
}

/// The UTF-16 or Latin-1 units of a text, as the heap stores them.
#[derive(Clone, Copy, Debug, PartialEq, Eq)]
pub struct Units<'a> {
    /// Their bytes.
    pub bytes: &'a [u8],
    /// The coding of the bytes.
    pub coding: Coding,
}

impl Units<'_> {
    /// Returns the number of units.
    pub fn count(self) -> usize
        ensures { result ≡ length (units_of self.entry.coding self.entry.bytes.now) }
    {
        match self.coding {
            Coding::Latin1 => self.bytes.len(),
            Coding::Chars => self.bytes.len() / 2,
            Coding::Utf16 => self.bytes.len() / 2,
        }
    }
}

/// The text of an identifier.
#[derive(Clone, Copy, Debug, PartialEq, Eq)]
pub enum Text<'a> {
    /// An array of chars or bytes, or an instance whose field `value` refers to one.
    Units(Units<'a>),
    /// Another class or object.
    NoText,
    /// The heap has neither a class dump nor an object dump of the identifier.
    Nothing,
}
