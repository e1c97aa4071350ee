//! The entries of a class dump: constants, static fields and own instance fields, with the fields that all three share.

ghost use Rattle.std.specs.Prelude.{◌≡◌, ◌+◌, ◌<◌, ◌≤◌, List, length, IfOk};
ghost use Rattle.hprof_values.specs.Entries.{lead_width, bits_width, entry_len, entry_in, EntryFits, entry_end};
ghost use Rattle.hprof_values.specs.BoundedBytes.{bounds_of};

use crate::basic::Basic;
use crate::bounded_bytes::BoundedBytes;
use crate::ids::IdSize;
use crate::number::{bits_at, id_at};
use crate::parse_stop::ParseStop;
use crate::reason::Reason;
use byteorder::{BigEndian, ByteOrder};

/// The list of a class dump that an entry belongs to.
#[derive(Clone, Copy, Debug, PartialEq, Eq)]
pub enum EntryKind {
    /// A constant.
    Constant,
    /// A static field.
    Static,
    /// An instance field.
    Field,
}

/// An entry.
#[derive(Clone, Copy, Debug, PartialEq, Eq)]
pub struct Entry {
    /// The index of a constant, or the identifier of a field's name.
    pub number: u64,
    /// The type.
    pub basic: Basic,
    /// The raw bits of the value. 0 for an instance field, which has no value in a class dump.
    pub bits: u64,
}

impl EntryKind {
    /// Returns the number of bytes of the index or the name identifier.
    pub fn lead_width(self, ids: IdSize) -> usize
        ensures { result ≡ lead_width ids self }
    {
        match self {
            EntryKind::Constant => 2,
            EntryKind::Static | EntryKind::Field => ids.width(),
        }
    }

    /// Returns the number of bytes of a value of this type.
    pub fn bits_width(self, basic: Basic, ids: IdSize) -> usize
        ensures { result ≡ bits_width ids self basic }
    {
        match self {
            EntryKind::Constant | EntryKind::Static => basic.width(ids) as usize,
            EntryKind::Field => 0,
        }
    }
}

/// Returns the end of the entry that begins at a place, or the failure of the first test that fails.
#[tactic(auto, unfolding(crate::specs::Entries::entry_end))]
pub fn entry_end(
    item: &BoundedBytes<'_>,
    at: usize,
    kind: EntryKind,
    ids: IdSize,
) -> Result<usize, ParseStop>
    requires { at ≤ length item.now.bytes.now }
    ensures end { result ≡ entry_end ids kind (bounds_of item.now) item.now.bytes.now at }
    ensures there { IfOk result (λ end. (at < end) × (end ≤ length item.now.bytes.now)) }
{
    let lead = kind.lead_width(ids);
    let front = item.end_of(at, &[lead, 1])?;
    let Some(basic) = Basic::from_code(item.bytes[at + lead]) else {
        return Err(ParseStop::Fault(Reason::BadType));
    };
    item.end_of(front, &[kind.bits_width(basic, ids)])
}

/// Returns the entry at the front of the bytes.
pub fn entry_at(bytes: &[u8], kind: EntryKind, ids: IdSize) -> Entry
    requires { entry_len ids kind (entry_in ids kind bytes.now) ≤ length bytes.now }
    ensures entry { result ≡ entry_in ids kind bytes.now }
{
    let lead = kind.lead_width(ids);
    let number = match kind {
        EntryKind::Constant => u64::from(BigEndian::read_u16(bytes)),
        EntryKind::Static | EntryKind::Field => id_at(bytes, ids),
    };
    let basic = Basic::from_code(bytes[lead]).unwrap_or(Basic::Array);
    let bits = match kind {
        EntryKind::Constant | EntryKind::Static => bits_at(&bytes[lead + 1..], basic, ids),
        EntryKind::Field => 0,
    };
    Entry {
        number,
        basic,
        bits,
    }
}
