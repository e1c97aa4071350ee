//! Reading the header of a dump.

ghost use Rattle.std.specs.Prelude.{◌≡◌, ℕ, ◌++◌, List, drop, Ok};
ghost use Rattle.hprof_items.specs.declared.header.Header.{Header};
ghost use Rattle.hprof_items.specs.Header.{header_bytes, IsMillis};
ghost use Rattle.hprof_items.specs.Reading.{version_of, ids_of, header_at};

use crate::header::{HEADER_LEN, Header, Version};
use byteorder::{BigEndian, ByteOrder};
use hprof_values::{IdSize, ParseStop, Reason};

/// The text at the start of a 1.0.1 dump, with its zero byte.
pub const TEXT_V101: &[u8; 19] = b"JAVA PROFILE 1.0.1\0";

/// The text at the start of a 1.0.2 dump, with its zero byte.
pub const TEXT_V102: &[u8; 19] = b"JAVA PROFILE 1.0.2\0";

/// The number of bytes of that text.
pub const TEXT_LEN: usize = 19;

/// The number of bytes of that text and the identifier size.
pub const SIZED_LEN: usize = 23;

fn version_in(text: &[u8]) -> Option<Version>
    ensures { result ≡ version_of text.now }
{
    if text == TEXT_V101.as_slice() {
        Some(Version::V101)
    } else if text == TEXT_V102.as_slice() {
        Some(Version::V102)
    } else {
        None
    }
}

fn ids_in(size: u32) -> Option<IdSize>
    ensures { result ≡ ids_of size }
{
    match size {
        4 => Some(IdSize::Four),
        8 => Some(IdSize::Eight),
        _ => None,
    }
}

/// Returns the result of `read_header`.
#[tactic(auto, unfolding(crate::specs::Reading::header_at))]
fn header_in(bytes: &[u8]) -> Result<(Header, usize), ParseStop>
    ensures { result ≡ header_at bytes.now }
{
    if bytes.len() < TEXT_LEN {
        return Err(ParseStop::Short);
    }
    let Some(version) = version_in(&bytes[..TEXT_LEN]) else {
        return Err(ParseStop::Fault(Reason::BadMagic));
    };
    if bytes.len() < SIZED_LEN {
        return Err(ParseStop::Short);
    }
    let Some(ids) = ids_in(BigEndian::read_u32(&bytes[TEXT_LEN..])) else {
        return Err(ParseStop::Fault(Reason::BadIdSize));
    };
    if bytes.len() < HEADER_LEN {
        return Err(ParseStop::Short);
    }
    let millis = BigEndian::read_u64(&bytes[SIZED_LEN..]);
    let header = Header {
        version,
        ids,
        millis,
    };
    Ok((header, HEADER_LEN))
}

/// Reads the header at the front, and returns it with the number of its bytes: the text, then the identifier size, then the time. A field
/// is tested once all its bytes are there.
pub fn read_header(bytes: &[u8]) -> Result<(Header, usize), ParseStop>
    // Which header it is, or what stopped it.
    ensures exact { result ≡ header_at bytes.now }
    // What is read is spelled so.
    ensures found { (header : Header) (n : ℕ) → result ≡ Ok (header, n)
        → (bytes.now ≡ header_bytes header ++ drop n bytes.now) × (n ≡ 31) × IsMillis header.millis }
    // What is spelled so is read, whatever follows.
    ensures only { (header : Header) (rest : List ℕ) → IsMillis header.millis
        → bytes.now ≡ header_bytes header ++ rest → result ≡ Ok (header, 31) }
{
    header_in(bytes)
}
