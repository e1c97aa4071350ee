//! Big-endian numbers at the front of a slice.

ghost use Rattle.std.specs.Prelude.{◌≡◌, ◌+◌, ◌*◌, ◌^◌, ◌<◌, ◌≤◌, length, drop};
ghost use Rattle.byteorder.specs.Endian.{big_number};
ghost use Rattle.hprof_values.specs.Ids.{width_of};
ghost use Rattle.hprof_values.specs.Basic.{width_of_basic};

use crate::basic::Basic;
use crate::ids::IdSize;
use byteorder::{BigEndian, ByteOrder};

/// Returns the identifier at the front.
#[inline(always)]
pub fn id_at(bytes: &[u8], ids: IdSize) -> u64
    requires { width_of ids ≤ length bytes.now }
    ensures { result ≡ big_number (width_of ids) bytes.now }
{
    match ids {
        IdSize::Four => u64::from(BigEndian::read_u32(bytes)),
        IdSize::Eight => BigEndian::read_u64(bytes),
    }
}

/// Returns the identifier at the front, and the bytes after it.
#[inline(always)]
pub fn split_id(bytes: &[u8], ids: IdSize) -> (u64, &[u8])
    requires { width_of ids ≤ length bytes.now }
    ensures id { result.0 ≡ big_number (width_of ids) bytes.now }
    ensures rest { result.1.now ≡ drop (width_of ids) bytes.now }
    ensures len { width_of ids + length result.1.now ≡ length bytes.now }
{
    let id = id_at(bytes, ids);
    let (_, rest) = bytes.split_at(ids.width());
    (id, rest)
}

/// Returns the four-byte number at the front, and the bytes after it.
#[inline(always)]
pub fn split_u32(bytes: &[u8]) -> (u32, &[u8])
    requires { 4 ≤ length bytes.now }
    ensures number { result.0 ≡ big_number 4 bytes.now }
    ensures rest { result.1.now ≡ drop 4 bytes.now }
    ensures len { 4 + length result.1.now ≡ length bytes.now }
{
    let (_, rest) = bytes.split_at(4);
    (BigEndian::read_u32(bytes), rest)
}

/// Returns the byte at the front.
#[inline(always)]
pub fn byte_at(bytes: &[u8]) -> u8
    requires { 1 ≤ length bytes.now }
    ensures { result ≡ big_number 1 bytes.now }
{
    bytes[0]
}

/// Returns the number of bytes of `count` identifiers.
#[inline(always)]
pub fn ids_len(count: u32, ids: IdSize) -> usize
    ensures len { result ≡ count * width_of ids }
    ensures below { result < 2 ^ 36 }
{
    match ids {
        IdSize::Four => count as usize * 4,
        IdSize::Eight => count as usize * 8,
    }
}

/// Returns the number of bytes of `count` values of a type.
#[inline(always)]
pub fn values_len(count: u32, basic: Basic, ids: IdSize) -> usize
    ensures len { result ≡ count * width_of_basic ids basic }
    ensures below { result < 2 ^ 36 }
{
    match basic {
        Basic::Array | Basic::Object => ids_len(count, ids),
        Basic::Boolean | Basic::Byte => count as usize,
        Basic::Char | Basic::Short => count as usize * 2,
        Basic::Float | Basic::Int => count as usize * 4,
        Basic::Double | Basic::Long => count as usize * 8,
    }
}

/// Returns the raw bits of the value of this type at the front.
pub fn bits_at(bytes: &[u8], basic: Basic, ids: IdSize) -> u64
    requires { width_of_basic ids basic ≤ length bytes.now }
    ensures { result ≡ big_number (width_of_basic ids basic) bytes.now }
{
    match basic {
        Basic::Array | Basic::Object => id_at(bytes, ids),
        Basic::Boolean | Basic::Byte => u64::from(bytes[0]),
        Basic::Char | Basic::Short => u64::from(BigEndian::read_u16(bytes)),
        Basic::Float | Basic::Int => u64::from(BigEndian::read_u32(bytes)),
        Basic::Double | Basic::Long => BigEndian::read_u64(bytes),
    }
}
