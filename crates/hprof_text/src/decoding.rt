//! Decoding modified UTF-8 into UTF-16 units (Java Virtual Machine Specification, section 4.4.7).

ghost use Rattle.std.specs.Prelude.{◌≡◌, ◌≢◌, ◌↔◌, ℕ, ◌+◌, ◌<◌, ◌≤◌, List, ◌∷◌, ◌++◌, length, IsTrue, IfSome, IfNone, IfOk, OnErr};
ghost use Rattle.std.specs.Option.{option_map};
ghost use Rattle.hprof_text.specs.ModifiedUtf8.{unit_bytes, BeginsWithNoUnit, IsModifiedUtf8, HasUnits, DecodesTo};

use std::alloc::{AllocError, Global};

// The least unit of the row of two bytes, which has 0 too.
const LEAST_OF_TWO: u16 = 0x80;

// The least unit of the row of three bytes.
const LEAST_OF_THREE: u16 = 0x800;

// The six bits of a byte 10xxxxxx at the front, and the bytes after it.
fn continuation(bytes: &[u8]) -> Option<(u16, &[u8])>
    ensures found { IfSome result (λ x. bytes.now ≡ (0x80 + x.0) ∷ x.1.now) }
    ensures small { IfSome result (λ x. x.0 < 64) }
    ensures none { IfNone result
        ((bits : ℕ) (rest : List ℕ) → bits < 64 → bytes.now ≢ (0x80 + bits) ∷ rest) }
{
    match bytes {
        [byte @ 0x80..=0xbf, rest @ ..] => Some((u16::from(*byte - 0x80), rest)),
        _ => None,
    }
}

// The unit that a byte 110xxxxx and one byte more begin with.
fn two_byte_unit(first: u8, rest: &[u8]) -> Option<(u16, &[u8])>
    requires low { 0xc0 ≤ first }
    requires high { first ≤ 0xdf }
    ensures found { IfSome result (λ x. first ∷ rest.now ≡ unit_bytes x.0 ++ x.1.now) }
    ensures none { IfNone result (BeginsWithNoUnit (first ∷ rest.now)) }
{
    let (low, rest) = continuation(rest)?;
    let unit = u16::from(first - 0xc0) * 64 + low;
    if unit == 0 || unit >= LEAST_OF_TWO {
        Some((unit, rest))
    } else {
        None
    }
}

// The unit that a byte 1110xxxx and two bytes more begin with.
fn three_byte_unit(first: u8, rest: &[u8]) -> Option<(u16, &[u8])>
    requires low { 0xe0 ≤ first }
    requires high { first ≤ 0xef }
    ensures found { IfSome result (λ x. first ∷ rest.now ≡ unit_bytes x.0 ++ x.1.now) }
    ensures none { IfNone result (BeginsWithNoUnit (first ∷ rest.now)) }
{
    let (middle, rest) = continuation(rest)?;
    let (low, rest) = continuation(rest)?;
    let unit = u16::from(first - 0xe0) * 4096 + middle * 64 + low;
    if unit >= LEAST_OF_THREE {
        Some((unit, rest))
    } else {
        None
    }
}

// The unit whose bytes stand at the front, and the bytes after it.
pub(crate) fn first_unit(bytes: &[u8]) -> Option<(u16, &[u8])>
    ensures found { IfSome result (λ x. bytes.now ≡ unit_bytes x.0 ++ x.1.now) }
    ensures none { IfNone result (BeginsWithNoUnit bytes.now) }
{
    let (first, rest) = bytes.split_first()?;
    match *first {
        0x01..=0x7f => Some((u16::from(*first), rest)),
        0xc0..=0xdf => two_byte_unit(*first, rest),
        0xe0..=0xef => three_byte_unit(*first, rest),
        _ => None,
    }
}

/// Returns whether the bytes are modified UTF-8, each unit in its shortest form (Java Virtual Machine Specification, section 4.4.7).
pub fn is_modified(bytes: &[u8]) -> bool
    ensures { IsTrue result ↔ HasUnits bytes.now }
{
    let mut rest = bytes;
    while let Some((_, after)) = first_unit(rest) {
        rest = after;
    }
    rest.is_empty()
}

// The units of the bytes, and none where they have none. There are no more units than bytes.
fn decoded(alloc: Global, bytes: &[u8]) -> Result<Option<Vec<u16>>, AllocError>
    ensures { IfOk result (λ found. DecodesTo bytes.now (option_map (λ v. v.items) found)) }
{
    let mut units = Vec::with_capacity(alloc, bytes.len())?;
    let mut rest = bytes;
    while let Some((unit, after)) = first_unit(rest) {
        units.push(unit)?;
        rest = after;
    }
    if rest.is_empty() {
        Ok(Some(units))
    } else {
        Ok(None)
    }
}

/// Returns the UTF-16 units of modified UTF-8 in its shortest forms (Java Virtual Machine Specification, section 4.4.7), or `None` if the
/// bytes are not modified UTF-8.
///
/// A lone surrogate is a unit like any other. If memory runs out, the answer is `AllocError`; this happens only if there are units.
pub fn units(alloc: Global, bytes: &[u8]) -> Result<Option<Vec<u16>>, AllocError>
    ensures ok { IfOk result (λ found. DecodesTo bytes.now (option_map (λ v. v.items) found)) }
    ensures err { OnErr result (HasUnits bytes.now) }
{
    match decoded(alloc, bytes) {
        Err(_) if !is_modified(bytes) => Ok(None),
        answer => answer,
    }
}
