//! The printed form of names, which is this project's own.

ghost use Rattle.std.specs.Prelude.{◌≡◌, false, ◌++◌, [], slice_get, IsTrue, IfSome, IfOk, OnOk, IsAscii};
ghost use Rattle.std.specs.List.{AllPass};
ghost use Rattle.std.specs.Option.{SomeIff};
ghost use Rattle.std.specs.String.{string_bytes};
ghost use Rattle.hprof_text.specs.Printed.{is_plain, escaped_unit, printed_unit, printed_bytes, IsPrinted, PrintsIfUnits};

use crate::decoding::first_unit;
use std::alloc::{AllocError, Global};

// Whether a byte, as a unit, is printed as itself.
fn is_plain(byte: u8) -> bool
    ensures { result ≡ is_plain byte }
{
    matches!(byte, 0x20..=0x7e) && byte != b'\\'
}

// The plain bytes at the front, and the bytes after them.
fn split_plain(bytes: &[u8]) -> (&[u8], &[u8])
    ensures whole { bytes.now ≡ result.0.now ++ result.1.now }
    ensures plain { AllPass is_plain result.0.now }
    ensures longest { IfSome (slice_get result.1.now 0) (λ byte. is_plain byte ≡ false) }
{
    let end = bytes
        .iter()
        .position(|byte| !is_plain(*byte))
        .unwrap_or(bytes.len());
    bytes.split_at(end)
}

// The byte that a unit is printed as, if the unit is plain.
fn plain_byte(unit: u16) -> Option<u8>
    ensures { SomeIff result (IsTrue (is_plain unit)) unit }
{
    let byte = u8::try_from(unit).ok()?;
    if is_plain(byte) { Some(byte) } else { None }
}

// Appends a unit that is not plain in print.
fn push_escape(text: &mut Vec<u8>, unit: u16) -> Result<(), AllocError>
    ensures { OnOk result (text.new.items ≡ text.old.items ++ escaped_unit unit) }
{
    let mut digits = [0; 4];
    let _ = hex::encode_to_slice(unit.to_be_bytes(), &mut digits);
    text.extend_from_slice(b"\\u")?;
    text.extend_from_slice(&digits)?;
    Ok(())
}

/// Appends the printed form of a unit, which is ASCII. If memory runs out, the answer is `AllocError`.
#[tactic(auto, unfolding(crate::specs::Printed::printed_unit))]
pub fn push_unit(text: &mut Vec<u8>, unit: u16) -> Result<(), AllocError>
    ensures { OnOk result (text.new.items ≡ text.old.items ++ printed_unit unit) }
{
    match plain_byte(unit) {
        Some(byte) => text.push(byte)?,
        None => push_escape(text, unit)?,
    }
    Ok(())
}

// Appends the units of modified UTF-8 in print. Where the bytes have no units it is false, and what was
// appended is of no use.
fn push_units(text: &mut Vec<u8>, bytes: &[u8]) -> Result<bool, AllocError>
    requires { text.old.items ≡ [] }
    ensures { IfOk result (λ all. PrintsIfUnits bytes.now all text.new.items) }
{
    let (plain, mut rest) = split_plain(bytes);
    text.extend_from_slice(plain)?;
    while let Some((unit, after)) = first_unit(rest) {
        push_unit(text, unit)?;
        let (plain, after) = split_plain(after);
        text.extend_from_slice(plain)?;
        rest = after;
    }
    Ok(rest.is_empty())
}

// Appends other bytes in print.
fn push_bytes(text: &mut Vec<u8>, bytes: &[u8]) -> Result<(), AllocError>
    requires { text.old.items ≡ [] }
    ensures { OnOk result (text.new.items ≡ printed_bytes bytes.now) }
{
    text.reserve_exact(bytes.len().saturating_mul(2).saturating_add(2))?;
    text.extend_from_slice(b"\\x")?;
    for byte in bytes {
        let mut digits = [0; 2];
        let _ = hex::encode_to_slice([*byte], &mut digits);
        text.extend_from_slice(&digits)?;
    }
    Ok(())
}

// The printed form as bytes. A plain unit is one byte there as here.
fn printed_text(alloc: Global, bytes: &[u8]) -> Result<Vec<u8>, AllocError>
    ensures { IfOk result (λ text. IsPrinted bytes.now text.items) }
{
    let mut text = Vec::with_capacity(alloc, bytes.len())?;
    if push_units(&mut text, bytes)? {
        return Ok(text);
    }
    text.clear();
    push_bytes(&mut text, bytes)?;
    Ok(text)
}

/// Returns the printed form of a name, which is ASCII.
///
/// If the name is modified UTF-8, each unit from 0x20 to 0x7e except the backslash stands for itself, and each other unit is printed as
/// `\u` and four lower-case hexadecimal digits. Otherwise the name is printed as `\x` and all its bytes in lower-case hexadecimal. If
/// memory runs out, the answer is `AllocError`.
pub fn printed(alloc: Global, bytes: &[u8]) -> Result<String, AllocError>
    ensures form { IfOk result (λ text. IsPrinted bytes.now (string_bytes text)) }
    ensures ascii { IfOk result (λ text. IsAscii (string_bytes text)) }
{
    let text = printed_text(alloc, bytes)?;
    Ok(String::from_utf8(text).unwrap())
}
