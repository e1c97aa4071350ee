//! Encoding UTF-16 units as modified UTF-8 (Java Virtual Machine Specification, section 4.4.7).

ghost use Rattle.std.specs.Prelude.{◌≡◌, ◌++◌, length, IfOk, OnOk};
ghost use Rattle.std.specs.List.{flat_map};
ghost use Rattle.hprof_text.specs.ModifiedUtf8.{unit_bytes, IsModifiedUtf8};

use std::alloc::{AllocError, Global};

// How many bytes a unit takes.
#[tactic(auto, unfolding(crate::specs::ModifiedUtf8::unit_bytes))]
fn unit_len(unit: u16) -> usize
    ensures { result ≡ length (unit_bytes unit) }
{
    match unit {
        0x01..=0x7f => 1,
        0 | 0x80..=0x7ff => 2,
        _ => 3,
    }
}

// Appends the bytes of a unit.
#[tactic(auto, unfolding(crate::specs::ModifiedUtf8::unit_bytes))]
fn push_unit(bytes: &mut Vec<u8>, unit: u16) -> Result<(), AllocError>
    ensures { OnOk result (bytes.new.items ≡ bytes.old.items ++ unit_bytes unit) }
{
    let low = 0x80 + (unit % 64) as u8;
    match unit {
        0x01..=0x7f => bytes.push(unit as u8)?,
        0 | 0x80..=0x7ff => bytes.extend_from_slice(&[0xc0 + (unit / 64) as u8, low])?,
        _ => {
            let middle = 0x80 + (unit / 64 % 64) as u8;
            bytes.extend_from_slice(&[0xe0 + (unit / 4096) as u8, middle, low])?;
        }
    }
    Ok(())
}

// How many bytes the units take.
fn encoded_len(units: &[u16]) -> usize
    ensures { result ≡ length (flat_map unit_bytes units.now) }
{
    prove!(units.len() <= usize::MAX / 3);
    let mut len = 0;
    for unit in units {
        len += unit_len(*unit);
    }
    len
}

/// Returns the modified UTF-8 of UTF-16 units, each in its shortest form (Java Virtual Machine Specification, section 4.4.7).
///
/// Allocates once. If memory runs out, the answer is `AllocError`.
pub fn encode_units(alloc: Global, units: &[u16]) -> Result<Vec<u8>, AllocError>
    ensures { IfOk result (λ bytes. IsModifiedUtf8 units.now bytes.items) }
{
    let mut bytes = Vec::with_capacity(alloc, encoded_len(units))?;
    for unit in units {
        push_unit(&mut bytes, *unit)?;
    }
    Ok(bytes)
}
