//! The bytes of parts, records and segments. Identifiers have four bytes.

use std::alloc::{AllocError, Global};

/// The header of version 1.0.2 with identifiers of four bytes and time 1.
pub const HEADER: &[u8] = b"JAVA PROFILE 1.0.2\0\0\0\0\x04\0\0\0\0\0\0\0\x01";

/// The record of the name 1, which is `A`.
pub const NAME_1_A: &[u8] = b"\x01\0\0\0\0\0\0\0\x05\0\0\0\x01A";

/// The record of the name 1, which is `B`.
pub const NAME_1_B: &[u8] = b"\x01\0\0\0\0\0\0\0\x05\0\0\0\x01B";

/// The end of a heap dump.
pub const END: &[u8] = b"\x2c\0\0\0\0\0\0\0\0";

/// Names 2 and 1, and a segment with the byte array 16 followed by the sticky class root 16: 89 bytes.
pub const PLAIN: &[u8; 89] = b"JAVA PROFILE 1.0.2\0\0\0\0\x04\0\0\0\0\0\0\0\x01\
    \x01\0\0\0\0\0\0\0\x05\0\0\0\x02B\x01\0\0\0\0\0\0\0\x05\0\0\0\x01A\
    \x1c\0\0\0\0\0\0\0\x15\x23\0\0\0\x10\0\0\0\x01\0\0\0\x02\x08\x01\x02\x05\0\0\0\x10";

/// The 1.0.1 dump of the facts of the plain part: 89 bytes.
pub const PLAIN_101: &[u8] = b"JAVA PROFILE 1.0.1\0\0\0\0\x04\0\0\0\0\0\0\0\x01\
    \x01\0\0\0\0\0\0\0\x05\0\0\0\x01A\x01\0\0\0\0\0\0\0\x05\0\0\0\x02B\
    \x0c\0\0\0\0\0\0\0\x15\x05\0\0\0\x10\x23\0\0\0\x10\0\0\0\x01\0\0\0\x02\x08\x01\x02";

/// Returns the pieces, one after the other.
pub fn bytes_of(alloc: Global, pieces: &[&[u8]]) -> Result<Vec<u8>, AllocError> {
    let mut bytes = Vec::new(alloc);
    for piece in pieces {
        bytes.extend_from_slice(piece)?;
    }
    Ok(bytes)
}

/// Returns the record with this tag and body, and time 0.
pub fn record(alloc: Global, tag: u8, body: &[u8]) -> Result<Vec<u8>, AllocError> {
    let len = u32::try_from(body.len()).unwrap_or(u32::MAX);
    let mut bytes = Vec::new(alloc);
    bytes.extend_from_slice(&[tag, 0, 0, 0, 0])?;
    bytes.extend_from_slice(&len.to_be_bytes())?;
    bytes.extend_from_slice(body)?;
    Ok(bytes)
}
