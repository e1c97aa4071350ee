//! Headers of rows.

ghost use Rattle.std.specs.Prelude.{◌≡◌, ◌≤◌, ◌↔◌, length, IsTrue, IfOk, OnOk, IfErr};
ghost use Rattle.std.specs.Option.{ForSome};
ghost use Rattle.hprof_runs.specs.Spelling.{spelled_content, spelled_key, spelled_len};

use crate::run_bytes::RunBytes;
use crate::run_fault::RunFault;
use crate::scratch::Scratch;

/// The header of a row in a run: its key, and the number of its bytes.
#[derive(Clone, Copy)]
pub(crate) struct Header {
    /// The key.
    pub(crate) key: u64,
    /// The number of the bytes.
    pub(crate) len: u32,
}

/// The number of bytes of a header.
pub(crate) const HEADER_BYTES: usize = 12;

/// Returns the header that bytes begin with.
#[inline(always)]
fn first_header(bytes: &[u8]) -> Header
    requires { 12 ≤ length bytes.now }
    ensures key { result.key ≡ spelled_key bytes.now }
    ensures len { result.len ≡ spelled_len bytes.now }
{
    let Some((key, rest)) = bytes.split_first_chunk::<8>() else {
        unreachable!()
    };
    let Some((len, _)) = rest.split_first_chunk::<4>() else {
        unreachable!()
    };
    Header {
        key: u64::from_be_bytes(*key),
        len: u32::from_be_bytes(*len),
    }
}

/// Returns the bytes of the row that bytes begin with, or as many of them as there are.
#[inline(always)]
pub(crate) fn first_content(bytes: &[u8]) -> &[u8]
    ensures { result.now ≡ spelled_content bytes.now }
{
    if bytes.len() < HEADER_BYTES {
        return &[];
    }
    let header = first_header(bytes);
    let rest = &bytes[HEADER_BYTES..];
    rest.get(..header.len as usize).unwrap_or(rest)
}

impl Header {
    ghost use Rattle.hprof_runs.specs.Header.{HasNoRows, IsKeyAbove, ReadsRows};
    ghost use Rattle.hprof_runs.specs.RunBytes.{held_bytes, scratch_under};
    ghost use Rattle.hprof_runs.specs.RunFault.{IfDamaged, IfReadFailed};

    /// Reads the header of the next row, and its bytes behind it. Returns `None` at the end of the run.
    pub(crate) fn read<S: Scratch>(bytes: &mut RunBytes<'_, S>) -> Result<Option<Self>, RunFault>
        ensures rows { IfOk result (λ header. ReadsRows S.written bytes.old header bytes.new) }
        ensures scratch { OnOk result (scratch_under bytes.new ≡ scratch_under bytes.old) }
        ensures whole { IfOk result (λ header. ForSome header (λ one. one.len ≤ length (held_bytes bytes.new))) }
        ensures fault { IfErr result (λ fault. IfDamaged fault (HasNoRows S.written bytes.old)) }
        ensures read { IfErr result (λ fault. IfReadFailed fault (S.unreadable (scratch_under bytes.old))) }
    {
        if bytes.is_empty() {
            return Ok(None);
        }
        bytes.hold(HEADER_BYTES)?;
        let header = first_header(bytes.held());
        bytes.pass(HEADER_BYTES);
        bytes.hold(header.len as usize)?;
        Ok(Some(header))
    }

    /// Returns whether the next key, if there is one, is above the key.
    #[inline(always)]
    pub(crate) fn is_below(self, next: Option<Self>) -> bool
        ensures { IsTrue result ↔ IsKeyAbove self.key next }
    {
        match next {
            Some(next) => self.key < next.key,
            None => true,
        }
    }
}
