//! Spelling rows.

ghost use Rattle.std.specs.Prelude.{◌≡◌, ◌≤◌, ◌+◌, ◌++◌, ◌<◌, ◌^◌, length, vec_len, vec_capacity, OnOk, OnErr};
ghost use Rattle.hprof_runs.specs.Spelling.{row_bytes};

use crate::header::HEADER_BYTES;
use std::alloc::AllocError;

/// Spells a row behind others, as a run does.
///
/// # Errors
///
/// Memory ran out. The bytes are unchanged.
#[inline(always)]
pub(crate) fn spell_row(spelled: &mut Vec<u8>, key: u64, bytes: &[u8]) -> Result<(), AllocError>
    requires { length bytes.now < 2 ^ 32 }
    ensures ok { OnOk result (spelled.new.items ≡ spelled.old.items ++ row_bytes (key, bytes.now)) }
    ensures err { OnErr result (spelled.new.items ≡ spelled.old.items) }
{
    let key_bytes = key.to_be_bytes();
    let len_bytes = (bytes.len() as u32).to_be_bytes();
    spelled.reserve(HEADER_BYTES + bytes.len())?;
    extend_reserved(spelled, &key_bytes);
    extend_reserved(spelled, &len_bytes);
    extend_reserved(spelled, bytes);
    Ok(())
}

/// Adds bytes behind others. There is room for them.
#[inline(always)]
fn extend_reserved(spelled: &mut Vec<u8>, bytes: &[u8])
    requires { vec_len spelled.old + length bytes.now ≤ vec_capacity spelled.old }
    ensures items { spelled.new.items ≡ spelled.old.items ++ bytes.now }
    ensures len { vec_len spelled.new ≡ vec_len spelled.old + length bytes.now }
    ensures capacity { vec_capacity spelled.old ≤ vec_capacity spelled.new }
{
    let Ok(()) = spelled.extend_from_slice(bytes) else {
        unreachable!()
    };
}
