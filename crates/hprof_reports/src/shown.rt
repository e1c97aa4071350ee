//! Bits in print.

ghost use Rattle.std.specs.Prelude.{◌≡◌, IfOk, string_bytes};
ghost use Rattle.hprof_reports.specs.Shown.{bits_text};

use hprof_values::{Basic, IdSize};
use std::alloc::{AllocError, Global};

/// Returns the bits of a value of that type, two digits for each byte of its width. If memory runs out, the answer is `AllocError`.
pub(crate) fn bits_text(
    alloc: Global,
    ids: IdSize,
    basic: Basic,
    bits: u64,
) -> Result<String, AllocError>
    ensures { IfOk result (λ text. string_bytes text ≡ bits_text ids basic bits) }
{
    let bytes = bits.to_be_bytes();
    let width = basic.width(ids) as usize;
    hex::encode(alloc, &bytes[8 - width..])
}
