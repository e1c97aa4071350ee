//! Tests whether fields, and the bytes after them, can be encoded.

ghost use Rattle.std.specs.Prelude.{◌↔◌, IsTrue, ◌+◌, ◌≤◌, length, sum};
ghost use Rattle.hprof_values.specs.FieldGroups.{FitFields};
ghost use Rattle.hprof_values.specs.Numbers.{number_widths, number_values};
ghost use Rattle.hprof_items.specs.Spelling.{longest_body};

use hprof_values::{IdSize, Number, numbers_fit, numbers_len};

/// The greatest length that a length field can hold.
const LONGEST: usize = 4294967295;

/// Returns whether each number fits its field, and the fields with `more` bytes after them are not too long.
#[inline(always)]
pub(crate) fn front_fits(fields: &[Number], more: usize, ids: IdSize) -> bool
    requires { length fields.now ≤ 10 }
    ensures { IsTrue result ↔ (FitFields (number_widths ids fields.now) (number_values fields.now)
        × (sum (number_widths ids fields.now) + more ≤ longest_body)) }
{
    numbers_fit(fields, ids) && more <= LONGEST - numbers_len(fields, ids)
}
