//! Helpers for the fields of records and sub-records.

ghost use Rattle.std.specs.Prelude.{◌≡◌};
ghost use Rattle.hprof_values.specs.Ids.{IsBytes};

use hprof_values::Number;

/// The number in an unused field.
pub(crate) const NO_FIELD: Number = Number::One(0);

/// Returns the bytes. Its contract states that each is below 256.
#[inline(always)]
pub(crate) fn in_range(bytes: &[u8]) -> &[u8]
    ensures same { result.now ≡ bytes.now }
    ensures range { IsBytes bytes.now }
{
    bytes
}
