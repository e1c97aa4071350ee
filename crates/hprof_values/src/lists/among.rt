//! Searching a list of identifiers.

ghost use Rattle.std.specs.Prelude.{◌≡◌, ◌%◌, ◌↔◌, length, Contains, IsTrue};
ghost use Rattle.hprof_values.specs.Ids.{width_of};
ghost use Rattle.hprof_values.specs.Lists.{ids_in};

use crate::ids::IdSize;
use crate::number::id_at;

/// Returns whether an identifier is among those that the bytes encode. All are compared, without an early exit, so that the loop can be
/// vectorized.
#[inline(always)]
pub(super) fn is_among(bytes: &[u8], ids: IdSize, id: u64) -> bool
    requires { length bytes.now % width_of ids ≡ 0 }
    ensures { IsTrue result ↔ Contains (ids_in ids bytes.now) id }
{
    let mut found = false;
    let mut rest = bytes;
    while !rest.is_empty() {
        found |= id_at(rest, ids) == id;
        (_, rest) = rest.split_at(ids.width());
    }
    found
}
