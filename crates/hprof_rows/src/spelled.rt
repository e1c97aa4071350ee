//! Class dumps, which a heap stores as their sub-records.

ghost use Rattle.std.specs.Prelude.{◌≡◌};
ghost use Rattle.hprof_items.specs.FactValue.{FactValue, ListsHave, value_of};
ghost use Rattle.hprof_rows.specs.Spelled.{Spells};

use hprof_items::{Fact, read_sub_into};
use hprof_values::IdSize;

/// Returns the fact of a sub-record.
#[inline(always)]
pub fn decode_class(bytes: &[u8], ids: IdSize) -> Fact<'_>
    requires { (value : FactValue) × Spells ids value bytes.now }
    ensures fact { (value : FactValue) → Spells ids value bytes.now → value_of result ≡ value }
    ensures lists { ListsHave ids result }
{
    let mut fact = Fact::End { thread: 0 };
    let len = bytes.len() as u32;
    match read_sub_into(bytes, len, len, ids, &mut fact) {
        Ok(_) => fact,
        Err(_) => unreachable!(),
    }
}
