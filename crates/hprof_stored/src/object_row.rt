//! The object that a row spells.

ghost use Rattle.std.specs.Prelude.{IsFalse, IsTrue};
ghost use Rattle.hprof_items.specs.FactValue.{FactValue, ListsHave, value_of};
ghost use Rattle.hprof_stored.specs.RowDecoder.{SpellsObject};

use hprof_items::{Fact, read_sub_into};
use hprof_objects::object_id;
use hprof_values::IdSize;

/// Reads the object that the bytes of a row spell. Returns whether they are the sub-record of one; if they are not, the value of `object`
/// is unspecified.
#[inline(always)]
pub(crate) fn read_object<'a>(bytes: &'a [u8], ids: IdSize, object: &mut Fact<'a>) -> bool
    ensures object { IsTrue result → SpellsObject ids bytes.now (value_of object.new) }
    ensures lists { IsTrue result → ListsHave ids object.new }
    ensures none { IsFalse result → (spelled : FactValue) → SpellsObject ids bytes.now spelled → ⊥ }
{
    if bytes.is_empty() {
        return false;
    }
    let Ok(len) = u32::try_from(bytes.len()) else {
        return false;
    };
    let Ok(end) = read_sub_into(bytes, len, len, ids, object) else {
        return false;
    };
    end == bytes.len() && object_id(object).is_some()
}
