//! Instances and arrays as a heap stores them: by identifier, with the rest of their sub-record.

ghost use Rattle.std.specs.Prelude.{◌≡◌, ◌+◌, ◌%◌, ◌≤◌, ℕ, length, drop, Some};
ghost use Rattle.byteorder.specs.Endian.{big_number};
ghost use Rattle.hprof_values.specs.declared.basic.Basic.{Basic};
ghost use Rattle.hprof_values.specs.Basic.{basic_of_code};
ghost use Rattle.hprof_values.specs.Ids.{width_of};
ghost use Rattle.hprof_items.specs.FactValue.{FactValue, ListsHave, value_of};
ghost use Rattle.hprof_rows.specs.Kept.{KeepsObject, instance_kept, obj_array_kept, prim_array_kept};

use hprof_items::Fact;
use hprof_values::number::{byte_at, id_at, split_u32};
use hprof_values::{Basic, IdList, IdSize, SubTag};

/// Stores the instance with this identifier in `fact`. The bytes are those after the identifier.
#[inline(always)]
fn kept_instance<'a>(id: u64, bytes: &'a [u8], ids: IdSize, fact: &mut Fact<'a>)
    requires { 8 + width_of ids ≤ length bytes.now }
    ensures fact { value_of fact.new ≡ instance_kept ids id bytes.now }
    ensures lists { ListsHave ids fact.new }
{
    let (trace, rest) = split_u32(bytes);
    let class = id_at(rest, ids);
    let (_, bytes) = bytes.split_at(8 + ids.width());
    *fact = Fact::Instance {
        id,
        trace,
        class,
        bytes,
    };
}

/// Stores the object array with this identifier in `fact`. The bytes are those after the identifier.
#[inline(always)]
fn kept_obj_array<'a>(id: u64, bytes: &'a [u8], ids: IdSize, fact: &mut Fact<'a>)
    requires front { 8 + width_of ids ≤ length bytes.now }
    requires whole { length (drop (8 + width_of ids) bytes.now) % width_of ids ≡ 0 }
    ensures fact { value_of fact.new ≡ obj_array_kept ids id bytes.now }
    ensures lists { ListsHave ids fact.new }
{
    let (trace, rest) = split_u32(bytes);
    let (_, rest) = rest.split_at(4);
    let class = id_at(rest, ids);
    let (_, elements) = bytes.split_at(8 + ids.width());
    *fact = Fact::ObjArray {
        id,
        trace,
        class,
        elements: IdList::of_whole(elements, ids),
    };
}

/// Stores the primitive array with this identifier in `fact`. The bytes are those after the identifier.
#[inline(always)]
fn kept_prim_array<'a>(id: u64, bytes: &'a [u8], ids: IdSize, fact: &mut Fact<'a>)
    requires front { 9 ≤ length bytes.now }
    requires type_is { (elem : Basic) × (basic_of_code (big_number 1 (drop 4 (drop 4 bytes.now))) ≡ Some elem) }
    ensures fact { (elem : Basic) → basic_of_code (big_number 1 (drop 4 (drop 4 bytes.now))) ≡ Some elem
        → value_of fact.new ≡ prim_array_kept id elem bytes.now }
    ensures lists { ListsHave ids fact.new }
{
    let (trace, rest) = split_u32(bytes);
    let (_, rest) = rest.split_at(4);
    let Some(elem) = Basic::from_code(byte_at(rest)) else {
        unreachable!()
    };
    let (_, bytes) = bytes.split_at(9);
    *fact = Fact::PrimArray {
        id,
        trace,
        elem,
        bytes,
    };
}

/// Stores the instance or the array with this identifier in `fact`. The bytes are its sub-record without the identifier.
#[inline(always)]
pub(crate) fn decode_object_into<'a>(id: u64, kept: &'a [u8], ids: IdSize, fact: &mut Fact<'a>)
    requires { (value : FactValue) × KeepsObject ids id value kept.now }
    ensures fact { (value : FactValue) → KeepsObject ids id value kept.now → value_of fact.new ≡ value }
    ensures lists { ListsHave ids fact.new }
{
    let Some((tag, bytes)) = kept.split_first() else {
        unreachable!()
    };
    match SubTag::from_code(*tag) {
        Some(SubTag::InstanceDump) => kept_instance(id, bytes, ids, fact),
        Some(SubTag::ObjArrayDump) => kept_obj_array(id, bytes, ids, fact),
        Some(SubTag::PrimArrayDump) => kept_prim_array(id, bytes, ids, fact),
        _ => unreachable!(),
    }
}

/// Returns the instance or the array with this identifier. The bytes are its sub-record without the identifier.
#[inline(always)]
pub fn decode_object(id: u64, kept: &[u8], ids: IdSize) -> Fact<'_>
    requires { (value : FactValue) × KeepsObject ids id value kept.now }
    ensures fact { (value : FactValue) → KeepsObject ids id value kept.now → value_of result ≡ value }
    ensures lists { ListsHave ids result }
{
    let mut fact = Fact::End { thread: 0 };
    decode_object_into(id, kept, ids, &mut fact);
    fact
}
