//! Reading an instance or an array after its tag. The bytes of an instance and the elements of an array are not read.

ghost use Rattle.std.specs.Prelude.{◌≡◌, ◌≤◌, length, sum, Ok, Err, OnOk, MatchResult};
ghost use Rattle.hprof_values.specs.Basic.{basic_of_code};
ghost use Rattle.hprof_values.specs.FieldGroups.{fields_in};
ghost use Rattle.hprof_values.specs.BoundedBytes.{bounds_of};
ghost use Rattle.hprof_items.specs.SubRecord.{instance_widths, obj_array_widths, prim_array_widths, element_type, instance_at};
ghost use Rattle.hprof_items.specs.SubRecord.{obj_array_at, prim_array_at};
ghost use Rattle.hprof_items.specs.Fronts.{instance_front, obj_array_front, prim_array_front};
ghost use Rattle.hprof_items.specs.FactValue.{value_of, ListsHave};

use crate::fact::Fact;
use hprof_values::number::{byte_at, id_at, ids_len, split_id, split_u32, values_len};
use hprof_values::{Basic, BoundedBytes, IdList, IdSize, ParseStop, Reason};

/// The fields of an instance dump before its bytes.
#[derive(Clone, Copy)]
struct InstanceFront {
    id: u64,
    trace: u32,
    class: u64,
    /// The number of bytes.
    len: u32,
}

/// Returns the fields at the front of an instance dump.
#[inline(always)]
fn instance_fields(bytes: &[u8], ids: IdSize) -> InstanceFront
    requires { sum (instance_widths ids) ≤ length bytes.now }
    ensures { instance_front result ≡ fields_in (instance_widths ids) bytes.now }
{
    let (id, rest) = split_id(bytes, ids);
    let (trace, rest) = split_u32(rest);
    let (class, rest) = split_id(rest, ids);
    let (len, _) = split_u32(rest);
    InstanceFront {
        id,
        trace,
        class,
        len,
    }
}

/// Reads an instance, and stores it in `fact`.
#[tactic(auto, unfolding(crate::specs::SubRecord::instance_at))]
#[inline(always)]
pub(crate) fn read_instance<'a>(
    item: &BoundedBytes<'a>,
    ids: IdSize,
    fact: &mut Fact<'a>,
) -> Result<usize, ParseStop>
    ensures fact { MatchResult result
        (λ end. instance_at ids (bounds_of item.now) item.now.bytes.now ≡ Ok (value_of fact.new, end))
        (λ stop. instance_at ids (bounds_of item.now) item.now.bytes.now ≡ Err stop) }
    ensures lists { OnOk result (ListsHave ids fact.new) }
{
    let first = item.end_of(1, &[ids.width(), 4, ids.width(), 4])?;
    let (_, fields) = item.bytes.split_at(1);
    let front = instance_fields(fields, ids);
    let end = item.end_of(first, &[front.len as usize])?;
    let (_, rest) = item.bytes.split_at(first);
    let (bytes, _) = rest.split_at(front.len as usize);
    *fact = Fact::Instance {
        id: front.id,
        trace: front.trace,
        class: front.class,
        bytes,
    };
    Ok(end)
}

/// The fields of an object array before its elements.
#[derive(Clone, Copy)]
struct ObjArrayFront {
    id: u64,
    trace: u32,
    /// The number of elements.
    count: u32,
    class: u64,
}

/// Returns the fields at the front of an object array.
#[inline(always)]
fn obj_array_fields(bytes: &[u8], ids: IdSize) -> ObjArrayFront
    requires { sum (obj_array_widths ids) ≤ length bytes.now }
    ensures { obj_array_front result ≡ fields_in (obj_array_widths ids) bytes.now }
{
    let (id, rest) = split_id(bytes, ids);
    let (trace, rest) = split_u32(rest);
    let (count, rest) = split_u32(rest);
    ObjArrayFront {
        id,
        trace,
        count,
        class: id_at(rest, ids),
    }
}

/// Reads an object array, and stores it in `fact`.
#[tactic(auto, unfolding(crate::specs::SubRecord::obj_array_at))]
#[inline(always)]
pub(crate) fn read_obj_array<'a>(
    item: &BoundedBytes<'a>,
    ids: IdSize,
    fact: &mut Fact<'a>,
) -> Result<usize, ParseStop>
    ensures fact { MatchResult result
        (λ end. obj_array_at ids (bounds_of item.now) item.now.bytes.now ≡ Ok (value_of fact.new, end))
        (λ stop. obj_array_at ids (bounds_of item.now) item.now.bytes.now ≡ Err stop) }
    ensures lists { OnOk result (ListsHave ids fact.new) }
{
    let first = item.end_of(1, &[ids.width(), 4, 4, ids.width()])?;
    let (_, fields) = item.bytes.split_at(1);
    let front = obj_array_fields(fields, ids);
    let len = ids_len(front.count, ids);
    let end = item.end_of(first, &[len])?;
    let (_, rest) = item.bytes.split_at(first);
    let (bytes, _) = rest.split_at(len);
    *fact = Fact::ObjArray {
        id: front.id,
        trace: front.trace,
        class: front.class,
        elements: IdList::of_whole(bytes, ids),
    };
    Ok(end)
}

/// The fields of a primitive array before its elements.
#[derive(Clone, Copy)]
struct PrimArrayFront {
    id: u64,
    trace: u32,
    /// The number of elements.
    count: u32,
    /// The code of their type.
    code: u8,
}

/// Returns the fields at the front of a primitive array.
#[inline(always)]
fn prim_array_fields(bytes: &[u8], ids: IdSize) -> PrimArrayFront
    requires { sum (prim_array_widths ids) ≤ length bytes.now }
    ensures { prim_array_front result ≡ fields_in (prim_array_widths ids) bytes.now }
{
    let (id, rest) = split_id(bytes, ids);
    let (trace, rest) = split_u32(rest);
    let (count, rest) = split_u32(rest);
    PrimArrayFront {
        id,
        trace,
        count,
        code: byte_at(rest),
    }
}

/// Returns the type of the elements of an array, from its code.
#[inline(always)]
fn element_type(code: u8) -> Result<Basic, ParseStop>
    ensures { result ≡ element_type (basic_of_code code) }
{
    match Basic::from_code(code) {
        None | Some(Basic::Array | Basic::Object) => Err(ParseStop::Fault(Reason::BadType)),
        Some(basic) => Ok(basic),
    }
}

/// Reads a primitive array, and stores it in `fact`.
#[tactic(auto, unfolding(crate::specs::SubRecord::prim_array_at))]
#[inline(always)]
pub(crate) fn read_prim_array<'a>(
    item: &BoundedBytes<'a>,
    ids: IdSize,
    fact: &mut Fact<'a>,
) -> Result<usize, ParseStop>
    ensures fact { MatchResult result
        (λ end. prim_array_at ids (bounds_of item.now) item.now.bytes.now ≡ Ok (value_of fact.new, end))
        (λ stop. prim_array_at ids (bounds_of item.now) item.now.bytes.now ≡ Err stop) }
    ensures lists { OnOk result (ListsHave ids fact.new) }
{
    let first = item.end_of(1, &[ids.width(), 4, 4, 1])?;
    let (_, fields) = item.bytes.split_at(1);
    let front = prim_array_fields(fields, ids);
    let elem = element_type(front.code)?;
    let len = values_len(front.count, elem, ids);
    let end = item.end_of(first, &[len])?;
    let (_, rest) = item.bytes.split_at(first);
    let (bytes, _) = rest.split_at(len);
    *fact = Fact::PrimArray {
        id: front.id,
        trace: front.trace,
        elem,
        bytes,
    };
    Ok(end)
}
