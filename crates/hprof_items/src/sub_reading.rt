//! Reading a sub-record.

ghost use Rattle.std.specs.Prelude.{◌≡◌, ℕ, ◌≤◌, ◌++◌, List, length, Ok, Err, IfOk, OnOk, IsOkAnd, MatchResult};
ghost use Rattle.hprof_values.specs.BoundedBytes.{bounds_of};
ghost use Rattle.hprof_items.specs.FactValue.{FactValue, value_of, ListsHave};
ghost use Rattle.hprof_items.specs.SubRecord.{dump_at, tag_at, sub_at, dump_bytes, DumpFits};
ghost use Rattle.hprof_items.specs.SubReading.{bounds_within, IsSubRead};

use crate::class_reading::read_class;
use crate::fact::Fact;
use crate::object_reading::{read_instance, read_obj_array, read_prim_array};
use crate::root_reading::read_root;
use hprof_values::{BoundedBytes, IdSize, ParseStop, Reason, SubTag};

/// Reads a sub-record after its tag, and stores its fact in `fact`.
#[inline(always)]
fn read_behind<'a>(
    item: &BoundedBytes<'a>,
    tag: SubTag,
    ids: IdSize,
    fact: &mut Fact<'a>,
) -> Result<usize, ParseStop>
    ensures fact { MatchResult result
        (λ end. dump_at ids tag (bounds_of item.now) item.now.bytes.now ≡ Ok (value_of fact.new, end))
        (λ stop. dump_at ids tag (bounds_of item.now) item.now.bytes.now ≡ Err stop) }
    ensures lists { OnOk result (ListsHave ids fact.new) }
{
    match tag {
        SubTag::ClassDump => read_class(item, ids, fact),
        SubTag::InstanceDump => read_instance(item, ids, fact),
        SubTag::ObjArrayDump => read_obj_array(item, ids, fact),
        SubTag::PrimArrayDump => read_prim_array(item, ids, fact),
        _ => read_root(item, tag, ids, fact),
    }
}

/// Returns the tag at the front.
#[inline(always)]
pub(crate) fn read_tag(item: &BoundedBytes<'_>) -> Result<SubTag, ParseStop>
    ensures { result ≡ tag_at (bounds_of item.now) item.now.bytes.now }
{
    if item.bytes.is_empty() {
        return Err(ParseStop::Short);
    }
    item.end_of(0, &[1])?;
    match SubTag::from_code(item.bytes[0]) {
        Some(tag) => Ok(tag),
        None => Err(ParseStop::Fault(Reason::BadSubTag)),
    }
}

/// Reads the sub-record at the front, and stores its fact in `fact`.
#[tactic(auto, using(crate::proofs::Dumps::sub_tagged, crate::proofs::Dumps::sub_stops))]
#[inline(always)]
fn read_item<'a>(
    item: &BoundedBytes<'a>,
    ids: IdSize,
    fact: &mut Fact<'a>,
) -> Result<usize, ParseStop>
    ensures fact { MatchResult result
        (λ end. sub_at ids (bounds_of item.now) item.now.bytes.now ≡ Ok (value_of fact.new, end))
        (λ stop. sub_at ids (bounds_of item.now) item.now.bytes.now ≡ Err stop) }
    ensures lists { OnOk result (ListsHave ids fact.new) }
{
    let tag = read_tag(item)?;
    read_behind(item, tag, ids, fact)
}

/// Reads the sub-record at the front of the `room` bytes that its record has left, as [`read_sub`] does, and stores its fact in `fact`.
///
/// Returns the place where the sub-record ends. If it stops earlier, the value of `fact` is unspecified.
#[inline(always)]
pub fn read_sub_into<'a>(
    bytes: &'a [u8],
    room: u32,
    longest: u32,
    ids: IdSize,
    fact: &mut Fact<'a>,
) -> Result<usize, ParseStop>
    requires { 1 ≤ room }
    // Which fact it is and where it ends, or what stopped it.
    ensures exact { MatchResult result
        (λ end. sub_at ids (bounds_within room longest bytes.now) bytes.now ≡ Ok (value_of fact.new, end))
        (λ stop. sub_at ids (bounds_within room longest bytes.now) bytes.now ≡ Err stop) }
    // What is read is spelled so, and has lists of that size.
    ensures found { IfOk result (λ end. IsSubRead ids room longest bytes.now fact.new end) }
    // What is spelled so is read, whatever follows.
    ensures only { (spelled : FactValue) (rest : List ℕ) → DumpFits ids spelled → bytes.now ≡ dump_bytes ids spelled ++ rest
        → length (dump_bytes ids spelled) ≤ room → length (dump_bytes ids spelled) ≤ longest
        → IsOkAnd result (λ end. (value_of fact.new ≡ spelled) × (end ≡ length (dump_bytes ids spelled))) }
{
    let item = BoundedBytes {
        bytes,
        room: room as usize,
        longest: longest as usize,
    };
    read_item(&item, ids, fact)
}

/// Reads the sub-record at the front of the `room` bytes that its record has left, and returns its fact with the number of its bytes. It
/// may have at most `longest` bytes.
///
/// Fields are tested from left to right: each must end within the record, then within `longest`, then its bytes must be there, then it must
/// be valid. If there are no bytes, more are needed. The bytes of an instance and the elements of an array are not read.
#[inline(always)]
pub fn read_sub(
    bytes: &[u8],
    room: u32,
    longest: u32,
    ids: IdSize,
) -> Result<(Fact<'_>, usize), ParseStop>
    requires { 1 ≤ room }
    // Which fact it is and where it ends, or what stopped it.
    ensures exact { MatchResult result
        (λ read. sub_at ids (bounds_within room longest bytes.now) bytes.now ≡ Ok (value_of read.0, read.1))
        (λ stop. sub_at ids (bounds_within room longest bytes.now) bytes.now ≡ Err stop) }
    // What is read is spelled so, and has lists of that size.
    ensures found { IfOk result (λ read. IsSubRead ids room longest bytes.now read.0 read.1) }
    // What is spelled so is read, whatever follows.
    ensures only { (fact : FactValue) (rest : List ℕ) → DumpFits ids fact → bytes.now ≡ dump_bytes ids fact ++ rest
        → length (dump_bytes ids fact) ≤ room → length (dump_bytes ids fact) ≤ longest
        → IsOkAnd result (λ read. (value_of read.0 ≡ fact) × (read.1 ≡ length (dump_bytes ids fact))) }
{
    let mut fact = Fact::End { thread: 0 };
    let end = read_sub_into(bytes, room, longest, ids, &mut fact)?;
    Ok((fact, end))
}
