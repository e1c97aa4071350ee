//! Finding the end of a sub-record by a walk that stops where the bytes end and resumes when more have come.

ghost use Rattle.std.specs.Prelude.{◌≡◌, ◌≢◌, ◌≤◌, ◌++◌, ℕ, List, length, IfErr, MatchResult, Ok, Err};
ghost use Rattle.hprof_values.specs.FieldGroups.{with_more};
ghost use Rattle.hprof_values.specs.BoundedBytes.{bounds_of};
ghost use Rattle.hprof_items.specs.SubRecord.{dump_at};
ghost use Rattle.hprof_items.specs.Walk.{end_of_read, walked, IsPlaced, FindsSame, StopsAt, next_kind, count_at, class_count};

use crate::fact::Fact;
use crate::object_reading::{read_instance, read_obj_array, read_prim_array};
use crate::root_reading::read_root;
use crate::sub_reading::read_tag;
use byteorder::{BigEndian, ByteOrder};
use hprof_values::{BoundedBytes, EntryKind, IdSize, ParseStop, SubTag, entry_end};

/// The point that the walk over a sub-record has reached.
#[derive(Clone, Copy, Debug, PartialEq, Eq)]
pub enum Walk {
    /// Its first byte.
    Front,
    /// An entry in a list of a class dump. The fields before the lists are tested.
    Entries {
        /// The list.
        kind: EntryKind,
        /// The number of entries left in the list.
        left: usize,
        /// The place where the next entry begins.
        at: usize,
    },
}

/// Walks over the available entries of a list, and returns the place where the last entry of the list ends.
fn pass_entries(
    item: &BoundedBytes<'_>,
    ids: IdSize,
    kind: EntryKind,
    mut left: usize,
    mut at: usize,
) -> (Walk, Result<usize, ParseStop>)
    requires { at ≤ length item.now.bytes.now }
    ensures placed { IsPlaced item.now result.0 }
    ensures kept { FindsSame ids item.now result.0 (Walk.Entries kind left at) }
    ensures answer { MatchResult result.1 (λ end. result.0 ≡ Walk.Entries kind 0 end)
        (λ stop. walked ids (bounds_of item.now) item.now.bytes.now result.0 ≡ Err stop) }
    ensures stands { IfErr result.1 (StopsAt ids item.now result.0) }
{
    while left > 0 {
        match entry_end(item, at, kind, ids) {
            Err(stop) => return (Walk::Entries { kind, left, at }, Err(stop)),
            Ok(end) => {
                at = end;
                left -= 1;
            }
        }
    }
    (Walk::Entries { kind, left, at }, Ok(at))
}

/// Returns the list that follows a list of this kind.
fn next_kind(kind: EntryKind) -> Option<EntryKind>
    ensures { result ≡ next_kind kind }
{
    match kind {
        EntryKind::Constant => Some(EntryKind::Static),
        EntryKind::Static => Some(EntryKind::Field),
        EntryKind::Field => None,
    }
}

/// Returns the count of entries that is stored at a place, and the place where the first entry begins.
fn count_at(item: &BoundedBytes<'_>, at: usize) -> Result<(usize, usize), ParseStop>
    requires { at ≤ length item.now.bytes.now }
    ensures { result ≡ count_at (bounds_of item.now) item.now.bytes.now at }
{
    let begin = item.end_of(at, &[2])?;
    let (_, rest) = item.bytes.split_at(at);
    Ok((usize::from(BigEndian::read_u16(rest)), begin))
}

/// Walks over the rest of a list and over the lists after it.
fn pass_lists(
    item: &BoundedBytes<'_>,
    ids: IdSize,
    mut kind: EntryKind,
    mut left: usize,
    mut at: usize,
) -> (Walk, Result<usize, ParseStop>)
    requires { at ≤ length item.now.bytes.now }
    ensures placed { IsPlaced item.now result.0 }
    ensures kept { FindsSame ids item.now result.0 (Walk.Entries kind left at) }
    ensures end { result.1 ≡ walked ids (bounds_of item.now) item.now.bytes.now (Walk.Entries kind left at) }
    ensures stands { IfErr result.1 (StopsAt ids item.now result.0) }
{
    loop {
        let (walk, passed) = pass_entries(item, ids, kind, left, at);
        let end = match passed {
            Ok(end) => end,
            Err(stop) => return (walk, Err(stop)),
        };
        let Some(next) = next_kind(kind) else {
            return (walk, Ok(end));
        };
        match count_at(item, end) {
            Ok((count, begin)) => {
                kind = next;
                left = count;
                at = begin;
            }
            Err(stop) => return (walk, Err(stop)),
        }
    }
}

/// Returns the number of constants of a class dump, and the place where the first begins.
fn class_count(item: &BoundedBytes<'_>, ids: IdSize) -> Result<(usize, usize), ParseStop>
    ensures { result ≡ class_count ids (bounds_of item.now) item.now.bytes.now }
{
    let id = ids.width();
    let front = item.end_of(1, &[id, 4, id, id, id, id, id, id, 4])?;
    count_at(item, front)
}

/// Returns the end of a sub-record that is no class dump.
fn plain_end(item: &BoundedBytes<'_>, tag: SubTag, ids: IdSize) -> Result<usize, ParseStop>
    requires { tag ≢ SubTag.ClassDump }
    ensures { result ≡ end_of_read (dump_at ids tag (bounds_of item.now) item.now.bytes.now) }
{
    let mut fact = Fact::End { thread: 0 };
    match tag {
        SubTag::InstanceDump => read_instance(item, ids, &mut fact),
        SubTag::ObjArrayDump => read_obj_array(item, ids, &mut fact),
        SubTag::PrimArrayDump => read_prim_array(item, ids, &mut fact),
        _ => read_root(item, tag, ids, &mut fact),
    }
}

/// Walks from the first byte of a sub-record.
fn pass_front(item: &BoundedBytes<'_>, ids: IdSize) -> (Walk, Result<usize, ParseStop>)
    ensures placed { IsPlaced item.now result.0 }
    ensures kept { FindsSame ids item.now result.0 Walk.Front }
    ensures end { result.1 ≡ walked ids (bounds_of item.now) item.now.bytes.now Walk.Front }
    ensures stands { IfErr result.1 (StopsAt ids item.now result.0) }
{
    let tag = match read_tag(item) {
        Ok(tag) => tag,
        Err(stop) => return (Walk::Front, Err(stop)),
    };
    let SubTag::ClassDump = tag else {
        return (Walk::Front, plain_end(item, tag, ids));
    };
    match class_count(item, ids) {
        Ok((left, at)) => pass_lists(item, ids, EntryKind::Constant, left, at),
        Err(stop) => (Walk::Front, Err(stop)),
    }
}

/// Resumes a walk as far as there are bytes.
///
/// Returns the point that the walk has reached, with the end of the sub-record or the reason why the walk stopped. An entry that was passed
/// is not tested again.
pub fn resume_sub_record(
    item: &BoundedBytes<'_>,
    ids: IdSize,
    walk: Walk,
) -> (Walk, Result<usize, ParseStop>)
    requires { IsPlaced item.now walk }
    ensures end { result.1 ≡ walked ids (bounds_of item.now) item.now.bytes.now walk }
    ensures placed { IsPlaced item.now result.0 }
    ensures kept { (more : List ℕ) → walked ids (with_more (bounds_of item.now) (length more)) (item.now.bytes.now ++ more) result.0
        ≡ walked ids (with_more (bounds_of item.now) (length more)) (item.now.bytes.now ++ more) walk }
    ensures stands { IfErr result.1 (StopsAt ids item.now result.0) }
{
    match walk {
        Walk::Front => pass_front(item, ids),
        Walk::Entries { kind, left, at } => pass_lists(item, ids, kind, left, at),
    }
}
