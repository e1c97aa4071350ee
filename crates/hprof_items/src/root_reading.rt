//! Reading a GC root after its tag.

ghost use Rattle.std.specs.Prelude.{◌≡◌, ◌≤◌, length, sum, Ok, Err, OnOk, MatchResult};
ghost use Rattle.hprof_values.specs.FieldGroups.{fields_in, reached};
ghost use Rattle.hprof_values.specs.BoundedBytes.{bounds_of};
ghost use Rattle.hprof_values.specs.Root.{root_fields};
ghost use Rattle.hprof_items.specs.FactValue.{Rooted, value_of, ListsHave};
ghost use Rattle.hprof_items.specs.SubRecord.{root_of, root_at};

use crate::fact::Fact;
use hprof_values::number::{split_id, split_u32};
use hprof_values::{BoundedBytes, IdSize, ParseStop, Root, SubTag};

/// Returns the end of the fields of a root, or the failure of the first test that fails.
fn root_end(item: &BoundedBytes<'_>, tag: SubTag, ids: IdSize) -> Result<usize, ParseStop>
    ensures { result ≡ reached (bounds_of item.now) 1 (root_fields ids tag) }
{
    let id = ids.width();
    match tag {
        SubTag::RootJniGlobal => item.end_of(1, &[id, id]),
        SubTag::RootJniLocal | SubTag::RootJavaFrame | SubTag::RootThreadObject => {
            item.end_of(1, &[id, 4, 4])
        }
        SubTag::RootNativeStack | SubTag::RootBlock => item.end_of(1, &[id, 4]),
        _ => item.end_of(1, &[id]),
    }
}

/// Returns the root with this tag whose fields are at the front.
fn root_in(bytes: &[u8], tag: SubTag, ids: IdSize) -> Root
    requires { sum (root_fields ids tag) ≤ length bytes.now }
    ensures { result ≡ root_of tag (fields_in (root_fields ids tag) bytes.now) }
{
    let (id, rest) = split_id(bytes, ids);
    match tag {
        SubTag::RootJniGlobal => {
            let (reference, _) = split_id(rest, ids);
            Root::JniGlobal { id, reference }
        }
        SubTag::RootJniLocal => {
            let (thread, rest) = split_u32(rest);
            let (frame, _) = split_u32(rest);
            Root::JniLocal { id, thread, frame }
        }
        SubTag::RootJavaFrame => {
            let (thread, rest) = split_u32(rest);
            let (frame, _) = split_u32(rest);
            Root::JavaFrame { id, thread, frame }
        }
        SubTag::RootNativeStack => {
            let (thread, _) = split_u32(rest);
            Root::NativeStack { id, thread }
        }
        SubTag::RootSticky => Root::Sticky { id },
        SubTag::RootBlock => {
            let (thread, _) = split_u32(rest);
            Root::Block { id, thread }
        }
        SubTag::RootMonitor => Root::Monitor { id },
        SubTag::RootThreadObject => {
            let (thread, rest) = split_u32(rest);
            let (trace, _) = split_u32(rest);
            Root::ThreadObject { id, thread, trace }
        }
        _ => Root::Unknown { id },
    }
}

/// Returns the root with this tag at the front, and the place where it ends. It is not inlined, since few items are roots. It takes the
/// item by value, so that its callers can keep theirs in registers.
#[tactic(auto, unfolding(crate::specs::SubRecord::root_at))]
#[inline(never)]
fn whole_root(item: BoundedBytes<'_>, tag: SubTag, ids: IdSize) -> Result<(Root, usize), ParseStop>
    ensures fact { MatchResult result
        (λ read. root_at ids tag (bounds_of item.entry) item.entry.bytes.now ≡ Ok (Rooted read.0, read.1))
        (λ stop. root_at ids tag (bounds_of item.entry) item.entry.bytes.now ≡ Err stop) }
{
    let end = root_end(&item, tag, ids)?;
    let (_, fields) = item.bytes.split_at(1);
    Ok((root_in(fields, tag, ids), end))
}

/// Reads a root after its tag, and stores it in `fact`.
#[inline(always)]
pub(crate) fn read_root<'a>(
    item: &BoundedBytes<'a>,
    tag: SubTag,
    ids: IdSize,
    fact: &mut Fact<'a>,
) -> Result<usize, ParseStop>
    ensures fact { MatchResult result
        (λ end. root_at ids tag (bounds_of item.now) item.now.bytes.now ≡ Ok (value_of fact.new, end))
        (λ stop. root_at ids tag (bounds_of item.now) item.now.bytes.now ≡ Err stop) }
    ensures lists { OnOk result (ListsHave ids fact.new) }
{
    let (root, end) = whole_root(*item, tag, ids)?;
    *fact = Fact::Root(root);
    Ok(end)
}
