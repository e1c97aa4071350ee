//! Reading a class dump after its tag.

ghost use Rattle.std.specs.Prelude.{◌≡◌, ◌≤◌, length, sum, Ok, Err, IfOk, OnOk, MatchResult};
ghost use Rattle.hprof_values.specs.FieldGroups.{fields_in};
ghost use Rattle.hprof_values.specs.BoundedBytes.{bounds_of};
ghost use Rattle.hprof_values.specs.declared.ids.IdSize.{IdSize};
ghost use Rattle.hprof_values.specs.Lists.{entries_of, entries_size};
ghost use Rattle.hprof_items.specs.ClassDump.{class_widths, class_of, class_at};
ghost use Rattle.hprof_items.specs.Fronts.{class_front};
ghost use Rattle.hprof_items.specs.FactValue.{value_of, ListsHave};

use crate::fact::Fact;
use hprof_values::number::{split_id, split_u32};
use hprof_values::{
    BoundedBytes, ConstantList, EntryKind, FieldList, IdSize, ParseStop, StaticList, list_at,
};

/// The fields of a class dump before its lists.
#[derive(Clone, Copy)]
struct ClassFront {
    id: u64,
    trace: u32,
    parent: u64,
    loader: u64,
    signers: u64,
    domain: u64,
    reserved1: u64,
    reserved2: u64,
    size: u32,
}

/// Returns the fields at the front.
fn split_front(bytes: &[u8], ids: IdSize) -> ClassFront
    requires { sum (class_widths ids) ≤ length bytes.now }
    ensures { class_front result ≡ fields_in (class_widths ids) bytes.now }
{
    let (id, rest) = split_id(bytes, ids);
    let (trace, rest) = split_u32(rest);
    let (parent, rest) = split_id(rest, ids);
    let (loader, rest) = split_id(rest, ids);
    let (signers, rest) = split_id(rest, ids);
    let (domain, rest) = split_id(rest, ids);
    let (reserved1, rest) = split_id(rest, ids);
    let (reserved2, rest) = split_id(rest, ids);
    let (size, _) = split_u32(rest);
    ClassFront {
        id,
        trace,
        parent,
        loader,
        signers,
        domain,
        reserved1,
        reserved2,
        size,
    }
}

/// Returns the class dump with these fields and lists.
fn class_of<'a>(
    front: ClassFront,
    constants: ConstantList<'a>,
    statics: StaticList<'a>,
    fields: FieldList<'a>,
) -> Fact<'a>
    ensures fact { value_of result ≡ class_of (class_front front) (entries_of constants.entry) (entries_of statics.entry)
        (entries_of fields.entry) }
    ensures lists { (ids : IdSize) → entries_size constants.entry ≡ ids → entries_size statics.entry ≡ ids
        → entries_size fields.entry ≡ ids → ListsHave ids result }
{
    Fact::Class {
        id: front.id,
        trace: front.trace,
        parent: front.parent,
        loader: front.loader,
        signers: front.signers,
        domain: front.domain,
        reserved1: front.reserved1,
        reserved2: front.reserved2,
        size: front.size,
        constants,
        statics,
        fields,
    }
}

/// Returns the class dump at the front, and the place where it ends. It is not inlined, since few items are class dumps. It takes the item
/// by value, so that its callers can keep theirs in registers.
#[tactic(auto, unfolding(crate::specs::ClassDump::class_at))]
#[inline(never)]
fn whole_class<'a>(item: BoundedBytes<'a>, ids: IdSize) -> Result<(Fact<'a>, usize), ParseStop>
    ensures fact { MatchResult result
        (λ read. class_at ids (bounds_of item.entry) item.entry.bytes.now ≡ Ok (value_of read.0, read.1))
        (λ stop. class_at ids (bounds_of item.entry) item.entry.bytes.now ≡ Err stop) }
    ensures lists { IfOk result (λ read. ListsHave ids read.0) }
{
    let id = ids.width();
    let first = item.end_of(1, &[id, 4, id, id, id, id, id, id, 4])?;
    let (_, fields) = item.bytes.split_at(1);
    let front = split_front(fields, ids);
    let constants = list_at(&item, first, EntryKind::Constant, ids)?;
    let statics = list_at(&item, constants.end, EntryKind::Static, ids)?;
    let fields = list_at(&item, statics.end, EntryKind::Field, ids)?;
    let class = class_of(
        front,
        ConstantList::of_span(constants, ids),
        StaticList::of_span(statics, ids),
        FieldList::of_span(fields, ids),
    );
    Ok((class, fields.end))
}

/// Reads a class dump, and stores it in `fact`.
#[inline(always)]
pub(crate) fn read_class<'a>(
    item: &BoundedBytes<'a>,
    ids: IdSize,
    fact: &mut Fact<'a>,
) -> Result<usize, ParseStop>
    ensures fact { MatchResult result
        (λ end. class_at ids (bounds_of item.now) item.now.bytes.now ≡ Ok (value_of fact.new, end))
        (λ stop. class_at ids (bounds_of item.now) item.now.bytes.now ≡ Err stop) }
    ensures lists { OnOk result (ListsHave ids fact.new) }
{
    let (class, end) = whole_class(*item, ids)?;
    *fact = class;
    Ok(end)
}
