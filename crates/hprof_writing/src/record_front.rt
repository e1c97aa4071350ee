//! The fields of each record that states one fact, and the bytes after them.

ghost use Rattle.std.specs.Prelude.{◌≡◌, ◌≤◌, take, IsSome, IfSome, None};
ghost use Rattle.hprof_items.specs.Spelling.{Fits};
ghost use Rattle.hprof_items.specs.RecordBody.{record_of};
ghost use Rattle.hprof_items.specs.FactValue.{value_of, ListsHave};
ghost use Rattle.hprof_writing.specs.RecordFronts.{IsRecordFront};

use crate::front_parts::{NO_FIELD, in_range};
use hprof_items::Fact;
use hprof_values::Number::{Four, Id};
use hprof_values::{IdSize, Number, RecordTag};

/// The tag of a record, the fields of its body, and the bytes after them.
#[derive(Clone, Copy)]
pub(crate) struct RecordFront<'a> {
    /// The tag.
    pub tag: RecordTag,
    /// The fields, followed by unused ones.
    pub fields: [Number; 6],
    /// The number of used fields.
    pub count: usize,
    /// The bytes after the fields.
    pub more: &'a [u8],
}

/// Returns the tag, the fields and the bytes of a fact's record, or `None` if its frames have identifiers of another size, or are too many
/// for the field that counts them.
#[inline(always)]
pub(crate) fn record_front<'a>(fact: &Fact<'a>, ids: IdSize) -> Option<RecordFront<'a>>
    requires is { IsSome (record_of (value_of fact.now)) }
    ensures few { IfSome result (λ front. front.count ≤ 6) }
    ensures some { IfSome result (λ front. IsRecordFront ids fact.now front.tag (take front.count front.fields) front.more.now) }
    ensures none { result ≡ None → Fits ids (value_of fact.now) → ListsHave ids fact.now → ⊥ }
{
    let none = NO_FIELD;
    match *fact {
        Fact::Name { id, text } => Some(RecordFront {
            tag: RecordTag::Utf8,
            fields: [Id(id), none, none, none, none, none],
            count: 1,
            more: in_range(text),
        }),
        Fact::Load {
            serial,
            class,
            trace,
            name,
        } => Some(RecordFront {
            tag: RecordTag::LoadClass,
            fields: [Four(serial), Id(class), Four(trace), Id(name), none, none],
            count: 4,
            more: &[],
        }),
        Fact::Unload { serial } => Some(RecordFront {
            tag: RecordTag::UnloadClass,
            fields: [Four(serial), none, none, none, none, none],
            count: 1,
            more: &[],
        }),
        Fact::Frame {
            id,
            method,
            signature,
            source,
            class_serial,
            line,
        } => Some(RecordFront {
            tag: RecordTag::Frame,
            fields: [
                Id(id),
                Id(method),
                Id(signature),
                Id(source),
                Four(class_serial),
                Four(line.cast_unsigned()),
            ],
            count: 6,
            more: &[],
        }),
        Fact::Trace {
            serial,
            thread,
            frames,
        } => {
            if frames.id_size() != ids {
                return None;
            }
            let Ok(count) = u32::try_from(frames.len()) else {
                return None;
            };
            Some(RecordFront {
                tag: RecordTag::Trace,
                fields: [Four(serial), Four(thread), Four(count), none, none, none],
                count: 3,
                more: frames.bytes(),
            })
        }
        Fact::Start {
            thread,
            object,
            trace,
            name,
            group,
            parent_group,
        } => Some(RecordFront {
            tag: RecordTag::StartThread,
            fields: [
                Four(thread),
                Id(object),
                Four(trace),
                Id(name),
                Id(group),
                Id(parent_group),
            ],
            count: 6,
            more: &[],
        }),
        Fact::End { thread } => Some(RecordFront {
            tag: RecordTag::EndThread,
            fields: [Four(thread), none, none, none, none, none],
            count: 1,
            more: &[],
        }),
        _ => unreachable!(),
    }
}
