//! Writing the records that state one fact.

ghost use Rattle.std.specs.Prelude.{◌≡◌, ◌≤◌, ◌++◌, length, IsSome};
ghost use Rattle.hprof_devices.specs.declared.health.Health.TheVariants.{Well};
ghost use Rattle.hprof_values.specs.FieldGroups.{field_bytes, FitFields};
ghost use Rattle.hprof_values.specs.Numbers.{number_widths, number_values};
ghost use Rattle.hprof_values.specs.RecordTag.{code_of_record};
ghost use Rattle.hprof_items.specs.Head.{record_bytes};
ghost use Rattle.hprof_items.specs.Spelling.{longest_body, spelling, Fits};
ghost use Rattle.hprof_items.specs.RecordBody.{record_of};
ghost use Rattle.hprof_items.specs.FactValue.{value_of, ListsHave};
ghost use Rattle.hprof_devices.specs.Device.{Writes, LeavesHealth};

use crate::front_writing::write_front;
use crate::record_front::record_front;
use hprof_devices::{Target, WriteFault};
use hprof_items::Fact;
use hprof_values::{IdSize, Number, RecordTag, numbers_len};

/// Writes a record with time 0. Its body is some fields, and the bytes after them.
#[inline(always)]
fn write_record<W: Target>(
    tag: RecordTag,
    fields: &[Number],
    more: &[u8],
    ids: IdSize,
    target: &mut W,
) -> Result<(), WriteFault>
    requires well { W.health target.old ≡ Well }
    requires few { length fields.now ≤ 6 }
    requires fits { FitFields (number_widths ids fields.now) (number_values fields.now) }
    requires short { length (field_bytes (number_widths ids fields.now) (number_values fields.now) ++ more.now) ≤ longest_body }
    ensures bytes { Writes (W.written target.old) (W.written target.new) result
        (record_bytes (code_of_record tag) 0 (field_bytes (number_widths ids fields.now) (number_values fields.now) ++ more.now)) }
    ensures health { LeavesHealth result (W.health target.new) }
{
    let len = numbers_len(fields, ids) + more.len();
    let head = [
        Number::One(tag.code()),
        Number::Four(0),
        Number::Four(len as u32),
    ];
    write_front(&head, fields, more, ids, target)
}

/// Writes the record of a fact.
#[inline(always)]
pub(crate) fn write_stated<W: Target>(
    fact: &Fact<'_>,
    ids: IdSize,
    target: &mut W,
) -> Result<(), WriteFault>
    requires is { IsSome (record_of (value_of fact.now)) }
    requires well { W.health target.old ≡ Well }
    requires fits { Fits ids (value_of fact.now) }
    requires lists { ListsHave ids fact.now }
    ensures bytes { Writes (W.written target.old) (W.written target.new) result (spelling ids (value_of fact.now)) }
    ensures health { LeavesHealth result (W.health target.new) }
{
    let Some(front) = record_front(fact, ids) else {
        unreachable!()
    };
    write_record(
        front.tag,
        &front.fields[..front.count],
        front.more,
        ids,
        target,
    )
}
