//! Writing the sub-records of roots, instances and arrays.

ghost use Rattle.std.specs.Prelude.{◌≡◌, ◌≤◌, length};
ghost use Rattle.hprof_devices.specs.declared.health.Health.TheVariants.{Well};
ghost use Rattle.hprof_values.specs.FieldGroups.{FitFields};
ghost use Rattle.hprof_values.specs.Numbers.{number_widths, number_values};
ghost use Rattle.hprof_items.specs.Spelling.{spelling, Fits};
ghost use Rattle.hprof_items.specs.SubRecord.{tagged_bytes};
ghost use Rattle.hprof_items.specs.FactValue.{value_of, ListsHave};
ghost use Rattle.hprof_writing.specs.SubFronts.{HasSubFront};
ghost use Rattle.hprof_devices.specs.Device.{Writes, LeavesHealth};

use crate::front_writing::write_front;
use crate::sub_front::sub_front;
use hprof_devices::{Target, WriteFault};
use hprof_items::Fact;
use hprof_values::{IdSize, Number, SubTag};

/// Writes a sub-record: the fields after its tag, and the bytes after them.
#[inline(always)]
fn write_sub_record<W: Target>(
    tag: SubTag,
    fields: &[Number],
    more: &[u8],
    ids: IdSize,
    target: &mut W,
) -> Result<(), WriteFault>
    requires well { W.health target.old ≡ Well }
    requires few { length fields.now ≤ 4 }
    requires fits { FitFields (number_widths ids fields.now) (number_values fields.now) }
    ensures bytes { Writes (W.written target.old) (W.written target.new) result
        (tagged_bytes tag (number_widths ids fields.now) (number_values fields.now) more.now) }
    ensures health { LeavesHealth result (W.health target.new) }
{
    let head = [Number::One(tag.code())];
    write_front(&head, fields, more, ids, target)
}

/// Writes the sub-record of a root, an instance or an array.
#[inline(always)]
pub(crate) fn write_sub<W: Target>(
    fact: &Fact<'_>,
    ids: IdSize,
    target: &mut W,
) -> Result<(), WriteFault>
    requires has { HasSubFront (value_of fact.now) }
    requires well { W.health target.old ≡ Well }
    requires fits { Fits ids (value_of fact.now) }
    requires lists { ListsHave ids fact.now }
    ensures bytes { Writes (W.written target.old) (W.written target.new) result (spelling ids (value_of fact.now)) }
    ensures health { LeavesHealth result (W.health target.new) }
{
    let Some(front) = sub_front(fact, ids) else {
        unreachable!()
    };
    write_sub_record(
        front.tag,
        &front.fields[..front.count],
        front.more,
        ids,
        target,
    )
}
