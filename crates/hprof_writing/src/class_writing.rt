//! Writing a class dump.

ghost use Rattle.std.specs.Prelude.{◌≡◌, ◌≤◌, ◌++◌, sum, Some};
ghost use Rattle.hprof_devices.specs.declared.health.Health.TheVariants.{Well};
ghost use Rattle.hprof_values.specs.declared.sub_tag.SubTag.TheVariants as tags;
ghost use Rattle.hprof_values.specs.FieldGroups.{field_bytes, FitFields};
ghost use Rattle.hprof_values.specs.Numbers.{number_widths, number_values};
ghost use Rattle.hprof_items.specs.Spelling.{spelling, Fits};
ghost use Rattle.hprof_items.specs.ObjectTag.{object_of};
ghost use Rattle.hprof_items.specs.FactValue.{value_of, ListsHave};
ghost use Rattle.hprof_devices.specs.Device.{Writes, LeavesHealth};
ghost use Rattle.hprof_writing.specs.ClassFronts.{counted};

use crate::class_front::{ListFront, class_front};
use crate::front_writing::write_front;
use hprof_devices::{Target, WriteFault};
use hprof_items::Fact;
use hprof_values::{IdSize, Number};

/// Writes some fields, the count of a list, and its entries.
fn write_list<W: Target>(
    head: &[Number],
    list: ListFront<'_>,
    ids: IdSize,
    target: &mut W,
) -> Result<(), WriteFault>
    requires well { W.health target.old ≡ Well }
    requires fits { FitFields (number_widths ids head.now) (number_values head.now) }
    requires room { sum (number_widths ids head.now) ≤ 78 }
    ensures bytes { Writes (W.written target.old) (W.written target.new) result
        (field_bytes (number_widths ids head.now) (number_values head.now) ++ counted list.entry.count list.entry.bytes.now) }
    ensures health { LeavesHealth result (W.health target.new) }
{
    write_front(head, &[Number::Two(list.count)], list.bytes, ids, target)
}

/// Writes a class dump.
pub(crate) fn write_class<W: Target>(
    fact: &Fact<'_>,
    ids: IdSize,
    target: &mut W,
) -> Result<(), WriteFault>
    requires is { object_of (value_of fact.now) ≡ Some tags.ClassDump }
    requires well { W.health target.old ≡ Well }
    requires fits { Fits ids (value_of fact.now) }
    requires lists { ListsHave ids fact.now }
    ensures bytes { Writes (W.written target.old) (W.written target.new) result (spelling ids (value_of fact.now)) }
    ensures health { LeavesHealth result (W.health target.new) }
{
    let Some(front) = class_front(fact, ids) else {
        unreachable!()
    };
    write_list(&front.fields, front.constants, ids, target)?;
    write_list(&[], front.statics, ids, target)?;
    write_list(&[], front.own, ids, target)
}
