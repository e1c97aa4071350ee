//! Writing fields, and the bytes after them.

ghost use Rattle.std.specs.Prelude.{◌≡◌, ◌+◌, ◌≤◌, ◌++◌, sum};
ghost use Rattle.hprof_devices.specs.declared.health.Health.TheVariants.{Well};
ghost use Rattle.hprof_values.specs.FieldGroups.{field_bytes, FitFields};
ghost use Rattle.hprof_values.specs.Numbers.{number_widths, number_values};
ghost use Rattle.hprof_devices.specs.Device.{Writes, LeavesHealth};

use hprof_devices::{Target, WriteFault, push_all};
use hprof_values::{IdSize, Number, numbers_len, put_numbers};

/// The largest number of bytes of the fields that are written in one piece.
const FRONT_LEN: usize = 80;

/// Writes the fields of a head and those after it in one piece, and then the bytes after them.
#[inline(always)]
pub(crate) fn write_front<W: Target>(
    head: &[Number],
    fields: &[Number],
    more: &[u8],
    ids: IdSize,
    target: &mut W,
) -> Result<(), WriteFault>
    requires well { W.health target.old ≡ Well }
    requires head { FitFields (number_widths ids head.now) (number_values head.now) }
    requires fields { FitFields (number_widths ids fields.now) (number_values fields.now) }
    requires room { sum (number_widths ids head.now) + sum (number_widths ids fields.now) ≤ 80 }
    ensures bytes { Writes (W.written target.old) (W.written target.new) result
        ((field_bytes (number_widths ids head.now) (number_values head.now)
        ++ field_bytes (number_widths ids fields.now) (number_values fields.now)) ++ more.now) }
    ensures health { LeavesHealth result (W.health target.new) }
{
    let mut front = [0; FRONT_LEN];
    put_numbers(head, ids, &mut front);
    let begin = numbers_len(head, ids);
    put_numbers(fields, ids, &mut front[begin..]);
    let end = begin + numbers_len(fields, ids);
    push_all(&front[..end], target)?;
    push_all(more, target)
}
