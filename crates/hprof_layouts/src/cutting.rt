//! Reading the values of fields from the bytes of an instance.

ghost use Rattle.std.specs.Prelude.{◌≡◌, length, IfOk};
ghost use Rattle.hprof_layouts.specs.Fields.{width_of_slots, values_in};

use crate::field_value::FieldValue;
use crate::slot::Slot;
use hprof_values::IdSize;
use hprof_values::number::bits_at;
use std::alloc::{AllocError, Global};

/// Returns the number of bytes of the values of these slots.
pub(crate) fn width_of_slots(slots: &[Slot], ids: IdSize) -> u128
    ensures { result ≡ width_of_slots ids slots.now }
{
    let mut width: u128 = 0;
    for slot in slots {
        width += slot.basic.width(ids) as u128;
    }
    width
}

/// Returns the values of the slots that fill the bytes.
pub(crate) fn cut(
    alloc: Global,
    slots: &[Slot],
    bytes: &[u8],
    ids: IdSize,
) -> Result<Vec<FieldValue>, AllocError>
    requires { width_of_slots ids slots.now ≡ length bytes.now }
    ensures { IfOk result (λ values. values.items ≡ values_in ids slots.now bytes.now) }
{
    let mut values = Vec::new(alloc);
    let mut rest = bytes;
    for slot in slots {
        let bits = bits_at(rest, slot.basic, ids);
        (_, rest) = rest.split_at(slot.basic.width(ids) as usize);
        values.push(FieldValue {
            class: slot.class,
            name: slot.name,
            basic: slot.basic,
            bits,
        })?;
    }
    Ok(values)
}
