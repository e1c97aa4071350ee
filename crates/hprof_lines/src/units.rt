//! The units of a text in print.

ghost use Rattle.std.specs.Prelude.{◌≡◌, []};
ghost use Rattle.hprof_devices.specs.declared.health.Health.TheVariants.{Well};
ghost use Rattle.hprof_naming.specs.Units.{units_of};
ghost use Rattle.hprof_lines.specs.Stopping.{LeavesTarget, WritesText};
ghost use Rattle.hprof_lines.specs.Printed.{printed_units};

use hprof_devices::{Target, push_all};
use hprof_engine::ProductFault;
use hprof_naming::Units;
use hprof_text::push_unit;
use std::alloc::Global;

/// The number of bytes that are kept before they are written.
const PIECE_LEN: usize = 4096;

/// Writes bytes, and keeps none of them.
fn pass_on<W: Target>(text: &mut Vec<u8>, target: &mut W) -> Result<(), ProductFault>
    requires { W.health target.old ≡ Well }
    ensures bytes { WritesText (W.written target.old) (W.written target.new) result text.old.items }
    ensures empty { text.new.items ≡ [] }
    ensures health { LeavesTarget result (W.health target.new) }
{
    let pushed = push_all(text, target);
    text.clear();
    match pushed {
        Ok(()) => Ok(()),
        Err(fault) => Err(ProductFault::Write(fault)),
    }
}

/// Writes the units in print, piece by piece. If it stops, some of them were written, from the front.
pub fn write_units<W: Target>(
    alloc: Global,
    units: Units<'_>,
    target: &mut W,
) -> Result<(), ProductFault>
    requires { W.health target.old ≡ Well }
    ensures bytes { WritesText (W.written target.old) (W.written target.new) result
        (printed_units (units_of units.entry.coding units.entry.bytes.now)) }
    ensures health { LeavesTarget result (W.health target.new) }
{
    let mut text = Vec::new(alloc);
    let mut rest = units.bytes;
    while let Some((unit, after)) = units.coding.first_unit(rest) {
        push_unit(&mut text, unit)?;
        if text.len() >= PIECE_LEN {
            pass_on(&mut text, target)?;
        }
        rest = after;
    }
    pass_on(&mut text, target)
}
